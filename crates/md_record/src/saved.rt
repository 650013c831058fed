// What the recorder hands out at a call, and takes back at the ports after it.
use md_base::{CsdId, PdId};

/// The mark of an activation: its context, its link, and the active context of its procedure before its call, which is
/// due again when it is left.
#[derive(Clone, Copy, PartialEq, Eq)]
pub struct Saved {
    /// Its context.
    pub top: PdId,
    /// The link that leads to its context.
    pub middle: CsdId,
    /// The active context of its procedure before its call, if there was one.
    pub old: Option<PdId>,
}
