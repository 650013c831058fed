// Links between contexts.
use md_base::{Counts, PdId, SiteId};

/// A link: the context that calls, the call site, the context to which it leads, and its own counts. The root link has
/// neither caller nor site.
#[derive(Clone, Copy, PartialEq, Eq)]
pub struct LinkRow {
    pub caller: Option<PdId>,
    pub site: Option<SiteId>,
    pub callee: PdId,
    pub own: Counts,
}
