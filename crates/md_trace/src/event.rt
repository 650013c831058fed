// The events of a run.
use md_base::{ProcId, SiteId};

/// One port of one activation, or an allocation by it. Activations are numbered from 0 in the order of their
/// calls; activation 0 is that of the main procedure.
#[derive(Clone, Copy, PartialEq, Eq)]
pub enum Event {
    /// Activation `act` of the procedure `callee` begins, called by the activation `parent` at the call site
    /// `site`; the main procedure has neither.
    Call {
        act: u32,
        parent: Option<u32>,
        site: Option<SiteId>,
        callee: ProcId,
    },
    /// The activation has found a solution and returns to its caller.
    Exit {
        act: u32,
    },
    /// Its caller comes back for a further solution.
    Redo {
        act: u32,
    },
    /// It has no further solution, and returns to its caller.
    Fail {
        act: u32,
    },
    /// An exception leaves it, and goes on to its caller.
    Excp {
        act: u32,
    },
    /// It builds a term of this many words.
    Alloc {
        act: u32,
        words: u32,
    },
}
