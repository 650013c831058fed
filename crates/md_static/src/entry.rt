// The rows of the tables of a program: procedures and call sites.
use md_base::{Name, ProcId};

/// A procedure: its module by number, its name and its number of arguments.
#[derive(Drop)]
pub struct Proc {
    pub module: u32,
    pub name: Name,
    pub arity: u8,
}

/// Which procedures a call site calls.
#[derive(Clone, Copy, Debug, PartialEq, Eq)]
pub enum SiteKind {
    /// This one alone.
    Plain(ProcId),
    /// That of the closure that it is given.
    HigherOrder,
}

/// A call site: the procedure whose clause has it, its line, and what it calls.
#[derive(Clone, Copy, Debug, PartialEq, Eq)]
pub struct Site {
    pub owner: ProcId,
    pub line: u32,
    pub kind: SiteKind,
}
