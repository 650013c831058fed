// How often the goals of a procedure had a turn.
use md_base::ProcId;
use std::marker::Model;

/// What a goal is. `Write` is any of the three builtins that write.
#[derive(Clone, Copy, PartialEq, Eq)]
pub enum KindName {
    True,
    Fail,
    Unify,
    Arith,
    Compare,
    Write,
    Call,
    ClosureCall,
    Conj,
    Disj,
    If,
    Not,
    Some,
    Error,
}

/// A goal of a procedure and how often it had a turn, where that is known.
#[derive(Clone, Copy, PartialEq, Eq)]
pub struct GoalCount {
    /// The goal's place among the procedure's goals, in text order, outer before inner.
    pub place: u32,
    /// How many goals it stands in.
    pub depth: u32,
    /// The line of its first token.
    pub line: u32,
    pub kind: KindName,
    pub turns: Option<u64>,
}

/// The goals of a procedure, in text order, outer before inner.
#[derive(Drop)]
pub struct Coverage {
    id: ProcId,
    goals: Vec<GoalCount>,
}

impl Model for Coverage {
    ghost use Rattle.md_cover.specs.Covered.{Covered};

    ghost Value = { Covered };

    ghost view = { λ c. record { id = c.id; goals = c.goals.items } };
}

impl Coverage {
    ghost use Rattle.std.specs.Prelude.{◌≡◌};

    /// The goals of this procedure. Takes no memory.
    pub fn from_parts(id: ProcId, goals: Vec<GoalCount>) -> Coverage
        ensures { result ≡ record { id = id; goals = goals.items } }
    {
        Coverage { id, goals }
    }

    /// The procedure.
    pub fn id(&self) -> ProcId
        ensures { result ≡ self.now.id }
    {
        self.id
    }

    /// Its goals, in text order, outer before inner.
    pub fn goals(&self) -> &[GoalCount]
        ensures { result.now ≡ self.now.goals }
    {
        self.goals.as_slice()
    }
}
