// What a name in a goal stands for.
use md_base::ProcId;

/// What a name in a goal stands for.
#[derive(Clone, Copy, Debug, PartialEq, Eq)]
pub enum Named {
    /// A functor, of the type that has this place among those of the program.
    Functor(usize),
    /// The predicate of this number.
    Predicate(ProcId),
    /// Nothing that the program declares, or the goal has no name.
    Nothing,
}
