// What the determinism checks find at a goal.

use crate::pair::Pair;

/// A disjunction of which at most one arm runs, since each arm begins with a test of one variable for a functor or constant
/// of its own.
#[derive(Clone, Copy, Debug, PartialEq, Eq)]
pub struct Switch {
    /// The variable that the arms test.
    pub var: u32,
    /// Whether each functor of the variable's type has an arm.
    pub whole: bool,
}

/// What is found at one goal.
#[derive(Clone, Copy, PartialEq, Eq)]
pub struct Finding {
    /// The switch that the goal is, if it is one.
    pub switch: Option<Switch>,
    pub pair: Pair,
}
