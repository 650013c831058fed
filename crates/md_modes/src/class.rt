// What the mode checks find at a goal.

use md_hlds::HoTy;
use md_names::Named;

/// What a unification does, or the type of the closure that a higher-order call calls.
#[derive(Debug, Drop)]
pub enum Class {
    /// `X = f(..)` or `X = c` that gives X its value.
    Construct,
    /// `X = q(..)` that makes a closure.
    Close,
    /// `X = f(..)` or `X = c` where X has a value. `bound` has the places, from 0, of the arguments that are bound before
    /// the goal.
    Deconstruct { bound: Vec<u32> },
    /// `X = Y` that gives the variable `to` the value of the other.
    Assign { to: u32 },
    /// `X = Y` where both have values.
    Test,
    Closure(HoTy),
}

/// What is found at one goal.
#[derive(Drop)]
pub struct Note {
    /// Of a unification or a higher-order call.
    pub class: Option<Class>,
    /// What the name in the goal stands for.
    pub named: Named,
    /// How many goals it has, itself among them.
    pub size: usize,
    /// The variables that are bound after the goal and not before it, in rising order; none where the place after it isn't
    /// reachable.
    pub binds: Vec<u32>,
    /// Whether one of these occurs outside the goal.
    pub binds_outside: bool,
    /// Whether an io state is a variable of the goal, before or after it; a conjunction, disjunction or if-then-else names
    /// none itself.
    pub names_io: bool,
}
