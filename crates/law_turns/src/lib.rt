//! How often each goal of a program has a turn in a finished run, by equations over counts of ports: laws alone, each the
//! contract of a function that does nothing.
#![tactic(auto)]

mod laws;

pub use laws::{
    derived_entries_are_turns, derived_quantities_are_determined, turns_solve_the_equations,
};
