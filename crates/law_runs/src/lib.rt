//! Laws of a machine that changes its frames in place, at states where the modes hold: each turn, and the whole run, of a
//! program that a text spells and that has no fault of modes.
#![tactic(auto)]

mod calls;
mod instructions;
mod runs;
mod turns;

pub use calls::{turns_of_calls, turns_of_closures};
pub use instructions::{instructions_on_terms, instructions_on_variables, other_instructions};
pub use runs::{fit_machines_defer, fit_machines_run, main_is_there};
pub use turns::{
    choices_are_right, simple_turns, slots_hold_what_is_read, turns_of_disjunctions, turns_of_parts,
};
