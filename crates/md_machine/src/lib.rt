//! Runs the code of programs: a machine over flat code that stands in a run at each of its steps.
#![tactic(auto)]

mod begin;
mod grow;
mod program;
mod ran;
mod rounds;
mod run;
mod running;
mod stacks;

pub use program::{execute, interpret};
pub use ran::{End, Ran};
pub use rounds::what_is_seen_is_a_history;
