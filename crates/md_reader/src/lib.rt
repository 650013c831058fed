//! The text of a program to the program as data, and back.
#![tactic(auto)]

mod argument;
mod call;
mod duplicates;
mod goal;
mod input;
mod laws;
mod names;
mod procedure;
mod program;
mod reading;
mod refused;
mod scope;
mod term;
mod types;
mod variables;
mod written;

pub use laws::{
    a_program_is_within_the_limits, a_text_has_more_bytes_than_arguments,
    a_text_has_more_bytes_than_goals, a_text_has_one_first_fault, a_text_spells_one_program,
};
pub use reading::read;
pub use refused::Refused;
