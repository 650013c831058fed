//! The words of the command line: which command they are, with which values.
#![tactic(auto)]

mod command;
mod procedure;
mod reading;
mod tool;
mod usage;
mod values;

pub use command::{Command, command_of};
pub use procedure::ProcWord;
