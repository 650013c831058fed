//! A plain, slow program that computes the run of a program by its definition, for other machines to be compared with.
//! It tells a trace by the definition's own equations, one after the other; all that it makes stays in an arena.
//! Its tests stand in `test_machine`, where programs are read from texts.
#![tactic(auto)]

mod arena;
mod call;
mod env;
mod goal;
mod job;
mod names;
mod runner;
mod simple;
mod size;
mod switch;
mod told;
mod trace;
mod value;

pub use runner::run;
pub use told::Item;
pub use value::{Parts, Value};
