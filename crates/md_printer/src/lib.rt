//! A program as data to its printed text, which can be read again.
#![tactic(auto)]

mod goal;
mod laws;
mod layout;
mod literal;
mod names;
mod predicate;
mod printing;
mod simple;
mod types;

pub use laws::{lines_are_not_printed, printed_texts_are_printed_again};
pub use printing::print;
