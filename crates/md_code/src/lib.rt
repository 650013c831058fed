//! Compiles a program that the checks accept: six instructions and one detail for each of its goals, in text order.
#![tactic(auto)]

mod block;
mod callee;
mod cases;
mod detail;
mod fact;
mod functors;
mod layout;
mod literals;
mod lookups;
mod number;
mod output;
mod place;
mod program;
mod simple;
mod source;
mod survey;
mod surveyed;
mod switch;
mod tables;

pub use program::compile;
