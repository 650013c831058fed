//! What the numbers of pages for people add up to. The laws are the contracts of functions that do nothing.
#![tactic(auto)]

mod laws;

pub use laws::callers_add_up;
