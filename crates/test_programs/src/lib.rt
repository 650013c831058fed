//! Texts of small programs that look random, for the crates that compare two tellings of a run. The same number makes the same
//! text each time.
#![tactic(auto)]

mod maker;

pub use maker::{Family, made};
