//! An abstract machine for runs: a frame with its callers, and a stack of what waits for it. Its steps are what a machine
//! that runs programs does; what it makes is the run by the definition.
#![tactic(auto)]

mod laws;

pub use laws::{machines_make_runs, machines_stand_in_runs};
