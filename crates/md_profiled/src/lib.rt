//! The profile of a run: a program is run with a recorder, and what it kept is loaded so that it can be asked.
#![tactic(auto)]

mod load;
mod profiled;

pub use load::load_run;
pub use profiled::{Profiled, profile_run};
