//! The recorder: takes the port events of a run, and keeps its contexts and links with their counts. Each event costs
//! a fixed number of table steps, and one for each call site of the callee where a call makes a new context.
#![tactic(auto)]

mod leads;
mod recorder;
mod saved;
mod sink;

pub use recorder::Recorder;
pub use saved::Saved;
