//! Profiles in text, brought back from it, and added up over several runs of one program.
#![tactic(auto)]

mod cut;
mod fault;
mod form;
mod lines;
mod number;
mod put;
mod reading;
mod rows;
mod running;
mod same;
mod section;
mod summing;
mod told;
mod words;
mod writing;

pub use fault::DumpFault;
pub use reading::undump;
pub use running::{RunningSums, one_after_the_other_gives_the_same};
pub use summing::{ProcSum, SumFault, sum_procs};
pub use writing::dump;
