//! The commands of the profiler: what each does to files and streams, and what it tells of a fault.
#![tactic(auto)]

mod accept;
mod check;
mod command;
mod compare;
mod fault;
mod generate;
mod paged;
mod pairs;
mod report;
mod run;
mod serve;
mod stored;
mod sums;
mod texts;
mod turns;
mod write;

pub use command::{Status, top};
pub use generate::gen_text;
