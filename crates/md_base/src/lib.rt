//! What every crate of the profiler stands on: the numbers and names of things, the counts of a run,
//! and the outside (files, streams, the net) as traits that can say what they hold and when they failed.
#![tactic(auto)]

mod distinct;
mod failed;
mod files;
mod measure;
mod name;
mod number;
mod outside;
mod steps;

pub use distinct::all_differ;
pub use failed::Failed;
pub use files::{ReadFault, WriteFault, read_all, write_file, write_whole};
pub use measure::{Counts, Measure};
pub use name::{Name, Text};
pub use number::{CsdId, NoMemory, PdId, ProcId, SiteId};
pub use outside::{Link, Net, Sink, Source, Store};
pub use steps::Steps;
