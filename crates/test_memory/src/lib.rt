//! The outside in memory: stores, sinks, connections and nets that tell what they hold, of which chosen calls fail or
//! none does. Worked examples and comparisons of the profiler run over them.
#![tactic(auto)]

mod failures;
mod link;
mod net;
mod pieces;
mod sink;
mod store;

pub use link::{MemLink, SureLink};
pub use net::{MemNet, SureNet};
pub use pieces::PieceStore;
pub use sink::{MemSink, SureSink};
pub use store::{MemStore, SureStore};
