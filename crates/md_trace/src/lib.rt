//! Events of a run and what a profile says of them: definitions of contexts, links, cliques and counts over a
//! list of events, and the sinks that take the events one after the other.
#![tactic(auto)]

mod balance;
mod counter;
mod event;
mod port_sink;
mod silent;

pub use balance::{activations_end, contexts_balance, links_balance};
pub use counter::Counter;
pub use event::Event;
pub use md_base::Counts;
pub use port_sink::PortSink;
pub use silent::Silent;
