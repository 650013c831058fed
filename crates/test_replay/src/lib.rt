//! Recorded events: whether they are a port history, handing them to a sink, and the profile and the counts that they
//! give.
#![tactic(auto)]

mod history;
mod profile;
mod recorded;

pub use history::is_port_history;
pub use profile::{counter_of_events, profile_of_events};
pub use recorded::replay;
