//! The outside of the machine: its files, the program's own streams, and TCP at 127.0.0.1. They tell nothing of what
//! they hold, and count their faults; a fault that was overcome isn't one. Beneath them stands the operating system,
//! which is trusted.
#![tactic(auto)]

mod held;
mod link;
mod place;
mod sink;
mod standard;
mod store;
mod tcp;
mod tries;
mod waiting;

pub use link::TcpLink;
pub use sink::StdSink;
pub use standard::{Standard, take_free_numbers};
pub use store::StdStore;
pub use tcp::TcpNet;
