//! Responses over connections: what the bytes that come on a connection are answered, by the pages of a loaded profile,
//! and how connections are read and answered one after the other. HTTP follows RFC 9110 and RFC 9112.
#![tactic(auto)]

mod answer;
mod heard;
mod link;
mod message;
mod reading;
mod response;
mod serving;

pub use link::{Served, serve_link};
pub use message::Refusal;
pub use response::reply;
pub use serving::{ServeFault, Tally, serve_connections};
