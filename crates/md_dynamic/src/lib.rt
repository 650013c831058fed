//! Contexts and links as rows, with the places where a link or an active context is found at once.
#![tactic(auto)]

mod check;
mod link;
mod profile;
mod slot;
mod span;
mod tables;

pub use link::LinkRow;
pub use profile::{CheckFault, Profile};
pub use span::Span;
pub use tables::Tables;
