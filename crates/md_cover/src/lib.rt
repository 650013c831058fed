//! How often each goal of a procedure had a turn, as a table and as a text.
#![tactic(auto)]

mod bodies;
mod building;
mod counts;
mod coverage;
mod covering;
mod equation;
mod fault;
mod laws;
mod name;
mod number;
mod rows;
mod solving;
mod text;

pub use coverage::{Coverage, GoalCount, KindName};
pub use covering::cover;
pub use fault::CoverFault;
pub use laws::{profiles_of_runs_have_their_counts, profiles_of_runs_tell_their_calls};
pub use text::cover_text;
