//! What is known of the program that a text spells, and of the runs of an accepted one: laws that join the grammar to the
//! definitions of a run and of port histories. No code: each law is the contract of a function that does nothing.
#![tactic(auto)]

mod laws;

pub use laws::{
    accepted_runs_are_histories, accepted_texts_are_within_bounds, accepted_texts_have_mains,
    texts_have_few_parts, texts_have_lines, texts_have_names, texts_have_short_names,
    texts_have_sites,
};
