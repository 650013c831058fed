//! Which pairs of calls of a program could run side by side with profit, by what a run cost: as a value, as a text, and read
//! back.
#![tactic(auto)]

mod candidates;
mod fault;
mod heavy;
mod laws;
mod line;
mod marks;
mod number;
mod pairs;
mod read;
mod reading;
mod search;
mod write;

pub use candidates::feedback;
pub use fault::FeedFault;
pub use laws::{
    a_site_table_has_the_sites, a_text_at_fault_spells_nothing, a_text_has_one_line_at_fault,
    a_text_spells_one_feedback,
};
pub use pairs::{Feedback, Pair, Pairs};
pub use read::read_feedback;
pub use write::write_feedback;
