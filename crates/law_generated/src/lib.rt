//! The generated programs: that the text for each number is accepted, and that its run is finished within the greatest budget
//! with as many contexts as it is said to have. The laws are the contracts of functions that do nothing.
#![tactic(auto)]

mod laws;
mod runs;

pub use laws::generated_texts_are_accepted;
pub use runs::{
    generated_runs_are_finished, generated_runs_throw_nothing, greatest_budget_suffices,
    main_is_first, no_smaller_budget_suffices,
};
