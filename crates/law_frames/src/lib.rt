//! The laws of a machine that changes its frames in place. It keeps one stack of choices and frames whose slots are
//! written over and over; it has no trail and copies no environments, and where no choice can be open a failure goes to
//! an address that is known before it runs. What it does is what the abstract machine of `law_steps` does, and so it makes
//! the run. Which variables have values is nothing that these laws decide.
#![tactic(auto)]

mod failing;
mod runs;
mod turns;

pub use failing::{
    callers_are_below, ends_of_bodies, ends_of_conditions, exceptions, failures, frame_rule,
    tops_fall, writes_keep_the_rest,
};
pub use runs::{machines_run, main_begins, weights_fold};
pub use turns::{
    every_turn, frames_above_the_top, turns_of_calls, turns_of_conditions, turns_of_conjunctions,
    turns_of_disjunctions, turns_of_simple_goals,
};
