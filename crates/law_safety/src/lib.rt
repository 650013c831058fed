//! Laws of accepted programs: values have types, no run is stuck, at each turn the environment fits what the mode rules
//! know, and each procedure, and each goal by itself, has as many answers as its determinism says.
#![tactic(auto)]

mod goals;
mod laws;
mod runs;
mod turns;

pub use goals::{goals_answer_as_their_pair, pairs_are_found, whole_switches_take_an_arm};
pub use laws::{answers_as_declared, comes_to_its_end, never_stuck};
pub use runs::{known_is_noted, no_turn_is_left_out, turns_fit};
pub use turns::{
    calls_fit, closures_meet_their_type, simple_goals_fit, spelled_programs_are_tidy,
    unifications_meet_their_class,
};
