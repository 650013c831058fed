//! Laws of the modes at each state of the abstract machine: what the mode rules know there, and what a simple goal does with
//! slots that don't tell whether they hold a value.
#![tactic(auto)]

mod choices;
mod instructions;
mod ranges;
mod slots;
mod states;
mod turns;

pub use choices::{choices_are_found, switches_meet_a_value};
pub use instructions::{other_goals_by_slots, terms_by_role, variables_and_constants_by_role};
pub use ranges::variables_are_in_range;
pub use slots::simple_goals_go_by_slots;
pub use states::{modes_hold_at_each_state, turns_of_states_fit};
pub use turns::{calls_hand_over, turns_go_by_slots, turns_read_what_is_noted};
