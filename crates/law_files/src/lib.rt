//! What a profile says on its way through a file and through a text, and what holds of each run of an accepted text: laws over
//! definitions, and of what is written of each profile, each the contract of a function that does nothing, or that looks at each number
//! of a profile and does nothing with it.
#![tactic(auto)]

mod room;
mod runs;
mod spelled;
mod through;
mod views;

pub use room::{profiles_come_back, profiles_have_room};
pub use runs::{
    accepted_procedures_answer_as_declared, accepted_runs_are_left, accepted_runs_go_on,
};
pub use spelled::{
    dumped_profiles_are_spelled, encoded_profiles_are_spelled, files_are_whole_or_damaged,
    files_spell_one_profile, texts_are_whole_or_faulty, texts_spell_one_profile,
};
pub use through::{
    files_say_what_the_run_says, pages_show_the_run, run_leaves_its_file, serving_tells_the_run,
};
pub use views::{
    cliques_of_runs_are_entered_once, graphs_have_cliques, profiles_have_one_view,
    profiles_have_views_or_two_entries,
};
