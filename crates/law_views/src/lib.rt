//! What the profile of a run says as a file, and what the run says: laws over definitions alone, each the contract of a
//! function that does nothing.
#![tactic(auto)]

mod laws;

pub use laws::a_file_says_what_the_run_says;
