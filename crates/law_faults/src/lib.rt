//! Which line of a text that spells no profile is at fault, said of the lines of rows and not of a reader. The laws are the contracts
//! of functions that do nothing.
#![tactic(auto)]

mod laws;

pub use laws::{
    faults_are_first_faulty_lines, profiles_are_written_in_lines,
    texts_spell_a_profile_or_have_one_faulty_line,
};
