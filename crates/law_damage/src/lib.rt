//! What is wrong with a file that spells no profile, said of the fields of a list and not of a reader. The laws are the contracts of
//! functions that do nothing.
#![tactic(auto)]

mod laws;

pub use laws::{
    damages_are_first_broken_rules, files_keep_all_rules_or_break_one_first,
    profiles_are_rows_that_keep_the_rules, profiles_are_written_in_fields,
};
