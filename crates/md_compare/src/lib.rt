//! Two profiles compared, procedure by procedure: procedures are joined by their full names.
#![tactic(auto)]

mod cost;
mod laws;
mod line;
mod named;
mod table;
mod text;
mod told;

pub use laws::{
    a_name_has_a_row_where_its_difference_is_told, a_name_has_one_row, a_profile_is_as_itself,
    full_names_differ, rows_stand_in_order,
};
pub use table::compare_table;
pub use text::compare_text;
