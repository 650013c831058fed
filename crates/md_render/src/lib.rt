//! Pages as bytes: as plain text, and as HTML with anchors.
#![tactic(auto)]

mod address;
mod foot;
mod form;
mod icicle;
mod laws;
mod line;
mod lookup;
mod number;
mod people;
mod place;
mod sheet;
mod table;
mod title;
mod whole;

pub use laws::rows_are_anchors;
pub use line::proc_line;
pub use whole::{html, text};
