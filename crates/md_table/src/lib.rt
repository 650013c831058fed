//! Tables: a heading and rows of cells in, aligned lines or HTML out; and what numbers look like in a cell.
#![tactic(auto)]

mod add;
mod anchor;
mod cells;
mod html;
mod lines;
mod number;
mod row;
mod span;
mod table;
mod target;
mod text;
mod width;

pub use add::add_number;
pub use anchor::{add_encoded, add_escaped};
pub use html::add_html;
pub use lines::Lines;
pub use number::{add_indent, add_share};
pub use table::Table;
pub use text::add_text;
