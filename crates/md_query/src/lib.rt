//! What a page is asked for by, a path and pairs of names and values as in the address `clique?id=1`, and what is on the
//! page: rows with the numbers of a profile, and tables.
#![tactic(auto)]

mod answer;
mod listing;
mod lists;
mod pages;
mod pair;
mod query;
mod read;
mod row;
mod rows;
mod tables;

pub use answer::{PageFault, page};
pub use pair::{measure_named, number_within};
pub use query::{Query, QueryFault};
pub use read::read_query;
pub use row::{Page, Row, Title, What};
