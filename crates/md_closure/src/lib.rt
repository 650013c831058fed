//! The links of a higher-order call site in one context: one for each procedure that it has called.
#![tactic(auto)]

mod callees;

pub use callees::{find_or_add, find_or_add_to};
