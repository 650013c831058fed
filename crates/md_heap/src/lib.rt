//! The values that a running program builds: integers, literals by number, and cells, which lie in one heap and are
//! compared without recursion.
#![tactic(auto)]

mod heap;
mod row;
mod same;
mod value;

pub use heap::Heap;
pub use same::Same;
pub use value::Value;
