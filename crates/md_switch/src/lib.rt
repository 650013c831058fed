//! Which disjunctions have the shape of a switch: each arm begins with a test of one variable for a functor or constant of
//! its own. The variable, and what it is tested for in each arm.
#![tactic(auto)]

mod key;
mod shape;

pub use key::Key;
pub use shape::{Shape, shape_of};
