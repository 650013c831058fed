//! The names of a program: which predicate, functor or type each stands for. Look-ups by name take the same time in a
//! program of any size.
#![tactic(auto)]

mod functors;
mod key;
mod named;
mod names;
mod predicates;
mod types;

pub use functors::Declared;
pub use key::{FunctorKey, PredicateKey};
pub use named::Named;
pub use names::Names;
