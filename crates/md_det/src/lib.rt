//! The determinism checks: how often each goal of a program may succeed, which disjunctions are switches, or the first
//! fault (Mercury Language Reference Manual, "Determinism", in this project's profile).
#![tactic(auto)]

mod atomic;
mod check;
mod checked;
mod context;
mod disjunction;
mod fault;
mod finding;
mod judge;
mod main_predicate;
mod pair;
mod predicate;
mod switch;
mod throws;

pub use check::check_det;
pub use checked::Checked;
pub use fault::DetFault;
pub use finding::{Finding, Switch};
pub use pair::{Bound, Pair};
