//! The mode checks: which variables are bound, with which types, before and after each goal of a program, or the first
//! fault (Mercury Language Reference Manual, "Types", "Modes" and "Unique modes", in this project's profile).
#![tactic(auto)]

mod arms;
mod check;
mod class;
mod clause;
mod copies;
mod declarations;
mod end;
mod ends;
mod finding;
mod goals;
mod joined;
mod local;
mod main_predicate;
mod moded;
mod nonlocals;
mod noting;
mod occurrences;
mod start;
mod tally;
mod view;

pub use check::check_modes;
pub use class::Class;
pub use main_predicate::is_main;
pub use md_inst::ModeFault;
pub use md_names::Named;
pub use moded::Moded;
