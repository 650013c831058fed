//! The events of a run are a port history: the site table of a program, the history of a run, and the laws that join
//! the definition of a run to that of a port history. No code: each law is the contract of a function that does nothing.
#![tactic(auto)]

mod laws;

pub use laws::{
    activations_of_runs_end, calls_are_few, ended_runs_are_left, ended_runs_balance,
    events_are_told, fronts_are_histories, owners_agree, programs_have_tables, runs_are_histories,
};
