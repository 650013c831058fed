//! Laws of flat code: where the code of a program stands, which ways of its clauses it leads along, and what a machine over flat
//! code makes of a step. At each step that has a law here the machine goes on as a machine in place does, in the run of the
//! program, or the run has ended, or room is wanting.
#![tactic(auto)]

mod beginnings;
mod closures;
mod endings;
mod heaps;
mod joined;
mod laid;
mod leading;
mod outputs;
mod ports;
mod simple;
mod steps;
mod switches;
mod unifications;

pub use beginnings::runs_begin;
pub use closures::{open_calls, returns_from_closures};
pub use endings::{ends_of_main, exceptions_leave};
pub use heaps::{cells_are_told, comparisons_go_the_same};
pub use joined::named_calls;
pub use laid::{bodies_are_laid, parts_are_laid, shapes_are_right};
pub use leading::{bodies_lead, goals_lead};
pub use outputs::goals_that_write_out;
pub use ports::{calls, exceptions, exits_that_leave, redos, returns_to_callers};
pub use simple::{constants, goals_that_build, goals_that_test, goals_that_write, simple_goals};
pub use steps::{
    choices_and_failures, ends_of_conditions, goals_with_parts, heights_of_bodies,
    instructions_of_no_goal,
};
pub use switches::{switch_goals, switches_by_constants, switches_by_functors};
pub use unifications::{
    comparisons_of_parts, comparisons_of_values, constants_of_functors, heads_of_cells,
    parts_of_cells,
};
