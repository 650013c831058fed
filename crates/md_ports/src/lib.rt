//! What a program's text fixes of its profile: its modules, its procedures and its call sites, as tables; and its code with its ports.
#![tactic(auto)]

mod instrumented;
mod laws;
mod modules;
mod procs;
mod sites;
mod tables;

pub use instrumented::{Instrumented, instrument};
pub use laws::{
    sites_keep_their_lines, sites_of_a_text_have_its_lines, tables_are_sound,
    tables_give_the_site_table, tables_of_a_text_are_sound,
};
pub use tables::statics;
