//! Pages for people as tables: what is expensive, and in which procedures and modules a name is.
#![tactic(auto)]

mod called;
mod callee;
mod caller;
mod costs;
mod depths;
mod find;
mod flame;
mod full_names;
mod gathered;
mod hot;
mod laws;
mod led;
mod name;
mod order;
mod ports;
mod ranking;
mod sort;
mod station;
mod text;

pub use called::called_table;
pub use callee::callees_table;
pub use caller::callers_table;
pub use costs::{push_counted, whole_of};
pub use find::{found_modules_table, found_procs_table};
pub use flame::flame_text;
pub use hot::hot_table;
pub use laws::{cliques_add_up, flames_add_up};
pub use led::{Led, led_by, line_at};
pub use name::{add_full_name, add_number, full_name, proc_named};
pub use ports::{PortsRow, measure_word, ports_table};
pub use ranking::ranked_procs;
pub use sort::Sort;
pub use station::{entered_from, stations_table};
