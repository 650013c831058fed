//! The profile file: a profile as bytes, and bytes as a profile, in pieces of any size (`docs/FILE.md`).
#![tactic(auto)]

mod at_once;
mod damage;
mod decoder;
mod encoder;
mod fields;
mod graph;
mod links;
mod lists;
mod loading;
mod modules;
mod names;
mod part;
mod procs;
mod reader;
mod seats;
mod spelled;
mod writing;

pub use damage::{DecodeFault, Kind};
pub use decoder::{Decoder, decode};
pub use encoder::encode;
pub use graph::Graph;
pub use links::joins;
pub use loading::{LoadFault, load};
pub use modules::Modules;
pub use procs::Procs;
pub use writing::write_profile;
