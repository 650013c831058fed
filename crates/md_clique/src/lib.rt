//! Cliques of a call graph: which contexts are mutually recursive, numbered by their least contexts, with their
//! members and the one link that enters each (Conway and Somogyi 2001, section 3).
#![tactic(auto)]

mod adjacency;
mod clique;
mod entries;
mod graph;
mod laws;
mod members;
mod numbering;
mod search;

pub use adjacency::Adjacency;
pub use clique::Cliques;
pub use entries::{EnterFault, Entrances, entering};
pub use graph::{cliques, listed_cliques, single_cliques};
pub use laws::{cliques_are_determined, each_clique_has_one_entry, stations_lead_up_to_the_root};
pub use members::{Layout, lay_out};
