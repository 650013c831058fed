//! The cliques of a profile as a tree for people: a row for each clique whose total is large enough, below its parent.
#![tactic(auto)]

mod branch;
mod child;
mod entry;
mod laws;
mod picture;
mod rest;
mod row;
mod scale;
mod tree;

pub use entry::where_words;
pub use laws::{
    boxes_lie_within, boxes_stand_apart, each_box_has_its_row, each_clique_of_enough_has_one_box,
};
pub use picture::{CliqueBox, shown_cliques};
pub use row::clique_own;
pub use tree::tree_table;
