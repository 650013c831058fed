//! Costs by context and by clique: own counts, and totals that climb the tree of cliques (Conway and Somogyi 2001,
//! section 3).
#![tactic(auto)]

mod claims;
mod costs;
mod descent;
mod incoming;
mod keys;
mod kinds;
mod laws;
mod lists;
mod loaded;
mod outermost;
mod own;
mod propagating;
mod sums;
mod totals;
mod tree;

pub use laws::no_clique_of_a_run_is_entered_twice;
pub use loaded::Loaded;
pub use propagating::{CostFault, propagate};
pub use sums::Sums;
