//! A law of runs over flat code: each comes to its end. Within a body no way is a circle, a call is charged, and what is left of the
//! budget, the activations that go on and those to which choices come back count for less after each step.
#![tactic(auto)]

mod ends;

pub use ends::{code_of_programs_ends, folded_code_ends, steps_come_nearer};
