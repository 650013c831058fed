//! A law of flat code: in the code of a program each address stands among the instructions, each slot in the frames, and each
//! detail among the details. So a machine over it needs no test of them while it runs.
#![tactic(auto)]

mod placed;

pub use placed::code_is_placed;
