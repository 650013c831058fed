//! Worked examples as data: the lines of a case, as the programs that compute cases read them.
#![tactic(auto)]

mod case;
mod escape;

pub use case::{Case, Field};
pub use escape::unescaped;
