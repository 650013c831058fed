//! What is known of a clause's variables: which are bound, with which types, and which io states have been used; and what
//! a goal without parts asks of it and makes of it (Mercury Language Reference Manual, "Types", "Modes" and "Unique
//! modes", in this project's profile).
#![tactic(auto)]

mod argument;
mod call;
mod closure;
mod fault;
mod inst;
mod kind;
mod names;
mod simple;
mod unify;

pub use argument::Spot;
pub use closure::same_det;
pub use fault::ModeFault;
pub use inst::{Inst, inst_at, inst_in, set_inst};
pub use kind::Kind;
pub use names::{Found, functor_called};
pub use simple::atomic;
