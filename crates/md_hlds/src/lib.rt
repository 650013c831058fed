//! A program of the Mercury subset as data (its high-level data structure), and the definition of what a run of
//! it does: values, simple goals, the unfolded trace of a goal, and the run within a step budget.
#![tactic(auto)]

mod goal;
mod laws;
mod program;
mod sites;
mod types;
mod variables;

pub use goal::{Cmp, Goal, GoalKind, Op, PredName, Term};
pub use laws::{budgets_agree, depths_suffice};
pub use program::{Functor, Pred, Program, TypeDef};
pub use types::{Det, HoTy, Mode, Ty};
pub use variables::Variables;
