// Code that is being laid out.

use md_flat::{Detail, Instruction};

/// The instructions and the details of the goals that are laid out so far.
#[derive(Drop)]
pub struct Output {
    pub instructions: Vec<Instruction>,
    pub details: Vec<Detail>,
}
