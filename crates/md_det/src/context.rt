// What a clause is judged by.
use md_modes::Moded;
use std::alloc::Global;

/// What the mode checks found at the goals of a program.
#[derive(Clone, Copy)]
pub struct Context<'b> {
    pub alloc: Global,
    pub moded: &'b Moded,
}
