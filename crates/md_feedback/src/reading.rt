// What is read of a program.
use md_base::ProcId;
use md_modes::Moded;
use std::alloc::Global;

/// What is read of a program when the clause of one of its procedures is searched.
#[derive(Clone, Copy)]
pub(crate) struct Search<'a> {
    pub alloc: Global,
    pub moded: &'a Moded,
    /// For each call site its total calls, where they are many.
    pub heavy: &'a [Option<u64>],
    pub owner: ProcId,
}
