// What a machine has as a run begins.
ghost use Rattle.std.specs.Prelude.{ℕ, ◌≡◌, ◌<◌, ◌^◌, length, replicate, slice_get, Some, IfOk};
ghost use Rattle.md_flat.specs.declared.state.Frame.{Frame};
ghost use Rattle.law_flat.specs.Begins.{functor_cells};
ghost use Rattle.md_machine.specs.Stacks.{AreFirst};

use crate::grow::no_choice;
use crate::stacks::Stacks;
use md_base::NoMemory;
use md_flat::{Code, Frame};
use md_heap::{Heap, Value};
use std::alloc::Global;

/// So many slots there are at first beside those of main.
const SLOTS: usize = 4096;

/// So many frames, and so many choices.
const PLACES: usize = 1024;

/// The stacks on which a run of the code begins, where this is the mark of main's call. The details of the code have numbers of
/// 32 bits.
pub fn begin<M: Copy + Drop>(alloc: Global, code: &Code, mark: M) -> Result<Stacks<M>, NoMemory>
    requires few { length code.now.details.items < 4294967296 }
    ensures first { IfOk result (λ stacks. AreFirst code.now mark stacks) }
    ensures callers { IfOk result (λ stacks. (k : ℕ) (f : Frame M) → slice_get stacks.frames.items k ≡ Some f → f.caller ≡ 0) }
    ensures frames { IfOk result (λ stacks. length stacks.frames.items < 2 ^ 32) }
    ensures choices { IfOk result (λ stacks. length stacks.choices.items < 2 ^ 32) }
{
    let call = code.details.len() as u32;
    let main = Frame {
        caller_base: 0,
        caller: 0,
        call,
        mark,
    };
    let slots = filled(alloc, Value::Int(0), code.reach as usize + SLOTS)?;
    let frames = filled(alloc, main, PLACES)?;
    let choices = filled(alloc, no_choice(), PLACES)?;
    let heap = functors(alloc, code.functors)?;
    let output = Vec::new(alloc);
    Ok(Stacks {
        slots,
        frames,
        choices,
        heap,
        output,
    })
}

/// So many of this item.
fn filled<T: Copy + Drop>(alloc: Global, item: T, count: usize) -> Result<Vec<T>, NoMemory>
    ensures { IfOk result (λ items. items.items ≡ replicate count item) }
{
    let mut items = Vec::new(alloc);
    items.resize(count, item)?;
    Ok(items)
}

/// A heap with a cell for each functor, whose head is the functor's number and its own.
fn functors(alloc: Global, count: u32) -> Result<Heap, NoMemory>
    ensures { IfOk result (λ heap. heap ≡ functor_cells count) }
{
    let mut heap = Heap::new(alloc);
    for number in 0..count {
        heap.build(number, &[])?;
    }
    Ok(heap)
}
