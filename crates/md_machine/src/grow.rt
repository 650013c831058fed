// More room for a machine.
ghost use Rattle.std.specs.Prelude.{◌≡◌, ◌<◌, ◌≤◌, ◌+◌, ◌^◌, length, max, nat_lt, OnOk};
ghost use Rattle.md_flat.specs.Meaning.{no_choice};
ghost use Rattle.law_flat.specs.Shows.{choice_in};
ghost use Rattle.md_machine.specs.Stacks.{state_in, blank_frame, HasMoreOf, HasGrown, are_short, or_all, IsLonger};

use crate::stacks::{Registers, Stacks};
use md_base::NoMemory;
use md_flat::{Choice, Frame};
use md_heap::Value;

/// There are fewer frames than this, and fewer choices, since their places have 32 bits.
const MOST: usize = 4_294_967_295;

/// Of what a machine is short: its next step may need more.
#[derive(Clone, Copy)]
pub struct Short {
    pub slots: bool,
    pub frames: bool,
    pub choices: bool,
}

/// Gives a machine more room. There are twice as many slots, frames or choices as before, of each kind of which it was short,
/// or of each kind where it was short of none; what was there stays. `NoMemory` also comes where there are 2^32 - 1 frames or
/// choices and it is short of them.
pub fn grow<M: Copy + Drop>(
    stacks: &mut Stacks<M>,
    registers: &Registers,
    reach: u32,
    mark: M,
) -> Result<(), NoMemory>
    requires frames { length stacks.old.frames.items < 2 ^ 32 }
    requires choices { length stacks.old.choices.items < 2 ^ 32 }
    ensures grown { HasGrown mark stacks.old stacks.new }
    ensures longer { OnOk result (IsLonger (are_short reach (state_in registers.now stacks.old)) stacks.old stacks.new) }
    ensures frames { length stacks.new.frames.items < 2 ^ 32 }
    ensures choices { length stacks.new.choices.items < 2 ^ 32 }
{
    let short = shortage(stacks, registers, reach);
    if short.slots {
        double(&mut stacks.slots, Value::Int(0), usize::MAX)?;
    }
    if short.frames {
        double(&mut stacks.frames, blank_frame(mark), MOST)?;
    }
    if short.choices {
        double(&mut stacks.choices, no_choice(), MOST)?;
    }
    Ok(())
}

/// Of what the machine is short, or all three where it is short of none of them.
fn shortage<M: Copy + Drop>(stacks: &Stacks<M>, registers: &Registers, reach: u32) -> Short
    ensures { result ≡ are_short reach (state_in registers.now stacks.now) }
{
    let newest = newest(stacks.choices.as_slice(), registers.height);
    let top = (newest.top as usize).max(registers.frame as usize + 1);
    let slots = stacks.slots.len();
    or_all(Short {
        slots: are_few(slots, newest.stop, registers.base, reach as usize),
        frames: stacks.frames.len() <= top,
        choices: stacks.choices.len() <= registers.height as usize + 1,
    })
}

/// The choice at this place, or that of no run.
fn newest(choices: &[Choice], height: u32) -> Choice
    ensures { result ≡ choice_in choices.now height }
{
    match choices.get(height as usize) {
        Some(choice) => *choice,
        None => no_choice(),
    }
}

/// Whether so many slots are too few for a frame above the stop and above a frame at the base, of `reach` slots each.
fn are_few(slots: usize, stop: usize, base: usize, reach: usize) -> bool
    ensures { result ≡ nat_lt slots (max stop (base + reach) + reach) }
{
    let Some(end) = base.checked_add(reach) else {
        return true;
    };
    match stop.max(end).checked_add(reach) {
        Some(needed) => slots < needed,
        None => true,
    }
}

/// These three, or all where it is none of them.
fn or_all(short: Short) -> Short
    ensures { result ≡ or_all short.slots short.frames short.choices }
{
    if short.slots || short.frames || short.choices {
        return short;
    }
    Short {
        slots: true,
        frames: true,
        choices: true,
    }
}

/// Puts copies of this item at the end: as many as there are items, or one where there is none, but no more than `most` are
/// there then.
fn double<T: Copy + Drop>(items: &mut Vec<T>, item: T, most: usize) -> Result<(), NoMemory>
    ensures more { HasMoreOf items.old.items items.new.items item }
    ensures longer { OnOk result (length items.old.items < length items.new.items) }
    ensures few { length items.old.items ≤ most → length items.new.items ≤ most }
{
    let count = items.len();
    if count >= most {
        return Err(NoMemory);
    }
    let double = count.saturating_add(count.max(1)).min(most);
    items.resize(double, item)?;
    Ok(())
}

/// A frame of no activation, with any mark.
fn blank_frame<M: Copy + Drop>(mark: M) -> Frame<M>
    ensures { result ≡ blank_frame mark }
{
    Frame {
        caller_base: 0,
        caller: 0,
        call: 0,
        mark,
    }
}

/// The choice of no run.
pub fn no_choice() -> Choice
    ensures { result ≡ no_choice }
{
    Choice {
        base: 0,
        stop: 0,
        frame: 0,
        top: 0,
        address: 0,
    }
}
