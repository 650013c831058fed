// The variables that occur outside a goal, and what a branch may bind.
ghost use Rattle.std.specs.Prelude.{◌≡◌, ℕ, List, slice_index, IfOk};
ghost use Rattle.md_modes.specs.Branches.{binds_some, some_of, outside};
ghost use Rattle.md_modes.specs.Tally.{AreCounts, IsLocal};
ghost use Rattle.md_modes.specs.Joins.{occurs};
ghost use Rattle.md_modes.specs.Views.{seen};
ghost use Rattle.md_inst.specs.Kinds.{inst_map_of};

use crate::local::Local;
use crate::tally::{count_at, count_in};
use crate::view::seen;
use md_base::NoMemory;
use md_inst::{Inst, inst_in};
use std::alloc::Global;

/// How often each variable occurs in a clause, and how often each variable of one of its goals occurs in that.
#[derive(Clone, Copy)]
pub struct Nonlocals<'b> {
    pub all: &'b [u64],
    pub local: &'b Local,
}

impl<'b> Nonlocals<'b> {
    /// Whether the variable of this number among those of the goal occurs outside it.
    pub fn has(self, number: usize) -> bool
        ensures { result ≡ occurs self.entry number }
    {
        count_in(&self.local.counts, number)
            < count_at(self.all, place_in(&self.local.places, number))
    }

    /// Whether one of these variables occurs outside.
    pub fn has_some(self, places: &[u32]) -> bool
        ensures { (all vars : List ℕ) → AreCounts self.entry.all.now all → IsLocal self.entry.local.now.places.items self.entry.local.now.counts.items vars
            → result ≡ some_of (outside all vars) places.now }
    {
        for place in places {
            if self.local.count_of(*place) < count_at(self.all, *place) {
                return true;
            }
        }
        false
    }
}

/// The variable of this number; past the end it is 0.
fn place_in(places: &[u32], number: usize) -> u32
    ensures { result ≡ slice_index places.now number }
{
    if number < places.len() {
        places[number]
    } else {
        0
    }
}

/// What is known of the variables of a goal before it, and which of them occur outside it.
#[derive(Clone, Copy)]
pub struct View<'a, 'b> {
    pub outside: Nonlocals<'b>,
    pub before: &'b [Inst<'a>],
}

/// Whether a variable that occurs outside is free before and bound by what is known now.
#[inline(never)]
pub fn binds_outside(
    alloc: Global,
    view: &View<'_, '_>,
    insts: &[Inst<'_>],
) -> Result<bool, NoMemory>
    ensures { IfOk result (λ binds. binds ≡ binds_some (occurs view.now.outside) (inst_map_of view.now.before.now)
        (seen view.now.outside.local.now.places.items (inst_map_of insts.now))) }
{
    let after = seen(alloc, &view.outside.local.places, insts)?;
    let binds = binds_some(view.outside, view.before, &after);
    Ok(binds)
}

/// Whether a variable that occurs outside is free before and bound after.
fn binds_some(outside: Nonlocals<'_>, before: &[Inst<'_>], after: &[Inst<'_>]) -> bool
    ensures { result ≡ binds_some (occurs outside.entry) (inst_map_of before.now) (inst_map_of after.now) }
{
    for number in 0..before.len() {
        if outside.has(number)
            && Inst::is_newly_bound(inst_in(before, number), inst_in(after, number))
        {
            return true;
        }
    }
    false
}
