// The end of an arm of a branch.
ghost use Rattle.std.specs.Prelude.{◌≡◌, ◌≢◌, ◌<◌, ℕ, true, length, slice_index};
ghost use Rattle.md_inst.specs.Instantiation.{known_at, times};
ghost use Rattle.md_inst.specs.Kinds.{instantiation_of, inst_map_of};
ghost use Rattle.md_modes.specs.Branches.{some_of};
ghost use Rattle.md_modes.specs.Joins.{end_of, occurs};
ghost use Rattle.md_modes.specs.Shares.{numbers, lost, gained};
ghost use Rattle.md_modes.specs.Views.{Rising};

use crate::joined::Shared;
use crate::nonlocals::View;
use md_inst::{Inst, inst_at, inst_in};

/// What is known at the end of an arm, which has these variables, of a branch.
#[derive(Clone, Copy)]
pub struct End<'a, 'b> {
    pub view: View<'a, 'b>,
    pub own: &'b [u32],
    pub insts: &'b [Inst<'a>],
}

impl<'a, 'b> End<'a, 'b> {
    /// What is known of the variable of this number among those of the branch; past the end it isn't bound.
    pub fn inst(self, number: usize) -> Inst<'a>
        ensures { instantiation_of result ≡ known_at (end_of self.entry) number }
    {
        let places = self.view.outside.local.places.as_slice();
        if number < places.len() {
            inst_at(self.insts, places[number])
        } else {
            Inst::Free
        }
    }

    /// Whether a variable that occurs outside is free before, and bound by all arms so far, but not by this one.
    pub fn loses(self, common: &[Inst<'a>], shared: &[Shared]) -> bool
        ensures { result ≡ some_of (lost (occurs self.entry.view.outside) (inst_map_of self.entry.view.before.now) (inst_map_of common.now) (end_of self.entry)) (numbers shared.now) }
    {
        for variable in shared {
            if self.is_lost(common, variable.number) {
                return true;
            }
        }
        false
    }

    fn is_lost(self, common: &[Inst<'a>], number: usize) -> bool
        ensures { result ≡ lost (occurs self.entry.view.outside) (inst_map_of self.entry.view.before.now) (inst_map_of common.now) (end_of self.entry) number }
    {
        self.view.outside.has(number)
            && !inst_in(self.view.before, number).is_bound()
            && inst_in(common, number).is_bound()
            && !self.inst(number).is_bound()
    }

    /// Whether a variable that occurs outside is free before, and bound by this arm, but not by the first.
    pub fn gains(self, first: &[Inst<'a>]) -> bool
        ensures sound { result ≡ true → (x : ℕ) × (x < length self.entry.view.outside.local.now.places.items)
            × (gained (occurs self.entry.view.outside) (inst_map_of self.entry.view.before.now) (inst_map_of first.now) (end_of self.entry) x ≡ true) }
        ensures complete { Rising 0 self.entry.view.outside.local.now.places.items → (x : ℕ) → x < length self.entry.view.outside.local.now.places.items
            → times (slice_index self.entry.view.outside.local.now.places.items x) self.entry.own.now ≢ 0
            → gained (occurs self.entry.view.outside) (inst_map_of self.entry.view.before.now) (inst_map_of first.now) (end_of self.entry) x ≡ true
            → result ≡ true }
    {
        for place in self.own {
            let number = self.view.outside.local.number_of(*place);
            if self.is_gained(first, number) {
                return true;
            }
        }
        false
    }

    fn is_gained(self, first: &[Inst<'a>], number: usize) -> bool
        ensures { result ≡ gained (occurs self.entry.view.outside) (inst_map_of self.entry.view.before.now) (inst_map_of first.now) (end_of self.entry) number }
    {
        self.view.outside.has(number)
            && !inst_in(self.view.before, number).is_bound()
            && !inst_in(first, number).is_bound()
            && self.inst(number).is_bound()
    }
}
