// The variables of one goal.
ghost use Rattle.std.specs.Prelude.{◌≡◌, ◌<◌, ◌+◌, ◌^◌, ℕ, List, [], ◌∷◌, ◌++◌, length, slice_index, IfOk, OnOk};
ghost use Rattle.std.specs.List.Sorted.{IsNonDecreasing};
ghost use Rattle.md_hlds.specs.HldsGoal.{expr_of};
ghost use Rattle.md_inst.specs.Instantiation.{times};
ghost use Rattle.md_modes.specs.Goals.{expr_variables};
ghost use Rattle.md_modes.specs.Views.{Rising};
ghost use Rattle.md_modes.specs.Tally.{IsLocal, IsNoLess, ends_with, last_count, count_last};

use crate::occurrences::variables_of;
use crate::tally::count_in;
use md_base::NoMemory;
use md_hlds::GoalKind;
use std::alloc::Global;

/// The variables that occur in a goal, each once and in rising order, and how often each occurs there.
#[derive(Drop)]
pub struct Local {
    pub places: Vec<u32>,
    pub counts: Vec<u64>,
}

impl Local {
    /// The variables of a goal of this kind. Takes time and memory near linear in the goal.
    pub fn new(alloc: Global, goal: &GoalKind) -> Result<Local, NoMemory>
        ensures { IfOk result (λ local. IsLocal local.places.items local.counts.items (expr_variables (expr_of goal.now))) }
    {
        let mut vars = variables_of(alloc, goal)?;
        vars.sort_unstable();
        Local::grouped(alloc, &vars)
    }

    /// The numbers of this list, which is in rising order.
    fn grouped(alloc: Global, vars: &[u32]) -> Result<Local, NoMemory>
        requires { IsNonDecreasing vars.now }
        ensures { IfOk result (λ local. IsLocal local.places.items local.counts.items vars.now) }
    {
        let mut local = Local {
            places: Vec::new(alloc),
            counts: Vec::new(alloc),
        };
        for place in vars {
            local.add(*place)?;
        }
        Ok(local)
    }

    /// One number more, none of those so far being greater.
    fn add(&mut self, place: u32) -> Result<(), NoMemory>
        requires { last_count self.now.counts.items + 1 < 2 ^ 64 }
        ensures { OnOk result ((vars : List ℕ) → IsLocal self.old.places.items self.old.counts.items vars → IsNoLess place vars
            → IsLocal self.new.places.items self.new.counts.items (vars ++ place ∷ [])) }
    {
        if ends_with(&self.places, place) {
            count_last(&mut self.counts);
            return Ok(());
        }
        self.places.push(place)?;
        self.counts.push(1)?;
        Ok(())
    }

    /// The number of a variable among those of the goal, from 0; past their end, where it isn't one of them.
    pub fn number_of(&self, place: u32) -> usize
        ensures found { Rising 0 self.now.places.items → (x : ℕ) → x < length self.now.places.items → slice_index self.now.places.items x ≡ place → result ≡ x }
        ensures there { Rising 0 self.now.places.items → result < length self.now.places.items → slice_index self.now.places.items result ≡ place }
    {
        match self.places.binary_search(&place) {
            Ok(number) => number,
            Err(_) => self.places.len(),
        }
    }

    /// How often a variable occurs in the goal.
    pub fn count_of(&self, place: u32) -> u64
        ensures { (vars : List ℕ) → IsLocal self.now.places.items self.now.counts.items vars → result ≡ times place vars }
    {
        match self.places.binary_search(&place) {
            Ok(number) => count_in(&self.counts, number),
            Err(_) => 0,
        }
    }
}

/// Whether this is the last number of a list.
fn ends_with(places: &[u32], place: u32) -> bool
    ensures { result ≡ ends_with place places.now }
{
    let end = places.len();
    end > 0 && places[end - 1] == place
}

/// Adds one to the last count.
fn count_last(counts: &mut Vec<u64>)
    requires { last_count counts.now.items + 1 < 2 ^ 64 }
    ensures { counts.new.items ≡ count_last counts.old.items }
{
    let end = counts.len();
    if end > 0 {
        counts[end - 1] += 1;
    }
}
