// What several arms of a branch have in common.
ghost use Rattle.std.specs.Prelude.{◌≡◌, ◌<◌, ℕ, Bool, List, [], ◌∷◌, ◌++◌, ◌||◌, length, IfOk, OnOk};
ghost use Rattle.md_inst.specs.Instantiation.{InstMap, put};
ghost use Rattle.md_modes.specs.Branches.{joined_ends};
ghost use Rattle.md_inst.specs.Kinds.{instantiation_of, inst_map_of};
ghost use Rattle.md_modes.specs.Joins.{Joins, IsJoined, IsEnd, IsSettled, end_of, occurs};
ghost use Rattle.md_modes.specs.Shares as spec;
ghost use Rattle.md_modes.specs.Views.{Rising};

use crate::end::End;
use md_base::NoMemory;
use md_inst::{Inst, ModeFault, inst_in};
use std::alloc::Global;

/// A variable that all arms so far bind, by its number among those of the branch.
#[derive(Clone, Copy)]
pub struct Shared {
    pub number: usize,
    /// Whether some arm binds it with another type than the first.
    pub unlike: bool,
}

/// Arms whose ends are reachable.
#[derive(Drop)]
pub struct Joined<'a> {
    /// What is known at the end of the first.
    pub first: Vec<Inst<'a>>,
    /// What all have in common.
    pub common: Vec<Inst<'a>>,
    /// The variables at which an arm that leaves them alone changes what all have in common: those that were free before
    /// the branch, and that all bind.
    pub shared: Vec<Shared>,
    /// Whether an arm binds a variable that occurs outside the branch and the first doesn't, or the other way round.
    pub differ: bool,
}

impl<'a> Joined<'a> {
    /// One arm, which began with what was known before the branch, and at the end of which this is known.
    pub fn new(
        alloc: Global,
        before: &[Inst<'a>],
        insts: Vec<Inst<'a>>,
    ) -> Result<Joined<'a>, NoMemory>
        ensures { IfOk result (λ joined. (p : ℕ → Bool) → length (inst_map_of insts.entry.items) ≡ length (inst_map_of before.now)
            → Joins p (inst_map_of before.now) joined (inst_map_of insts.entry.items) []) }
    {
        Ok(Joined {
            common: Vec::from_slice(alloc, &insts)?,
            shared: begun(alloc, before, &insts)?,
            first: insts,
            differ: false,
        })
    }

    /// One arm more. Takes time for the variables of the arm, and for those that were free and that all arms so far bind.
    pub fn add(&mut self, alloc: Global, end: End<'a, '_>) -> Result<(), NoMemory>
        ensures { OnOk result ((s r : InstMap) → (qs : List InstMap) → IsEnd end.entry s
            → Joins (occurs end.entry.view.outside) (inst_map_of end.entry.view.before.now) self.old r qs
            → Joins (occurs end.entry.view.outside) (inst_map_of end.entry.view.before.now) self.new r (qs ++ end_of end.entry ∷ [])) }
    {
        let gains = end.gains(&self.first);
        let loses = end.loses(&self.common, &self.shared);
        self.differ = either(self.differ, either(gains, loses));
        self.shared = keep(alloc, &self.first, &mut self.common, &self.shared, end)?;
        settle(&mut self.common, end);
        Ok(())
    }

    /// What is known after the arms, which began with what was known before.
    pub fn end(self, before: &[Inst<'a>], line: u32) -> Result<Vec<Inst<'a>>, ModeFault>
        ensures { (p : ℕ → Bool) → (r : InstMap) → (qs : List InstMap) → Joins p (inst_map_of before.now) self.entry r qs
            → IsJoined result (joined_ends line p (inst_map_of before.now) (r ∷ qs)) }
    {
        if self.differ {
            return Err(ModeFault::BranchBinds(line));
        }
        if clashes(before, &self.common, &self.shared) {
            return Err(ModeFault::TypeClash(line));
        }
        Ok(self.common)
    }
}

fn either(first: bool, second: bool) -> bool
    ensures { result ≡ (first || second) }
{
    first || second
}

/// Whether an arm that leaves a variable alone changes what the others have in common at it.
fn is_unsettled(before: Inst<'_>, common: Inst<'_>) -> bool
    ensures { result ≡ spec.unsettled (instantiation_of before.entry) (instantiation_of common.entry) }
{
    match common {
        Inst::Free => false,
        Inst::Bound(_, used) => match before {
            Inst::Free => true,
            Inst::Bound(_, spent) => spent && !used,
        },
    }
}

/// The variables that the first arm binds and that need a look at each other arm.
fn begun(alloc: Global, before: &[Inst<'_>], insts: &[Inst<'_>]) -> Result<Vec<Shared>, NoMemory>
    ensures { IfOk result (λ shared. shared.items ≡ spec.begun 0 (inst_map_of before.now) (inst_map_of insts.now)) }
{
    let mut shared = Vec::new(alloc);
    for number in 0..insts.len() {
        if is_unsettled(inst_in(before, number), inst_in(insts, number)) {
            shared.push(Shared {
                number,
                unlike: false,
            })?;
        }
    }
    Ok(shared)
}

/// Keeps of what the arms so far have in common what one arm more has too, and gives the variables that it binds too.
fn keep<'a>(
    alloc: Global,
    first: &[Inst<'a>],
    common: &mut Vec<Inst<'a>>,
    shared: &[Shared],
    end: End<'a, '_>,
) -> Result<Vec<Shared>, NoMemory>
    ensures common { OnOk result (inst_map_of common.new.items ≡ spec.commons (inst_map_of common.old.items) (end_of end.entry) shared.now) }
    ensures kept { IfOk result (λ kept. kept.items ≡ spec.kept (inst_map_of first.now) (inst_map_of common.old.items) (end_of end.entry) shared.now) }
{
    let mut kept = Vec::new(alloc);
    for variable in shared {
        let number = variable.number;
        let last = end.inst(number);
        let inst = inst_in(common, number).common(last);
        set_inst_in(common, number, inst);
        if inst.is_bound() {
            let is_unlike = !inst_in(first, number).is_alike(last);
            kept.push(Shared {
                number,
                unlike: either(variable.unlike, is_unlike),
            })?;
        }
    }
    Ok(kept)
}

/// Keeps of what the arms so far have in common at the variables of one arm more what that arm has too.
fn settle<'a>(common: &mut Vec<Inst<'a>>, end: End<'a, '_>)
    ensures size { length (inst_map_of common.new.items) ≡ length (inst_map_of common.old.items) }
    ensures settled { Rising 0 end.entry.view.outside.local.now.places.items → length (inst_map_of common.old.items) ≡ length end.entry.view.outside.local.now.places.items
        → (x : ℕ) → x < length end.entry.view.outside.local.now.places.items
        → IsSettled end.entry (inst_map_of common.old.items) (inst_map_of common.new.items) end.entry.own.now x }
{
    for place in end.own {
        let number = end.view.outside.local.number_of(*place);
        let inst = inst_in(common, number).common(end.inst(number));
        set_inst_in(common, number, inst);
    }
}

/// Sets what is known of the variable of a number; past the end it does nothing.
fn set_inst_in<'a>(insts: &mut Vec<Inst<'a>>, number: usize, inst: Inst<'a>)
    ensures { inst_map_of insts.new.items ≡ put (inst_map_of insts.old.items) number (instantiation_of inst.entry) }
{
    if number < insts.len() {
        insts[number] = inst;
    }
}

/// Whether a variable is free before, and all arms bind it, but not with one type.
fn clashes(before: &[Inst<'_>], common: &[Inst<'_>], shared: &[Shared]) -> bool
    ensures { result ≡ spec.some_clash (inst_map_of before.now) (inst_map_of common.now) shared.now }
{
    for variable in shared {
        let number = variable.number;
        if Inst::is_newly_bound(inst_in(before, number), inst_in(common, number))
            && variable.unlike
        {
            return true;
        }
    }
    false
}
