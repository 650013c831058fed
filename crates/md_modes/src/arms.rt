// The arms of a branch, one after the other.
ghost use Rattle.std.specs.Prelude.{◌≡◌, ℕ, Bool, List, [], ◌∷◌, ◌++◌, Some, None, IfOk, OnOk};
ghost use Rattle.md_inst.specs.Instantiation.{InstMap};
ghost use Rattle.md_modes.specs.Branches.{After, after};
ghost use Rattle.md_modes.specs.Branches as spec;
ghost use Rattle.md_inst.specs.Kinds.{inst_map_of};
ghost use Rattle.md_modes.specs.Views as views;
ghost use Rattle.md_modes.specs.Joins.{IsJoin, Ends, IsArm, IsEnd, ReachesExactly, end_of, occurs};

use crate::end::End;
use crate::joined::Joined;
use crate::nonlocals::View;
use crate::start::Start;
use crate::view::{put_all, seen};
use md_base::NoMemory;
use md_inst::{Inst, ModeFault};
use std::alloc::Global;

/// The variables of an arm of a branch, and what was known of them before the branch.
#[derive(Clone, Copy)]
pub struct Own<'a, 'b> {
    pub places: &'b [u32],
    pub before: &'b [Inst<'a>],
}

/// An arm of a branch that was checked: its variables with what was known of them before it, and whether the place after it
/// is reachable.
#[derive(Drop)]
pub struct Arm<'a> {
    pub start: Box<Start<'a>>,
    pub reach: bool,
}

/// No arms so far. What arms have in common is boxed, and made and let go of in functions that aren't inlined, so that the
/// recursion over goals has no room for it at each level.
#[inline(never)]
pub fn no_arms<'a>(alloc: Global) -> Result<Box<Option<Joined<'a>>>, NoMemory>
    ensures { IfOk result (λ joined. joined.value ≡ None) }
{
    Ok(Box::new(alloc, None)?)
}

/// Lets go of what arms have in common.
#[inline(never)]
pub fn let_go(joined: Box<Option<Joined<'_>>>) {
    drop(joined);
}

/// One arm more, and what the arms so far whose ends are reachable have in common. Afterwards what is known of the arm's
/// variables is what was known before the branch.
fn add_arm<'a>(
    alloc: Global,
    view: &View<'a, '_>,
    own: Own<'a, '_>,
    joined: &mut Option<Joined<'a>>,
    insts: &mut Vec<Inst<'a>>,
    reach: bool,
) -> Result<(), NoMemory>
    ensures insts { OnOk result (inst_map_of insts.new.items
        ≡ views.put_all own.entry.places.now (inst_map_of own.entry.before.now) (inst_map_of insts.old.items)) }
    ensures ends { OnOk result ((s : InstMap) → (ends : List After) → IsArm view.now own.entry.places.now s (inst_map_of insts.old.items)
        → Ends (occurs view.now.outside) (inst_map_of view.now.before.now) joined.old ends
        → Ends (occurs view.now.outside) (inst_map_of view.now.before.now) joined.new
        (ends ++ after (views.seen view.now.outside.local.now.places.items (inst_map_of insts.old.items)) reach ∷ [])) }
{
    let more = with_arm(alloc, *view, own, joined.take(), insts, reach)?;
    *joined = more;
    Ok(())
}

/// What the arms so far and one arm more have in common.
fn with_arm<'a>(
    alloc: Global,
    view: View<'a, '_>,
    own: Own<'a, '_>,
    joined: Option<Joined<'a>>,
    insts: &mut Vec<Inst<'a>>,
    reach: bool,
) -> Result<Option<Joined<'a>>, NoMemory>
    ensures insts { OnOk result (inst_map_of insts.new.items
        ≡ views.put_all own.entry.places.now (inst_map_of own.entry.before.now) (inst_map_of insts.old.items)) }
    ensures ends { IfOk result (λ more. (s : InstMap) → (ends : List After) → IsArm view.entry own.entry.places.now s (inst_map_of insts.old.items)
        → Ends (occurs view.entry.outside) (inst_map_of view.entry.before.now) joined.entry ends
        → Ends (occurs view.entry.outside) (inst_map_of view.entry.before.now) more
        (ends ++ after (views.seen view.entry.outside.local.now.places.items (inst_map_of insts.old.items)) reach ∷ [])) }
{
    if !reach {
        put_all(insts, own.places, own.before);
        return Ok(joined);
    }
    let end = End {
        view,
        own: own.places,
        insts,
    };
    let more = one_more(alloc, end, joined)?;
    put_all(insts, own.places, own.before);
    Ok(Some(more))
}

/// The same of an arm whose variables are taken to be all of the branch.
#[inline(never)]
pub fn add_part<'a>(
    alloc: Global,
    view: &View<'a, '_>,
    joined: &mut Option<Joined<'a>>,
    insts: &mut Vec<Inst<'a>>,
    reach: bool,
) -> Result<(), NoMemory>
    ensures insts { OnOk result (inst_map_of insts.new.items
        ≡ views.put_all view.now.outside.local.now.places.items (inst_map_of view.now.before.now) (inst_map_of insts.old.items)) }
    ensures ends { OnOk result ((s : InstMap) → (ends : List After) → IsArm view.now view.now.outside.local.now.places.items s (inst_map_of insts.old.items)
        → Ends (occurs view.now.outside) (inst_map_of view.now.before.now) joined.old ends
        → Ends (occurs view.now.outside) (inst_map_of view.now.before.now) joined.new
        (ends ++ after (views.seen view.now.outside.local.now.places.items (inst_map_of insts.old.items)) reach ∷ [])) }
{
    let own = Own {
        places: &view.outside.local.places,
        before: view.before,
    };
    add_arm(alloc, view, own, joined, insts, reach)
}

/// The same of an arm that was checked and is done with.
#[inline(never)]
pub fn add_checked<'a>(
    alloc: Global,
    view: &View<'a, '_>,
    arm: Arm<'a>,
    joined: &mut Option<Joined<'a>>,
    insts: &mut Vec<Inst<'a>>,
) -> Result<(), NoMemory>
    ensures insts { OnOk result (inst_map_of insts.new.items
        ≡ views.put_all arm.entry.start.value.local.places.items (inst_map_of arm.entry.start.value.before.items) (inst_map_of insts.old.items)) }
    ensures ends { OnOk result ((s : InstMap) → (ends : List After) → IsArm view.now arm.entry.start.value.local.places.items s (inst_map_of insts.old.items)
        → Ends (occurs view.now.outside) (inst_map_of view.now.before.now) joined.old ends
        → Ends (occurs view.now.outside) (inst_map_of view.now.before.now) joined.new
        (ends ++ after (views.seen view.now.outside.local.now.places.items (inst_map_of insts.old.items)) arm.entry.reach ∷ [])) }
{
    let own = Own {
        places: &arm.start.local.places,
        before: &arm.start.before,
    };
    let added = add_arm(alloc, view, own, joined, insts, arm.reach);
    drop(arm);
    added
}

/// One arm more whose end is reachable.
fn one_more<'a>(
    alloc: Global,
    end: End<'a, '_>,
    joined: Option<Joined<'a>>,
) -> Result<Joined<'a>, NoMemory>
    ensures { IfOk result (λ more. (s : InstMap) → (rs : List InstMap) → IsEnd end.entry s
        → IsJoin (occurs end.entry.view.outside) (inst_map_of end.entry.view.before.now) joined.entry rs
        → IsJoin (occurs end.entry.view.outside) (inst_map_of end.entry.view.before.now) (Some more) (rs ++ end_of end.entry ∷ [])) }
{
    match joined {
        None => {
            let insts = seen(alloc, &end.view.outside.local.places, end.insts)?;
            Joined::new(alloc, end.view.before, insts)
        }
        Some(mut joined) => {
            joined.add(alloc, end)?;
            Ok(joined)
        }
    }
}

/// What is known after a branch with these arms, and whether the place after it is reachable.
#[inline(never)]
pub fn end_arms<'a>(
    view: &View<'a, '_>,
    joined: &mut Option<Joined<'a>>,
    insts: &mut Vec<Inst<'a>>,
    line: u32,
) -> Result<bool, ModeFault>
    ensures { (p : ℕ → Bool) → (ends : List After) → Ends p (inst_map_of view.now.before.now) joined.old ends
        → inst_map_of view.now.before.now ≡ views.seen view.now.outside.local.now.places.items (inst_map_of insts.old.items)
        → ReachesExactly result (inst_map_of insts.new.items)
        (views.put_verdict view.now.outside.local.now.places.items (inst_map_of insts.old.items) (spec.joined line p (inst_map_of view.now.before.now) ends)) }
{
    match joined.take() {
        None => Ok(false),
        Some(joined) => {
            let end = joined.end(view.before, line)?;
            put_all(insts, &view.outside.local.places, &end);
            Ok(true)
        }
    }
}
