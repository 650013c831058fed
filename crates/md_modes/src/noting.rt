// The note of a goal, before and after what is within the goal is checked.
ghost use Rattle.std.specs.Prelude.{◌≡◌, ◌^◌, ℕ, List, cond, [], length, IfOk, OnOk};
ghost use Rattle.md_hlds.specs.Hlds.{hlds_of};
ghost use Rattle.md_hlds.specs.HldsGoal.{expr_of};
ghost use Rattle.md_inst.specs.Kinds.{inst_map_of};
ghost use Rattle.md_modes.specs.Branches.{outside, some_of};
ghost use Rattle.md_modes.specs.Classes.{class_told};
ghost use Rattle.md_modes.specs.Begun.{IsBegun};
ghost use Rattle.md_modes.specs.Notes.{role_of};
ghost use Rattle.md_modes.specs.Tally.{AreCounts, IsLocal};
ghost use Rattle.md_modes.specs.Views.{seen, picked, names_seen};
ghost use Rattle.md_names.specs.Named.{expr_name};
ghost use Rattle.md_reader.specs.Arguments.{HaveFewArguments};

use crate::class::Note;
use crate::finding::{Change, class_of};
use crate::nonlocals::View;
use crate::view::seen;
use md_base::NoMemory;
use md_hlds::GoalKind;
use md_inst::Inst;
use md_names::Names;
use std::alloc::Global;

/// Adds the note of a goal before what is within it is checked. It isn't inlined, so that the recursion over goals has no room
/// for a note at each level.
#[inline(never)]
pub fn add_note(
    alloc: Global,
    names: &Names<'_>,
    goal: &GoalKind,
    insts: &[Inst<'_>],
    notes: &mut Vec<Note>,
) -> Result<(), NoMemory>
    requires { HaveFewArguments (2 ^ 32) (hlds_of names.now).types }
    ensures { OnOk result (IsBegun (hlds_of names.now) (expr_of goal.now) (inst_map_of insts.now) notes.old.items notes.new.items) }
{
    let note = begin_note(alloc, names, goal, insts)?;
    notes.push(note)?;
    Ok(())
}

/// The note of a goal before what is within it is checked: what the goal does, and what its name stands for.
fn begin_note(
    alloc: Global,
    names: &Names<'_>,
    goal: &GoalKind,
    insts: &[Inst<'_>],
) -> Result<Note, NoMemory>
    requires { HaveFewArguments (2 ^ 32) (hlds_of names.now).types }
    ensures class { IfOk result (λ note. class_told note.class ≡ role_of (hlds_of names.now) (expr_of goal.now) (inst_map_of insts.now)) }
    ensures named { IfOk result (λ note. note.named ≡ expr_name (hlds_of names.now) (expr_of goal.now)) }
{
    let class = class_of(alloc, names, goal, insts)?;
    Ok(Note {
        class,
        named: names.in_goal(goal),
        size: 0,
        binds: Vec::new(alloc),
        binds_outside: false,
        names_io: false,
    })
}

/// Completes the note of a goal, which has so many goals, by what is known after it.
#[inline(never)]
pub fn end_note(
    alloc: Global,
    view: &View<'_, '_>,
    goal: &GoalKind,
    insts: &[Inst<'_>],
    reach: bool,
    size: usize,
    note: &mut Note,
) -> Result<(), NoMemory>
    requires { length view.now.before.now ≡ length view.now.outside.local.now.places.items }
    ensures class { OnOk result (note.new.class ≡ note.old.class) }
    ensures named { OnOk result (note.new.named ≡ note.old.named) }
    ensures size { OnOk result (note.new.size ≡ size) }
    ensures binds { OnOk result (note.new.binds.items ≡ cond reach (picked view.now.outside.local.now.places.items (inst_map_of view.now.before.now)
        (seen view.now.outside.local.now.places.items (inst_map_of insts.now))) []) }
    ensures outside { OnOk result ((all vars : List ℕ) → AreCounts view.now.outside.all.now all
        → IsLocal view.now.outside.local.now.places.items view.now.outside.local.now.counts.items vars
        → note.new.binds_outside ≡ some_of (outside all vars) note.new.binds.items) }
    ensures state { OnOk result (note.new.names_io ≡ names_seen (expr_of goal.now) (inst_map_of view.now.before.now)
        (seen view.now.outside.local.now.places.items (inst_map_of insts.now))) }
{
    let after = seen(alloc, &view.outside.local.places, insts)?;
    let change = Change {
        places: &view.outside.local.places,
        before: view.before,
        after: &after,
    };
    note.binds = change.binds(alloc, reach)?;
    note.binds_outside = view.outside.has_some(&note.binds);
    note.names_io = change.names_io(goal);
    note.size = size;
    Ok(())
}
