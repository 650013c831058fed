// How often each goal of a procedure had a turn.
ghost use Rattle.std.specs.Prelude.{◌≡◌, ℕ, ◌+◌, ◌<◌, ◌^◌, Some, None, IfOk, IsErrOf, true, false, map, slice_get};
ghost use Rattle.std.specs.List.{list_any};
ghost use Rattle.md_hlds.specs.Hlds.{hlds_of, Procedure, body_number};
ghost use Rattle.md_hlds.specs.HldsGoal.{goal_of, goal_size};
ghost use Rattle.md_det.specs.Findings.{program_findings};
ghost use Rattle.md_cost.specs.FileView.{IsFileView};
ghost use Rattle.md_cost.specs.View.{View};
ghost use Rattle.md_cover.specs.Told.{view_counts};
ghost use Rattle.md_cover.specs.Known.{table_of};
ghost use Rattle.md_cover.specs.Solved.{body_equations, IsSolved, with_turns, HaveFewExits};
ghost use Rattle.md_cover.specs.Coverage.{has_full_count, gives_turns, HasNoTurns, IsCountedIn, IsCoverageOf};

use crate::bodies::body_number;
use crate::building::add_body;
use crate::rows::add_rows;
use crate::solving::Known;
use crate::{CoverFault, Coverage, GoalCount};
use md_base::{Counts, NoMemory, ProcId};
use md_cost::Loaded;
use md_det::Checked;
use md_dynamic::{LinkRow, Profile};
use md_hlds::Goal;
use std::alloc::Global;

/// The goals of a procedure of an accepted program, in text order, outer before inner, each with how often it had a turn in
/// the run that left this profile, where the profile's counts of ports give that number: exactly where the goal's entries
/// are derived from the equations of the procedure. Where the run hasn't finished, or a count of a link stands at its end,
/// no goal has a number. The profile has the procedures and the call sites of the program under the same numbers.
///
/// Takes memory linear in the procedure's goals, and time linear in the clauses before the procedure's, in the links of the
/// profile and, for each round of solving, in the procedure's goals. Rounds go forward and back in the text in turn, until
/// nothing changes: ordinary procedures take a few.
///
/// # Errors
///
/// `NoSuchProc` exactly where the program has no procedure of this number. `NoMemory` only where memory was refused.
pub fn cover(
    alloc: Global,
    checked: &Checked,
    loaded: &Loaded,
    id: ProcId,
) -> Result<Coverage, CoverFault>
    ensures found { IfOk result (λ c. (q : Procedure) × (slice_get (hlds_of checked.now).procedures id ≡ Some q)) }
    ensures no_such_procedure { IsErrOf result CoverFault.NoSuchProc → slice_get (hlds_of checked.now).procedures id ≡ None }
    ensures missing { slice_get (hlds_of checked.now).procedures id ≡ None → IsErrOf result CoverFault.NoSuchProc }
    ensures plain { (q : ℕ × Procedure) → q.0 ≡ id → slice_get (hlds_of checked.now).procedures q.0 ≡ Some q.1 → gives_turns loaded.now.profile ≡ false
        → IfOk result (λ c. HasNoTurns q c) }
    ensures coverage { (budget : ℕ) (q : ℕ × Procedure) → q.0 ≡ id → slice_get (hlds_of checked.now).procedures q.0 ≡ Some q.1
        → IsCountedIn (hlds_of checked.now) budget loaded.now.profile
        → IfOk result (λ c. IsCoverageOf (hlds_of checked.now) budget loaded.now.profile q c) }
{
    let Some(pred) = checked.program().pred(id) else {
        return Err(CoverFault::NoSuchProc);
    };
    let mut goals = Vec::new(alloc);
    add_rows(&mut goals, &pred.body, 0)?;
    if !gives_turns(loaded.profile()) {
        return Ok(Coverage::from_parts(id, goals));
    }
    let known = solved(alloc, checked, loaded, id, &pred.body, goals.len())?;
    tell(&mut goals, &known);
    Ok(Coverage::from_parts(id, goals))
}

/// Whether the run has finished and each count of a link is whole.
fn gives_turns(profile: &Profile) -> bool
    ensures gives { result ≡ gives_turns profile.now }
    ensures few { result ≡ true → HaveFewExits profile.now.links }
{
    profile.finished() && !has_full_link(profile.links())
}

/// Whether a count of a link stands at its end.
fn has_full_link(links: &[LinkRow]) -> bool
    ensures full { result ≡ list_any (λ r. has_full_count r.own) links.now }
    ensures few { result ≡ false → HaveFewExits links.now }
{
    for link in links {
        if has_full_count(link.own) {
            return true;
        }
    }
    false
}

/// Whether one of seven counts stands at its end.
fn has_full_count(counts: Counts) -> bool
    ensures full { result ≡ has_full_count counts }
    ensures few { counts.exits < 2 ^ 32 }
{
    counts.calls == u32::MAX
        || counts.exits == u32::MAX
        || counts.fails == u32::MAX
        || counts.redos == u32::MAX
        || counts.allocs == u32::MAX
        || counts.words == u32::MAX
        || counts.excps == u32::MAX
}

/// What the profile settles of the goals of a procedure with this body, which are so many.
fn solved(
    alloc: Global,
    checked: &Checked,
    loaded: &Loaded,
    id: ProcId,
    body: &Goal,
    count: usize,
) -> Result<Known, NoMemory>
    requires few { body_number (hlds_of checked.now) id + goal_size (goal_of body.now) < 4294967295 }
    ensures { (v : View) → IsFileView loaded.now.profile v → IfOk result (λ known.
        IsSolved (body_equations (program_findings (hlds_of checked.now)) (view_counts v) (body_number (hlds_of checked.now) id) id (goal_of body.now))
        (body_number (hlds_of checked.now) id) count (table_of known)) }
{
    let first = body_number(checked.moded(), id);
    let mut equations = Vec::new(alloc);
    add_body(checked, loaded, &mut equations, id, body, first)?;
    let mut known = Known::nothing(alloc, first, count)?;
    known.solve(equations.as_slice());
    Ok(known)
}

/// Puts what is known into the rows of goals.
fn tell(goals: &mut Vec<GoalCount>, known: &Known)
    ensures { goals.new.items ≡ map (with_turns known.now.entries.items) goals.old.items }
{
    for place in 0..goals.len() {
        goals[place].turns = known.turns(goals[place].place);
    }
}
