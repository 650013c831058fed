// Goals laid out in text order, outer before inner.
ghost use Rattle.std.specs.Prelude.{◌≡◌, ◌+◌, suc, Some, None, IfOk, OnOk};
ghost use Rattle.md_hlds.specs.Hlds.{hlds_of, goal_at};
ghost use Rattle.md_hlds.specs.HldsGoal.{HldsGoal, expr_of, goal_of, goals_of, gathered, goal_size, goals_within, goals_below, goals_among};
ghost use Rattle.md_det.specs.Findings.{program_findings, switch_at};
ghost use Rattle.md_code.specs.Leaves.{leaves_table};
ghost use Rattle.md_code.specs.Tables.{heights_of};
ghost use Rattle.md_code.specs.Facts.{Stand};
ghost use Rattle.md_code.specs.Blocks as spec;
ghost use Rattle.md_code.specs.Details.{goal_details, inner_details, parts_details, arms_details};
ghost use Rattle.md_code.specs.Told.{place_told, trial_told};
ghost use Rattle.md_code.specs.Adds.{Adds, laid};

use crate::block::{add_block, parts_begin};
use crate::detail::detail_of;
use crate::number::{POP, plus, small, try_at};
use crate::output::Output;
use crate::place::{
    End, Entry, Place, Trial, branch_place, negated_place, other_after, places_of_test, some_place,
};
use crate::tables::Tables;
use md_base::NoMemory;
use md_hlds::{Goal, GoalKind};

/// Adds the code of a goal at a place, and of those within it.
#[cycle(layout)]
pub fn lay(tables: &Tables, output: &mut Output, goal: &Goal, at: Place) -> Result<(), NoMemory>
    ensures { OnOk result (Stand (hlds_of tables.now.source.checked.now) (laid output.old) (goals_within (goal_of goal.now))
        → Adds output.old output.new (spec.goal_code (hlds_of tables.now.source.checked.now) (laid output.old) (goal_of goal.now) (place_told at))
        (goal_details (hlds_of tables.now.source.checked.now) (laid output.old) (goal_of goal.now) (place_told at))) }
{
    let number = small(output.details.len())?;
    add_block(tables, &mut output.instructions, &goal.kind, number, at)?;
    output
        .details
        .push(detail_of(tables, &goal.kind, number, at)?)?;
    lay_inner(tables, output, &goal.kind, number, at)
}

/// Adds the code of the goals within the goal of this number at a place.
#[cycle(layout)]
fn lay_inner(
    tables: &Tables,
    output: &mut Output,
    kind: &GoalKind,
    number: u32,
    at: Place,
) -> Result<(), NoMemory>
    ensures { OnOk result (laid output.old ≡ suc number → Stand (hlds_of tables.now.source.checked.now) (laid output.old) (goals_below (expr_of kind.now))
        → Adds output.old output.new (spec.inner_code (hlds_of tables.now.source.checked.now) number (expr_of kind.now) (place_told at))
        (inner_details (hlds_of tables.now.source.checked.now) number (expr_of kind.now) (place_told at))) }
{
    match kind {
        GoalKind::Conj(goals) => {
            lay_conjunction(tables, output, goals.as_slice(), at, first_entry(at)?)
        }
        GoalKind::Disj(arms) => {
            lay_arms(
                tables,
                output,
                arms.as_slice(),
                number,
                at,
                first_entry(at)?,
            )
        }
        GoalKind::If(condition, then, otherwise) => {
            let places = places_of_test(tables, number, at)?;
            lay(tables, output, condition, places.condition)?;
            lay(tables, output, then, places.then)?;
            lay(tables, output, otherwise, places.otherwise)
        }
        GoalKind::Not(inner) => lay(tables, output, inner, negated_place(tables, number, at)?),
        GoalKind::Some(_, inner) => lay(tables, output, inner, some_place(tables, number, at)?),
        GoalKind::True
        | GoalKind::Fail
        | GoalKind::Unify(..)
        | GoalKind::Arith(..)
        | GoalKind::Compare(..)
        | GoalKind::WriteInt(..)
        | GoalKind::WriteStr(..)
        | GoalKind::Nl(..)
        | GoalKind::Call(..)
        | GoalKind::HoCall(..)
        | GoalKind::Error(_) => Ok(()),
    }
}

/// How the first part of a goal at a place is begun.
fn first_entry(at: Place) -> Result<Entry, NoMemory>
    ensures { IfOk result (λ entry. entry ≡ record { other = at.other; pending = suc at.pending; height = at.height }) }
{
    let pending = plus(at.pending, 1)?;
    Ok(Entry {
        other: at.other,
        pending,
        height: at.height,
    })
}

/// Adds the code of the parts of a conjunction at a place.
#[cycle(layout)]
fn lay_conjunction(
    tables: &Tables,
    output: &mut Output,
    goals: &[Goal],
    at: Place,
    first: Entry,
) -> Result<(), NoMemory>
    ensures { OnOk result (Stand (hlds_of tables.now.source.checked.now) (laid output.old) (goals_among (gathered (goals_of goals.now)))
        → Adds output.old output.new (spec.parts_code (hlds_of tables.now.source.checked.now) (laid output.old) (gathered (goals_of goals.now)) (place_told at) first.other first.pending first.height)
        (parts_details (hlds_of tables.now.source.checked.now) (laid output.old) (gathered (goals_of goals.now)) (place_told at) first.other first.pending first.height)) }
{
    let mut entry = first;
    for (place, goal) in goals.iter().enumerate() {
        let number = small(output.details.len())?;
        let part = conjunct_place(tables, number, &goals[place + 1..], at, entry)?;
        lay(tables, output, goal, part)?;
        entry = entry_behind(tables, number, entry)?;
    }
    Ok(())
}

/// The part of this number of a conjunction at a place, behind which stand these others.
fn conjunct_place(
    tables: &Tables,
    number: u32,
    others: &[Goal],
    at: Place,
    entry: Entry,
) -> Result<Place, NoMemory>
    ensures { IfOk result (λ place. (g : HldsGoal) → goal_at (hlds_of tables.now.source.checked.now) number ≡ Some g
        → place_told place ≡ spec.conjunct_place (hlds_of tables.now.source.checked.now) number g (gathered (goals_of others.now)) (place_told at) entry.other entry.pending entry.height) }
{
    let next = parts_begin(tables.after(number)?, others, at.next)?;
    Ok(at.part(next, entry, End::Along, Trial::NoArm))
}

/// How it goes on behind the part of this number of a conjunction.
fn entry_behind(tables: &Tables, number: u32, entry: Entry) -> Result<Entry, NoMemory>
    ensures { IfOk result (λ behind. (g : HldsGoal) → goal_at (hlds_of tables.now.source.checked.now) number ≡ Some g
        → behind ≡ record { other = spec.other_after entry.other (leaves_table (hlds_of tables.now.source.checked.now) number); pending = spec.pending_after (hlds_of tables.now.source.checked.now) number entry.pending g; height = entry.height + heights_of (hlds_of tables.now.source.checked.now) number g }) }
{
    let fact = tables.fact(number);
    let pending = fact.change.pending_behind(entry.pending)?;
    let height = plus(entry.height, fact.heights)?;
    Ok(Entry {
        other: other_after(entry.other, tables.leaves(number)),
        pending,
        height,
    })
}

/// Adds the code of the arms of the disjunction of this number at a place.
#[cycle(layout)]
fn lay_arms(
    tables: &Tables,
    output: &mut Output,
    arms: &[Goal],
    number: u32,
    at: Place,
    first: Entry,
) -> Result<(), NoMemory>
    ensures { OnOk result (Stand (hlds_of tables.now.source.checked.now) (laid output.old) (goals_among (gathered (goals_of arms.now)))
        → Adds output.old output.new (spec.arms_code (hlds_of tables.now.source.checked.now) number (laid output.old) (gathered (goals_of arms.now)) (place_told at) (switch_at (program_findings (hlds_of tables.now.source.checked.now)) number) first.pending first.height)
        (arms_details (hlds_of tables.now.source.checked.now) number (laid output.old) (gathered (goals_of arms.now)) (place_told at) (switch_at (program_findings (hlds_of tables.now.source.checked.now)) number) first.pending first.height)) }
{
    let mut entry = first;
    for (place, arm) in arms.iter().enumerate() {
        let part = small(output.details.len())?;
        let standing = arm_place(tables, number, part, &arms[place + 1..], at, entry)?;
        lay(tables, output, arm, standing)?;
        entry = arm_entry(tables, number, part, entry)?;
    }
    Ok(())
}

/// The arm of a number of its own of the disjunction of this number, behind which stand these others.
fn arm_place(
    tables: &Tables,
    number: u32,
    part: u32,
    others: &[Goal],
    at: Place,
    entry: Entry,
) -> Result<Place, NoMemory>
    ensures { IfOk result (λ place. (g : HldsGoal) → goal_at (hlds_of tables.now.source.checked.now) part ≡ Some g
        → place_told place ≡ spec.arm_place (hlds_of tables.now.source.checked.now) number part (part + goal_size g) (gathered (goals_of others.now)) (place_told at) (switch_at (program_findings (hlds_of tables.now.source.checked.now)) number) entry.pending entry.height) }
{
    match tables.source.checked.switch(number) {
        None => tried_place(tables, number, part, others, at, entry),
        Some(_) => {
            let other = at.other;
            branch_place(
                tables,
                number,
                part,
                at,
                Entry { other, ..entry },
                Trial::NoArm,
            )
        }
    }
}

/// The arm of a number of its own of the disjunction of this number, which is no switch.
fn tried_place(
    tables: &Tables,
    number: u32,
    part: u32,
    others: &[Goal],
    at: Place,
    entry: Entry,
) -> Result<Place, NoMemory>
    ensures { IfOk result (λ place. (g : HldsGoal) → goal_at (hlds_of tables.now.source.checked.now) part ≡ Some g
        → place_told place ≡ spec.arm_place (hlds_of tables.now.source.checked.now) number part (part + goal_size g) (gathered (goals_of others.now)) (place_told at) None entry.pending entry.height) }
{
    let after = tables.after(part)?;
    let trial = arm_trial(after, others)?;
    let other = arm_other(others, at.other);
    branch_place(tables, number, part, at, Entry { other, ..entry }, trial)
}

/// Where an arm fails to behind which stand these others.
fn arm_other(others: &[Goal], other: u32) -> u32
    ensures { result ≡ spec.arm_other (gathered (goals_of others.now)) other }
{
    if others.is_empty() {
        return other;
    }
    POP
}

/// How an arm is tried behind which stand these others, the first of this number.
fn arm_trial(number: u32, others: &[Goal]) -> Result<Trial, NoMemory>
    ensures { IfOk result (λ trial. trial_told trial ≡ spec.arm_trial number (gathered (goals_of others.now))) }
{
    if others.is_empty() {
        return Ok(Trial::LastArm);
    }
    let other = try_at(number)?;
    Ok(Trial::ArmBefore { other })
}

/// How the next arm is begun behind that of a number of its own.
fn arm_entry(tables: &Tables, number: u32, part: u32, entry: Entry) -> Result<Entry, NoMemory>
    ensures { IfOk result (λ behind. (g : HldsGoal) → goal_at (hlds_of tables.now.source.checked.now) part ≡ Some g
        → behind ≡ record { other = entry.other; pending = spec.pending_behind (switch_at (program_findings (hlds_of tables.now.source.checked.now)) number) entry.pending; height = entry.height + heights_of (hlds_of tables.now.source.checked.now) part g }) }
{
    let height = plus(entry.height, tables.fact(part).heights)?;
    let pending = match tables.source.checked.switch(number) {
        None => 0,
        Some(_) => entry.pending,
    };
    Ok(Entry {
        other: entry.other,
        pending,
        height,
    })
}
