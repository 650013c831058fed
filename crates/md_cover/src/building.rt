// The equations of a goal and of the goals within it.
ghost use Rattle.std.specs.Prelude.{◌≡◌, ◌<◌, ◌++◌, ◌+◌, ◌∷◌, [], suc, IfOk, OnOk, Some, map};
ghost use Rattle.md_hlds.specs.Hlds.{hlds_of};
ghost use Rattle.md_hlds.specs.HldsGoal.{NotGoal, goal_of, goals_of, gathered, expr_of, goal_size, parts_size, goals_size};
ghost use Rattle.md_det.specs.Findings.{program_findings, switch_at, pair_at};
ghost use Rattle.md_cost.specs.FileView.{IsFileView};
ghost use Rattle.md_cost.specs.View.{View};
ghost use Rattle.law_turns.specs.Equations as spec;
ghost use Rattle.md_cover.specs.Told.{quantity_of, quantities_of, equations_of, view_counts, is_whole, chosen};
ghost use Rattle.md_cover.specs.Solved.{body_equations};

use crate::counts::{counts_of_proc, counts_of_site};
use crate::equation::{Equation, Quantity, add_both, add_count, add_equal, add_sum};
use md_base::{NoMemory, ProcId, SiteId};
use md_cost::Loaded;
use md_det::{Checked, Switch};
use md_hlds::{Goal, GoalKind};

/// Adds the equations of a procedure, whose body has this number.
pub(crate) fn add_body(
    checked: &Checked,
    loaded: &Loaded,
    equations: &mut Vec<Equation>,
    id: ProcId,
    body: &Goal,
    number: u32,
) -> Result<(), NoMemory>
    requires few { number + goal_size (goal_of body.now) < 4294967295 }
    ensures { (v : View) → IsFileView loaded.now.profile v → OnOk result (equations_of equations.new.items
        ≡ equations_of equations.old.items ++ body_equations (program_findings (hlds_of checked.now)) (view_counts v) number id (goal_of body.now)) }
{
    let counts = counts_of_proc(loaded, id);
    add_count(equations, Quantity::Entries(number), counts.calls)?;
    add_count(equations, Quantity::Exits(number), counts.exits)?;
    add_goal(checked, loaded, equations, body, number)?;
    Ok(())
}

/// Adds the equations of the goal of this number, and of those within it; gives the number that comes after them.
#[cycle(building)]
pub(crate) fn add_goal(
    checked: &Checked,
    loaded: &Loaded,
    equations: &mut Vec<Equation>,
    goal: &Goal,
    number: u32,
) -> Result<u32, NoMemory>
    requires few { number + goal_size (goal_of goal.now) < 4294967295 }
    ensures next { IfOk result (λ next. next ≡ number + goal_size (goal_of goal.now)) }
    ensures equations { (v : View) → IsFileView loaded.now.profile v → IfOk result (λ next. equations_of equations.new.items
        ≡ equations_of equations.old.items ++ spec.goal_equations (program_findings (hlds_of checked.now)) (view_counts v) number (goal_of goal.now)) }
{
    add_kind(checked, loaded, equations, &goal.kind, number)
}

#[cycle(building)]
fn add_kind(
    checked: &Checked,
    loaded: &Loaded,
    equations: &mut Vec<Equation>,
    kind: &GoalKind,
    number: u32,
) -> Result<u32, NoMemory>
    requires few { number + suc (parts_size (expr_of kind.now)) < 4294967295 }
    ensures next { IfOk result (λ next. next ≡ number + suc (parts_size (expr_of kind.now))) }
    ensures equations { (v : View) → IsFileView loaded.now.profile v → IfOk result (λ next. equations_of equations.new.items
        ≡ equations_of equations.old.items ++ spec.expr_equations (program_findings (hlds_of checked.now)) (view_counts v) number (expr_of kind.now)) }
{
    match kind {
        GoalKind::Call(site, _, _) => add_call(loaded, equations, number, *site),
        GoalKind::HoCall(site, _, _) => add_call(loaded, equations, number, *site),
        GoalKind::Conj(goals) => {
            add_conjunction(checked, loaded, equations, goals.as_slice(), number)
        }
        GoalKind::Disj(arms) => {
            add_disjunction(checked, loaded, equations, arms.as_slice(), number)
        }
        GoalKind::If(condition, then, otherwise) => {
            let asked = number + 1;
            let entered = Quantity::Entries(number);
            let held = add_entered(checked, loaded, equations, condition, asked, entered)?;
            let met = Quantity::Exits(asked);
            let lapsed = add_entered(checked, loaded, equations, then, held, met)?;
            add_both(
                equations,
                Quantity::Entries(number),
                Quantity::Entries(held),
                Quantity::Entries(lapsed),
            )?;
            let next = add_goal(checked, loaded, equations, otherwise, lapsed)?;
            add_both(
                equations,
                Quantity::Exits(number),
                Quantity::Exits(held),
                Quantity::Exits(lapsed),
            )?;
            Ok(next)
        }
        GoalKind::Not(inner) => add_not(checked, loaded, equations, inner, number),
        GoalKind::Some(_, inner) => add_some(checked, loaded, equations, inner, number),
        GoalKind::Fail => {
            add_count(equations, Quantity::Exits(number), 0)?;
            Ok(number + 1)
        }
        GoalKind::Error(_) => {
            add_count(equations, Quantity::Entries(number), 0)?;
            add_count(equations, Quantity::Exits(number), 0)?;
            Ok(number + 1)
        }
        GoalKind::True
        | GoalKind::Unify(..)
        | GoalKind::Arith(..)
        | GoalKind::Compare(..)
        | GoalKind::WriteInt(..)
        | GoalKind::WriteStr(..)
        | GoalKind::Nl(..) => add_simple(checked, equations, number),
    }
}

/// Adds that the goal of this number is entered as often as this, with the equations of the goal; gives the number that
/// comes after it.
#[cycle(building)]
fn add_entered(
    checked: &Checked,
    loaded: &Loaded,
    equations: &mut Vec<Equation>,
    goal: &Goal,
    number: u32,
    before: Quantity,
) -> Result<u32, NoMemory>
    requires few { number + goal_size (goal_of goal.now) < 4294967295 }
    ensures next { IfOk result (λ next. next ≡ number + goal_size (goal_of goal.now)) }
    ensures equations { (v : View) → IsFileView loaded.now.profile v → IfOk result (λ next. equations_of equations.new.items
        ≡ equations_of equations.old.items ++ (spec.equals (spec.Entries number) (quantity_of before)
        ∷ spec.goal_equations (program_findings (hlds_of checked.now)) (view_counts v) number (goal_of goal.now))) }
{
    add_equal(equations, Quantity::Entries(number), before)?;
    add_goal(checked, loaded, equations, goal, number)
}

/// Adds the equations of a negation of this number.
#[cycle(building)]
fn add_not(
    checked: &Checked,
    loaded: &Loaded,
    equations: &mut Vec<Equation>,
    inner: &Goal,
    number: u32,
) -> Result<u32, NoMemory>
    requires few { number + suc (goal_size (goal_of inner.now)) < 4294967295 }
    ensures next { IfOk result (λ next. next ≡ number + suc (goal_size (goal_of inner.now))) }
    ensures equations { (v : View) → IsFileView loaded.now.profile v → IfOk result (λ next. equations_of equations.new.items
        ≡ equations_of equations.old.items ++ spec.expr_equations (program_findings (hlds_of checked.now)) (view_counts v) number (NotGoal (goal_of inner.now))) }
{
    let asked = number + 1;
    let entered = Quantity::Entries(number);
    let next = add_entered(checked, loaded, equations, inner, asked, entered)?;
    add_both(
        equations,
        Quantity::Entries(number),
        Quantity::Exits(number),
        Quantity::Exits(asked),
    )?;
    Ok(next)
}

/// Adds the equations of a goal of this number that hides variables.
#[cycle(building)]
fn add_some(
    checked: &Checked,
    loaded: &Loaded,
    equations: &mut Vec<Equation>,
    inner: &Goal,
    number: u32,
) -> Result<u32, NoMemory>
    requires few { number + suc (goal_size (goal_of inner.now)) < 4294967295 }
    ensures next { IfOk result (λ next. next ≡ number + suc (goal_size (goal_of inner.now))) }
    ensures equations { (v : View) → IsFileView loaded.now.profile v → IfOk result (λ next. equations_of equations.new.items
        ≡ equations_of equations.old.items ++ (spec.equals (spec.Entries (suc number)) (spec.Entries number)
        ∷ (spec.goal_equations (program_findings (hlds_of checked.now)) (view_counts v) (suc number) (goal_of inner.now) ++ spec.equals (spec.Exits number) (spec.Exits (suc number)) ∷ []))) }
{
    let asked = number + 1;
    let entered = Quantity::Entries(number);
    let next = add_entered(checked, loaded, equations, inner, asked, entered)?;
    add_equal(equations, Quantity::Exits(number), Quantity::Exits(asked))?;
    Ok(next)
}

/// Adds that a goal which succeeds exactly once is left as often as it is entered.
fn add_simple(
    checked: &Checked,
    equations: &mut Vec<Equation>,
    number: u32,
) -> Result<u32, NoMemory>
    requires few { suc number < 4294967295 }
    ensures next { IfOk result (λ next. next ≡ suc number) }
    ensures equations { IfOk result (λ next. equations_of equations.new.items
        ≡ equations_of equations.old.items ++ spec.if_one number (pair_at (program_findings (hlds_of checked.now)) number)) }
{
    if let Some((false, 1)) = checked.pair(number) {
        add_equal(
            equations,
            Quantity::Exits(number),
            Quantity::Entries(number),
        )?;
    }
    Ok(number + 1)
}

/// Adds that a call has the counts of its site.
fn add_call(
    loaded: &Loaded,
    equations: &mut Vec<Equation>,
    number: u32,
    site: SiteId,
) -> Result<u32, NoMemory>
    requires few { suc number < 4294967295 }
    ensures next { IfOk result (λ next. next ≡ suc number) }
    ensures equations { (v : View) → IsFileView loaded.now.profile v → IfOk result (λ next. equations_of equations.new.items
        ≡ equations_of equations.old.items ++ spec.call_equations (view_counts v) number site) }
{
    let counts = counts_of_site(loaded, site);
    add_count(equations, Quantity::Entries(number), counts.calls)?;
    add_count(equations, Quantity::Exits(number), counts.exits)?;
    Ok(number + 1)
}

/// Adds the equations of a conjunction of this number with these parts.
#[cycle(building)]
fn add_conjunction(
    checked: &Checked,
    loaded: &Loaded,
    equations: &mut Vec<Equation>,
    goals: &[Goal],
    number: u32,
) -> Result<u32, NoMemory>
    requires few { suc number + goals_size (gathered (goals_of goals.now)) < 4294967295 }
    ensures next { IfOk result (λ next. next ≡ suc number + goals_size (gathered (goals_of goals.now))) }
    ensures equations { (v : View) → IsFileView loaded.now.profile v → IfOk result (λ next. equations_of equations.new.items
        ≡ equations_of equations.old.items ++ spec.each_equations (program_findings (hlds_of checked.now)) (view_counts v) number (spec.Entries number) (suc number) (gathered (goals_of goals.now))) }
{
    let mut before = Quantity::Entries(number);
    let mut next = number + 1;
    for goal in goals {
        let place = next;
        next = add_entered(checked, loaded, equations, goal, place, before)?;
        before = Quantity::Exits(place);
    }
    add_equal(equations, Quantity::Exits(number), before)?;
    Ok(next)
}

/// Adds the equations of a disjunction of this number with these arms.
#[cycle(building)]
fn add_disjunction(
    checked: &Checked,
    loaded: &Loaded,
    equations: &mut Vec<Equation>,
    arms: &[Goal],
    number: u32,
) -> Result<u32, NoMemory>
    requires few { suc number + goals_size (gathered (goals_of arms.now)) < 4294967295 }
    ensures next { IfOk result (λ next. next ≡ suc number + goals_size (gathered (goals_of arms.now))) }
    ensures equations { (v : View) → IsFileView loaded.now.profile v → IfOk result (λ next. equations_of equations.new.items
        ≡ equations_of equations.old.items ++ (spec.entering number (spec.numbers_from (suc number) (gathered (goals_of arms.now))) (switch_at (program_findings (hlds_of checked.now)) number)
        ++ (spec.arm_equations (program_findings (hlds_of checked.now)) (view_counts v) (suc number) (gathered (goals_of arms.now))
        ++ (spec.sums (spec.Exits number) (map spec.Exits (spec.numbers_from (suc number) (gathered (goals_of arms.now))))
        ∷ spec.choosing number (spec.numbers_from (suc number) (gathered (goals_of arms.now))) (switch_at (program_findings (hlds_of checked.now)) number))))) }
{
    let first = number + 1;
    let switch = checked.switch(number);
    enter_first(equations, arms, number, first, switch)?;
    let alloc = *equations.allocator();
    let mut entries = Vec::new(alloc);
    let mut exits = Vec::new(alloc);
    let mut next = first;
    for arm in arms {
        entries.push(Quantity::Entries(next))?;
        exits.push(Quantity::Exits(next))?;
        next = add_goal(checked, loaded, equations, arm, next)?;
    }
    add_sum(equations, Quantity::Exits(number), exits)?;
    add_choice(equations, number, entries, switch)?;
    Ok(next)
}

/// Adds that a disjunction which is no switch enters its first arm.
fn enter_first(
    equations: &mut Vec<Equation>,
    arms: &[Goal],
    number: u32,
    first: u32,
    switch: Option<Switch>,
) -> Result<(), NoMemory>
    ensures { OnOk result (equations_of equations.new.items
        ≡ equations_of equations.old.items ++ spec.entering number (spec.numbers_from first (gathered (goals_of arms.now))) switch) }
{
    if switch.is_some() || arms.is_empty() {
        return Ok(());
    }
    add_equal(
        equations,
        Quantity::Entries(first),
        Quantity::Entries(number),
    )
}

/// Adds that a switch with no functor missing enters one of these.
fn add_choice(
    equations: &mut Vec<Equation>,
    number: u32,
    entries: Vec<Quantity>,
    switch: Option<Switch>,
) -> Result<(), NoMemory>
    ensures { OnOk result (equations_of equations.new.items ≡ equations_of equations.old.items ++ chosen (spec.Entries number) (quantities_of entries.items) switch) }
{
    if !is_whole(switch) {
        return Ok(());
    }
    add_sum(equations, Quantity::Entries(number), entries)
}

/// A switch with no functor missing.
fn is_whole(switch: Option<Switch>) -> bool
    ensures { result ≡ is_whole switch }
{
    match switch {
        Some(switch) => switch.whole,
        None => false,
    }
}
