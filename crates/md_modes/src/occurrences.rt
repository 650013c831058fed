// The variables of a goal or a clause, as often as they occur.
ghost use Rattle.std.specs.Prelude.{◌≡◌, [], ◌∷◌, ◌++◌, IfOk, OnOk};
ghost use Rattle.md_hlds.specs.Hlds.{procedure_of};
ghost use Rattle.md_hlds.specs.HldsGoal.{goals_of, expr_of, gathered};
ghost use Rattle.md_modes.specs.Goals.{expr_variables, parts_variables, term_variables, clause_variables};
ghost use Rattle.md_modes.specs.Tally.{atomic_variables};

use md_base::NoMemory;
use md_hlds::{Goal, GoalKind, Pred, Term};
use std::alloc::Global;

/// The variables of a goal of this kind, in text order.
pub fn variables_of(alloc: Global, goal: &GoalKind) -> Result<Vec<u32>, NoMemory>
    ensures { IfOk result (λ vars. vars.items ≡ expr_variables (expr_of goal.now)) }
{
    let mut vars = Vec::new(alloc);
    add_goal(&mut vars, goal)?;
    Ok(vars)
}

/// The variables of a clause: those of its head, and those of its body.
pub fn variables_of_clause(alloc: Global, pred: &Pred) -> Result<Vec<u32>, NoMemory>
    ensures { IfOk result (λ vars. vars.items ≡ clause_variables (procedure_of pred.now)) }
{
    let mut vars = Vec::from_slice(alloc, pred.head.as_slice())?;
    add_goal(&mut vars, &pred.body.kind)?;
    Ok(vars)
}

/// Adds the variables of a goal.
#[cycle(goals)]
fn add_goal(vars: &mut Vec<u32>, goal: &GoalKind) -> Result<(), NoMemory>
    ensures { OnOk result (vars.new.items ≡ vars.old.items ++ expr_variables (expr_of goal.now)) }
{
    match goal {
        GoalKind::Conj(goals) => add_goals(vars, goals.as_slice()),
        GoalKind::Disj(goals) => add_goals(vars, goals.as_slice()),
        GoalKind::If(condition, then, otherwise) => {
            add_goal(vars, &condition.kind)?;
            add_goal(vars, &then.kind)?;
            add_goal(vars, &otherwise.kind)
        }
        GoalKind::Not(inner) => add_goal(vars, &inner.kind),
        GoalKind::Some(quantified, inner) => {
            vars.extend_from_slice(quantified.as_slice())?;
            add_goal(vars, &inner.kind)
        }
        _ => add_atomic(vars, goal),
    }
}

#[cycle(goals)]
fn add_goals(vars: &mut Vec<u32>, goals: &[Goal]) -> Result<(), NoMemory>
    ensures { OnOk result (vars.new.items ≡ vars.old.items ++ parts_variables (gathered (goals_of goals.now))) }
{
    for goal in goals {
        add_goal(vars, &goal.kind)?;
    }
    Ok(())
}

/// Adds the variables of a goal that is no conjunction and no branch.
fn add_atomic(vars: &mut Vec<u32>, goal: &GoalKind) -> Result<(), NoMemory>
    ensures { OnOk result (vars.new.items ≡ vars.old.items ++ atomic_variables (expr_of goal.now)) }
{
    match goal {
        GoalKind::Unify(x, term) => {
            add_one(vars, *x)?;
            add_term(vars, term)
        }
        GoalKind::Arith(z, a, _, b) => add_three(vars, *z, *a, *b),
        GoalKind::Compare(a, _, b) => add_two(vars, *a, *b),
        GoalKind::WriteInt(x, before, after) => add_three(vars, *x, *before, *after),
        GoalKind::WriteStr(x, before, after) => add_three(vars, *x, *before, *after),
        GoalKind::Nl(before, after) => add_two(vars, *before, *after),
        GoalKind::Call(_, _, places) => add_all(vars, places.as_slice()),
        GoalKind::HoCall(_, closure, places) => {
            add_one(vars, *closure)?;
            add_all(vars, places.as_slice())
        }
        GoalKind::Error(x) => add_one(vars, *x),
        GoalKind::True
        | GoalKind::Fail
        | GoalKind::Conj(_)
        | GoalKind::Disj(_)
        | GoalKind::If(..)
        | GoalKind::Not(_)
        | GoalKind::Some(..) => Ok(()),
    }
}

/// Adds these variables.
fn add_all(vars: &mut Vec<u32>, places: &[u32]) -> Result<(), NoMemory>
    ensures { OnOk result (vars.new.items ≡ vars.old.items ++ places.now) }
{
    vars.extend_from_slice(places)?;
    Ok(())
}

fn add_one(vars: &mut Vec<u32>, x: u32) -> Result<(), NoMemory>
    ensures { OnOk result (vars.new.items ≡ vars.old.items ++ x ∷ []) }
{
    vars.push(x)?;
    Ok(())
}

fn add_two(vars: &mut Vec<u32>, x: u32, y: u32) -> Result<(), NoMemory>
    ensures { OnOk result (vars.new.items ≡ vars.old.items ++ x ∷ y ∷ []) }
{
    add_all(vars, &[x, y])
}

fn add_three(vars: &mut Vec<u32>, x: u32, y: u32, z: u32) -> Result<(), NoMemory>
    ensures { OnOk result (vars.new.items ≡ vars.old.items ++ x ∷ y ∷ z ∷ []) }
{
    add_all(vars, &[x, y, z])
}

fn add_term(vars: &mut Vec<u32>, term: &Term) -> Result<(), NoMemory>
    ensures { OnOk result (vars.new.items ≡ vars.old.items ++ term_variables term.now) }
{
    match term {
        Term::Var(y) => vars.push(*y)?,
        Term::Int(_) | Term::Str(_) => {}
        Term::Name(_, places) => vars.extend_from_slice(places.as_slice())?,
    }
    Ok(())
}
