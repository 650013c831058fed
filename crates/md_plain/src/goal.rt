// How great goals are, and their numbers.
ghost use Rattle.std.specs.Prelude.{◌≡◌, ◌+◌, ◌∷◌, ◌++◌, length, IfOk};
ghost use Rattle.md_hlds.specs.HldsGoal.{goal_of, goals_of, gathered, goal_size, site_count, goals_lines, numbered_goal, numbered_from};
ghost use Rattle.md_hlds.specs.Hlds.{hlds_of, procedures_of, procedure_of, goals_before, body_number};
ghost use Rattle.md_hlds.specs.Trace.{call_weight};
ghost use Rattle.md_plain.specs.Goals.{numbereds_of};

use crate::arena::cons;
use crate::size::goal_size;
use crate::value::{next, plus};
use bumpalo::Bump;
use md_base::NoMemory;
use md_hlds::{Goal, GoalKind, Pred, Program};

/// A goal with its number.
#[derive(Clone, Copy)]
pub struct Numbered<'a> {
    pub number: u64,
    pub goal: &'a Goal,
}

/// What a call of this procedure weighs.
pub fn call_weight(pred: &Pred) -> Result<u64, NoMemory>
    ensures { IfOk result (λ weight. weight ≡ call_weight (procedure_of pred.now)) }
{
    next(plus(pred.vars.len() as u64, site_count(&pred.body)?)?)
}

/// The number of the body of this procedure.
pub fn body_number(program: &Program, procedure: u64) -> Result<u64, NoMemory>
    ensures { IfOk result (λ number. number ≡ body_number (hlds_of program.now) procedure) }
{
    goals_before(program.preds.as_slice(), procedure)
}

/// The number of the goal after this one.
pub fn after(number: u64, goal: &Goal) -> Result<u64, NoMemory>
    ensures { IfOk result (λ next. next ≡ number + goal_size (goal_of goal.now)) }
{
    plus(number, goal_size(goal)?)
}

/// A goal with its number, before these goals.
pub fn before<'a>(
    bump: &'a Bump,
    number: u64,
    goal: &'a Goal,
    goals: &[Numbered<'a>],
) -> Result<&'a [Numbered<'a>], NoMemory>
    ensures { IfOk result (λ all. numbereds_of all.now ≡ numbered_goal number (goal_of goal.now) ∷ numbereds_of goals.now) }
{
    cons(bump, Numbered { number, goal }, goals)
}

/// These goals with their numbers, the first of which is given, and then what follows them.
pub fn numbered_from<'a>(
    bump: &'a Bump,
    number: u64,
    goals: &'a [Goal],
    then: &'a [Numbered<'a>],
) -> Result<&'a [Numbered<'a>], NoMemory>
    ensures { IfOk result (λ all. numbereds_of all.now ≡ numbered_from number (gathered (goals_of goals.now)) ++ numbereds_of then.now) }
{
    match goals {
        [] => Ok(then),
        [goal, rest @ ..] => {
            let after = plus(number, goal_size(goal)?)?;
            cons(
                bump,
                Numbered { number, goal },
                numbered_from(bump, after, rest, then)?,
            )
        }
    }
}

/// How many call sites a goal has.
#[cycle(sites)]
fn site_count(goal: &Goal) -> Result<u64, NoMemory>
    ensures { IfOk result (λ count. count ≡ site_count (goal_of goal.now)) }
{
    match &goal.kind {
        GoalKind::Call(..) | GoalKind::HoCall(..) => Ok(1),
        GoalKind::Conj(parts) => sites_among(parts.as_slice()),
        GoalKind::Disj(parts) => sites_among(parts.as_slice()),
        GoalKind::If(condition, then, otherwise) => {
            let both = plus(site_count(then)?, site_count(otherwise)?)?;
            plus(site_count(condition)?, both)
        }
        GoalKind::Not(inner) => site_count(inner),
        GoalKind::Some(_, inner) => site_count(inner),
        GoalKind::True
        | GoalKind::Fail
        | GoalKind::Unify(..)
        | GoalKind::Arith(..)
        | GoalKind::Compare(..)
        | GoalKind::WriteInt(..)
        | GoalKind::WriteStr(..)
        | GoalKind::Nl(..)
        | GoalKind::Error(_) => Ok(0),
    }
}

#[cycle(sites)]
fn sites_among(goals: &[Goal]) -> Result<u64, NoMemory>
    ensures { IfOk result (λ count. count ≡ length (goals_lines (gathered (goals_of goals.now)))) }
{
    let mut total = 0;
    for goal in goals {
        total = plus(total, site_count(goal)?)?;
    }
    Ok(total)
}

fn goals_before(preds: &[Pred], procedure: u64) -> Result<u64, NoMemory>
    ensures { IfOk result (λ number. number ≡ goals_before (procedures_of preds.now) procedure) }
{
    match preds {
        [] => Ok(0),
        [first, rest @ ..] => {
            if procedure == 0 {
                return Ok(0);
            }
            plus(goal_size(&first.body)?, goals_before(rest, procedure - 1)?)
        }
    }
}
