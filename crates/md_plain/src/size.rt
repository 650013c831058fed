// How many goals a goal is.
ghost use Rattle.std.specs.Prelude.{◌≡◌, IfOk};
ghost use Rattle.md_hlds.specs.HldsGoal.{goal_of, goals_of, gathered, goal_size, goals_size, expr_of, parts_size};

use crate::value::{next, plus};
use md_base::NoMemory;
use md_hlds::{Goal, GoalKind};

/// The goals of a goal, itself among them.
#[cycle(sizes)]
pub fn goal_size(goal: &Goal) -> Result<u64, NoMemory>
    ensures { IfOk result (λ size. size ≡ goal_size (goal_of goal.now)) }
{
    next(parts_size(&goal.kind)?)
}

/// The goals within a goal of this kind.
#[cycle(sizes)]
fn parts_size(kind: &GoalKind) -> Result<u64, NoMemory>
    ensures { IfOk result (λ size. size ≡ parts_size (expr_of kind.now)) }
{
    match kind {
        GoalKind::Conj(goals) => goals_size(goals.as_slice()),
        GoalKind::Disj(arms) => goals_size(arms.as_slice()),
        GoalKind::If(condition, then, otherwise) => {
            let condition = goal_size(condition)?;
            let then = goal_size(then)?;
            let otherwise = goal_size(otherwise)?;
            plus(condition, plus(then, otherwise)?)
        }
        GoalKind::Not(part) => goal_size(part),
        GoalKind::Some(_, part) => goal_size(part),
        GoalKind::True
        | GoalKind::Fail
        | GoalKind::Unify(..)
        | GoalKind::Arith(..)
        | GoalKind::Compare(..)
        | GoalKind::WriteInt(..)
        | GoalKind::WriteStr(..)
        | GoalKind::Nl(..)
        | GoalKind::Call(..)
        | GoalKind::HoCall(..)
        | GoalKind::Error(_) => Ok(0),
    }
}

#[cycle(sizes)]
fn goals_size(goals: &[Goal]) -> Result<u64, NoMemory>
    ensures { IfOk result (λ size. size ≡ goals_size (gathered (goals_of goals.now))) }
{
    let mut all = 0;
    for goal in goals {
        all = plus(all, goal_size(goal)?)?;
    }
    Ok(all)
}
