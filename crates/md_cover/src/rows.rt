// The goals of a goal, in text order.
ghost use Rattle.std.specs.Prelude.{◌≡◌, ◌+◌, ◌<◌, ◌++◌, length, OnOk};
ghost use Rattle.md_hlds.specs.HldsGoal.{goal_of, goals_of, gathered, goal_size, goals_size, expr_of, parts_size};
ghost use Rattle.md_cover.specs.Rows.{kind_of, goal_rows, expr_rows, each_rows};

use crate::{GoalCount, KindName};
use md_base::NoMemory;
use md_hlds::{Goal, GoalKind};

/// Adds the rows of a goal at this depth, and of those within it; their turns aren't known.
#[cycle(rows)]
pub(crate) fn add_rows(rows: &mut Vec<GoalCount>, goal: &Goal, depth: u32) -> Result<(), NoMemory>
    requires few { length rows.old.items + goal_size (goal_of goal.now) < 4294967295 }
    requires deep { depth + goal_size (goal_of goal.now) < 4294967295 }
    ensures { OnOk result (rows.new.items ≡ rows.old.items ++ goal_rows (length rows.old.items) depth (goal_of goal.now)) }
{
    rows.push(GoalCount {
        place: rows.len() as u32,
        depth,
        line: goal.line,
        kind: kind_of(&goal.kind),
        turns: None,
    })?;
    add_inner(rows, &goal.kind, depth + 1)
}

/// Adds the rows of the goals within a goal.
#[cycle(rows)]
fn add_inner(rows: &mut Vec<GoalCount>, kind: &GoalKind, depth: u32) -> Result<(), NoMemory>
    requires few { length rows.old.items + parts_size (expr_of kind.now) < 4294967295 }
    requires deep { depth + parts_size (expr_of kind.now) < 4294967295 }
    ensures { OnOk result (rows.new.items ≡ rows.old.items ++ expr_rows (length rows.old.items) depth (expr_of kind.now)) }
{
    match kind {
        GoalKind::Conj(goals) => add_each(rows, goals.as_slice(), depth),
        GoalKind::Disj(arms) => add_each(rows, arms.as_slice(), depth),
        GoalKind::If(condition, then, otherwise) => {
            add_rows(rows, condition, depth)?;
            add_rows(rows, then, depth)?;
            add_rows(rows, otherwise, depth)
        }
        GoalKind::Not(inner) => add_rows(rows, inner, depth),
        GoalKind::Some(_, inner) => add_rows(rows, inner, depth),
        GoalKind::True
        | GoalKind::Fail
        | GoalKind::Unify(..)
        | GoalKind::Arith(..)
        | GoalKind::Compare(..)
        | GoalKind::WriteInt(..)
        | GoalKind::WriteStr(..)
        | GoalKind::Nl(..)
        | GoalKind::Call(..)
        | GoalKind::HoCall(..)
        | GoalKind::Error(_) => Ok(()),
    }
}

#[cycle(rows)]
fn add_each(rows: &mut Vec<GoalCount>, goals: &[Goal], depth: u32) -> Result<(), NoMemory>
    requires few { length rows.old.items + goals_size (gathered (goals_of goals.now)) < 4294967295 }
    requires deep { depth + goals_size (gathered (goals_of goals.now)) < 4294967295 }
    ensures { OnOk result (rows.new.items ≡ rows.old.items ++ each_rows (length rows.old.items) depth (gathered (goals_of goals.now))) }
{
    for goal in goals {
        add_rows(rows, goal, depth)?;
    }
    Ok(())
}

fn kind_of(kind: &GoalKind) -> KindName
    ensures { result ≡ kind_of (expr_of kind.now) }
{
    match kind {
        GoalKind::True => KindName::True,
        GoalKind::Fail => KindName::Fail,
        GoalKind::Unify(..) => KindName::Unify,
        GoalKind::Arith(..) => KindName::Arith,
        GoalKind::Compare(..) => KindName::Compare,
        GoalKind::WriteInt(..) | GoalKind::WriteStr(..) | GoalKind::Nl(..) => KindName::Write,
        GoalKind::Call(..) => KindName::Call,
        GoalKind::HoCall(..) => KindName::ClosureCall,
        GoalKind::Conj(_) => KindName::Conj,
        GoalKind::Disj(_) => KindName::Disj,
        GoalKind::If(..) => KindName::If,
        GoalKind::Not(_) => KindName::Not,
        GoalKind::Some(..) => KindName::Some,
        GoalKind::Error(_) => KindName::Error,
    }
}
