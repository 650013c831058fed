// Whether a program may throw.
ghost use Rattle.std.specs.Prelude.{◌≡◌};
ghost use Rattle.md_hlds.specs.Hlds.{hlds_of};
ghost use Rattle.md_hlds.specs.HldsGoal.{expr_of, goals_of, gathered};
ghost use Rattle.md_det.specs.Throws;
ghost use Rattle.md_det.specs.Throws.{expr_has_error, some_has_error};

use md_hlds::{Goal, GoalKind, Program};

/// Whether the program has a `require.error`.
pub fn throws(program: &Program) -> bool
    ensures { result ≡ Throws.throws (hlds_of program.now) }
{
    for pred in program.preds.as_slice() {
        if has_error(&pred.body.kind) {
            return true;
        }
    }
    false
}

#[cycle(errors)]
fn has_error(goal: &GoalKind) -> bool
    ensures { result ≡ expr_has_error (expr_of goal.now) }
{
    match goal {
        GoalKind::Error(_) => true,
        GoalKind::Conj(goals) => some_has_error(goals.as_slice()),
        GoalKind::Disj(arms) => some_has_error(arms.as_slice()),
        GoalKind::If(condition, then, otherwise) => {
            has_error(&condition.kind) || has_error(&then.kind) || has_error(&otherwise.kind)
        }
        GoalKind::Not(inner) | GoalKind::Some(_, inner) => has_error(&inner.kind),
        GoalKind::True
        | GoalKind::Fail
        | GoalKind::Unify(..)
        | GoalKind::Arith(..)
        | GoalKind::Compare(..)
        | GoalKind::WriteInt(..)
        | GoalKind::WriteStr(..)
        | GoalKind::Nl(..)
        | GoalKind::Call(..)
        | GoalKind::HoCall(..) => false,
    }
}

#[cycle(errors)]
fn some_has_error(goals: &[Goal]) -> bool
    ensures { result ≡ some_has_error (gathered (goals_of goals.now)) }
{
    for goal in goals {
        if has_error(&goal.kind) {
            return true;
        }
    }
    false
}
