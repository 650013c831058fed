// The literals of a program.
ghost use Rattle.std.specs.Prelude.{◌≡◌, IfOk, OnOk};
ghost use Rattle.md_hlds.specs.Hlds.{hlds_of};
ghost use Rattle.md_hlds.specs.HldsGoal.{expr_of, goal_of, goals_of, gathered};
ghost use Rattle.md_code.specs.Tables.{with_literal, with_goal, with_expr, with_goals, literals_of};
ghost use Rattle.md_code.specs.Numbers.{texts_of};

use indexmap::IndexSet;
use md_base::NoMemory;
use md_hlds::{Goal, GoalKind, Program, Term};
use std::alloc::Global;

/// The literals of a program, each once, in text order.
pub fn literals_of<'a>(alloc: Global, program: &'a Program) -> Result<IndexSet<&'a [u8]>, NoMemory>
    ensures { IfOk result (λ literals. texts_of literals.keys ≡ literals_of (hlds_of program.now)) }
{
    let mut literals = IndexSet::new(alloc);
    for pred in program.preds.as_slice() {
        add_literals(&mut literals, &pred.body)?;
    }
    Ok(literals)
}

/// Adds the literals of a goal.
#[cycle(literals)]
fn add_literals<'a>(literals: &mut IndexSet<&'a [u8]>, goal: &'a Goal) -> Result<(), NoMemory>
    ensures { OnOk result (texts_of literals.new.keys ≡ with_goal (texts_of literals.old.keys) (goal_of goal.now)) }
{
    match &goal.kind {
        GoalKind::Unify(_, Term::Str(text)) => add_literal(literals, text.as_bytes()),
        GoalKind::Conj(goals) => add_literals_of_all(literals, goals.as_slice()),
        GoalKind::Disj(arms) => add_literals_of_all(literals, arms.as_slice()),
        GoalKind::If(condition, then, otherwise) => {
            add_literals(literals, condition)?;
            add_literals(literals, then)?;
            add_literals(literals, otherwise)
        }
        GoalKind::Not(inner) => add_literals(literals, inner),
        GoalKind::Some(_, inner) => add_literals(literals, inner),
        GoalKind::Unify(_, Term::Var(_) | Term::Int(_) | Term::Name(..))
        | GoalKind::True
        | GoalKind::Fail
        | GoalKind::Arith(..)
        | GoalKind::Compare(..)
        | GoalKind::WriteInt(..)
        | GoalKind::WriteStr(..)
        | GoalKind::Nl(..)
        | GoalKind::Call(..)
        | GoalKind::HoCall(..)
        | GoalKind::Error(_) => Ok(()),
    }
}

/// Adds the literals of goals, one after the other.
#[cycle(literals)]
fn add_literals_of_all<'a>(
    literals: &mut IndexSet<&'a [u8]>,
    goals: &'a [Goal],
) -> Result<(), NoMemory>
    ensures { OnOk result (texts_of literals.new.keys ≡ with_goals (texts_of literals.old.keys) (gathered (goals_of goals.now))) }
{
    for goal in goals {
        add_literals(literals, goal)?;
    }
    Ok(())
}

/// Adds a literal that may be new.
fn add_literal<'a>(literals: &mut IndexSet<&'a [u8]>, bytes: &'a [u8]) -> Result<(), NoMemory>
    ensures { OnOk result (texts_of literals.new.keys ≡ with_literal (texts_of literals.old.keys) bytes.now) }
{
    literals.insert(bytes)?;
    Ok(())
}
