// Marked variables.
ghost use Rattle.std.specs.Prelude.{◌≡◌, ◌<◌, [], ◌∷◌, length, OnOk};
ghost use Rattle.md_hlds.specs.HldsGoal.{goals_of, expr_of, gathered};
ghost use Rattle.md_modes.specs.Branches.{some_of};
ghost use Rattle.md_modes.specs.Goals.{expr_variables, parts_variables, term_variables};
ghost use Rattle.md_modes.specs.Tally.{atomic_variables};
ghost use Rattle.md_feedback.specs.Search.{Marks, mark_at};

use md_base::NoMemory;
use md_hlds::{Goal, GoalKind, Term};

/// Marks variables.
pub(crate) fn mark(marks: &mut Vec<bool>, places: &[u32]) -> Result<(), NoMemory>
    ensures { OnOk result (Marks marks.old.items marks.new.items places.now) }
{
    for place in places {
        mark_one(marks, *place)?;
    }
    Ok(())
}

/// Whether a marked variable occurs in a goal of this kind.
#[cycle(mentions)]
pub(crate) fn mentions(marks: &[bool], goal: &GoalKind) -> bool
    ensures { result ≡ some_of (mark_at marks.now) (expr_variables (expr_of goal.now)) }
{
    match goal {
        GoalKind::Conj(goals) => mentions_some(marks, goals.as_slice()),
        GoalKind::Disj(arms) => mentions_some(marks, arms.as_slice()),
        GoalKind::If(condition, then, otherwise) => {
            mentions(marks, &condition.kind)
                || mentions(marks, &then.kind)
                || mentions(marks, &otherwise.kind)
        }
        GoalKind::Not(part) => mentions(marks, &part.kind),
        GoalKind::Some(quantified, part) => {
            some_marked(marks, quantified.as_slice()) || mentions(marks, &part.kind)
        }
        _ => mentions_atomic(marks, goal),
    }
}

fn mark_one(marks: &mut Vec<bool>, place: u32) -> Result<(), NoMemory>
    ensures { OnOk result (Marks marks.old.items marks.new.items (place ∷ [])) }
{
    reach(marks, place)?;
    marks[place as usize] = true;
    Ok(())
}

/// Makes room for the mark of a variable.
fn reach(marks: &mut Vec<bool>, place: u32) -> Result<(), NoMemory>
    ensures same { OnOk result (Marks marks.old.items marks.new.items []) }
    ensures room { OnOk result (place < length marks.new.items) }
{
    for _turn in marks.len()..place as usize + 1 {
        marks.push(false)?;
    }
    Ok(())
}

#[cycle(mentions)]
fn mentions_some(marks: &[bool], goals: &[Goal]) -> bool
    ensures { result ≡ some_of (mark_at marks.now) (parts_variables (gathered (goals_of goals.now))) }
{
    for goal in goals {
        if mentions(marks, &goal.kind) {
            return true;
        }
    }
    false
}

/// The same of a goal that is no conjunction and no branch.
fn mentions_atomic(marks: &[bool], goal: &GoalKind) -> bool
    ensures { result ≡ some_of (mark_at marks.now) (atomic_variables (expr_of goal.now)) }
{
    match goal {
        GoalKind::Unify(x, term) => is_marked(marks, *x) || mentions_term(marks, term),
        GoalKind::Arith(z, a, _, b) => some_marked(marks, &[*z, *a, *b]),
        GoalKind::Compare(a, _, b) => some_marked(marks, &[*a, *b]),
        GoalKind::WriteInt(x, before, after) => some_marked(marks, &[*x, *before, *after]),
        GoalKind::WriteStr(x, before, after) => some_marked(marks, &[*x, *before, *after]),
        GoalKind::Nl(before, after) => some_marked(marks, &[*before, *after]),
        GoalKind::Call(_, _, places) => some_marked(marks, places.as_slice()),
        GoalKind::HoCall(_, closure, places) => {
            is_marked(marks, *closure) || some_marked(marks, places.as_slice())
        }
        GoalKind::Error(x) => is_marked(marks, *x),
        GoalKind::True
        | GoalKind::Fail
        | GoalKind::Conj(_)
        | GoalKind::Disj(_)
        | GoalKind::If(..)
        | GoalKind::Not(_)
        | GoalKind::Some(..) => false,
    }
}

fn mentions_term(marks: &[bool], term: &Term) -> bool
    ensures { result ≡ some_of (mark_at marks.now) (term_variables term.now) }
{
    match term {
        Term::Var(y) => is_marked(marks, *y),
        Term::Int(_) | Term::Str(_) => false,
        Term::Name(_, places) => some_marked(marks, places.as_slice()),
    }
}

/// Whether one of these variables is marked.
fn some_marked(marks: &[bool], places: &[u32]) -> bool
    ensures { result ≡ some_of (mark_at marks.now) places.now }
{
    for place in places {
        if is_marked(marks, *place) {
            return true;
        }
    }
    false
}

fn is_marked(marks: &[bool], place: u32) -> bool
    ensures { result ≡ mark_at marks.now place }
{
    let place = place as usize;
    place < marks.len() && marks[place]
}
