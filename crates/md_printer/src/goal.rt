// Goals. The depth of the calls is that of the goals within goals.
ghost use Rattle.std.specs.Prelude.{◌≡◌, ◌++◌, OnOk, codes, true, false, [], ◌∷◌};
ghost use Rattle.md_hlds.specs.HldsGoal.{gathered, goal_of, goals_of};
ghost use Rattle.md_printer.specs.Layout.{in_parentheses, laid};
ghost use Rattle.md_printer.specs.Printed as spec;

use crate::layout::sign;
use crate::names::variables;
use crate::simple::{
    applied, arithmetic, closure_call, comparison, end_line, error, unification, write,
};
use md_base::{Name, NoMemory};
use md_hlds::{Goal, GoalKind, Variables};

/// Adds a goal. A conjunction has parentheses where it is `inner`, a part of a conjunction.
#[cycle(goals)]
#[tactic(auto, unfolding(crate::specs::Layout::laid))]
pub(crate) fn goal(
    text: &mut Vec<u8>,
    names: &[Name],
    inner: bool,
    printed: &Goal,
) -> Result<(), NoMemory>
    ensures { OnOk result (text.new.items ≡ text.old.items ++ laid (spec.goal_tokens names.now inner (goal_of printed.now))) }
{
    match &printed.kind {
        GoalKind::True => sign(text, "true"),
        GoalKind::Fail => sign(text, "fail"),
        GoalKind::Unify(x, term) => unification(text, names, *x, term),
        GoalKind::Arith(z, a, op, b) => arithmetic(text, names, *z, *a, *op, *b),
        GoalKind::Compare(a, cmp, b) => comparison(text, names, *a, *cmp, *b),
        GoalKind::WriteInt(x, before, after) => {
            write(text, names, "io.write_int", *x, *before, *after)
        }
        GoalKind::WriteStr(x, before, after) => {
            write(text, names, "io.write_string", *x, *before, *after)
        }
        GoalKind::Nl(before, after) => end_line(text, names, *before, *after),
        GoalKind::Error(x) => error(text, names, *x),
        GoalKind::Call(_, name, places) => applied(text, names, name, places),
        GoalKind::HoCall(_, closure, places) => closure_call(text, names, *closure, places),
        GoalKind::Conj(goals) => conjunction(text, names, inner, goals),
        GoalKind::Disj(goals) => disjunction(text, names, goals),
        GoalKind::If(condition, then, otherwise) => {
            sign(text, "(")?;
            goal(text, names, false, condition)?;
            alternative(text, names, "->", then)?;
            alternative(text, names, ";", otherwise)?;
            sign(text, ")")
        }
        GoalKind::Not(negated) => negation(text, names, negated),
        GoalKind::Some(places, quantified) => { quantification(text, names, places, quantified) }
    }
}

#[cycle(goals)]
#[tactic(auto, unfolding(crate::specs::Layout::laid))]
fn conjunction(
    text: &mut Vec<u8>,
    names: &[Name],
    inner: bool,
    goals: &[Goal],
) -> Result<(), NoMemory>
    ensures { OnOk result (text.new.items ≡ text.old.items ++ laid (spec.enclosed inner (spec.goals_tokens names.now true (codes ",") (gathered (goals_of goals.now))))) }
{
    if inner {
        sign(text, "(")?;
        parts(text, names, true, ",", goals)?;
        sign(text, ")")
    } else {
        parts(text, names, true, ",", goals)
    }
}

#[cycle(goals)]
#[tactic(auto, unfolding(crate::specs::Layout::laid))]
fn disjunction(text: &mut Vec<u8>, names: &[Name], goals: &[Goal]) -> Result<(), NoMemory>
    ensures { OnOk result (text.new.items ≡ text.old.items ++ laid (in_parentheses (spec.goals_tokens names.now false (codes ";") (gathered (goals_of goals.now))))) }
{
    sign(text, "(")?;
    parts(text, names, false, ";", goals)?;
    sign(text, ")")
}

/// Adds goals with a sign between them.
#[cycle(goals)]
#[tactic(auto, unfolding(crate::specs::Layout::laid))]
fn parts(
    text: &mut Vec<u8>,
    names: &[Name],
    inner: bool,
    between: &str,
    goals: &[Goal],
) -> Result<(), NoMemory>
    ensures { OnOk result (text.new.items ≡ text.old.items ++ laid (spec.goals_tokens names.now inner between.now (gathered (goals_of goals.now)))) }
{
    if let [first, rest @ ..] = goals {
        goal(text, names, inner, first)?;
        for part in rest {
            sign(text, between)?;
            goal(text, names, inner, part)?;
        }
    }
    Ok(())
}

/// Adds a part of an if-then-else, behind the sign before it.
#[cycle(goals)]
#[tactic(auto, unfolding(crate::specs::Layout::laid))]
fn alternative(
    text: &mut Vec<u8>,
    names: &[Name],
    before: &str,
    part: &Goal,
) -> Result<(), NoMemory>
    ensures { OnOk result (text.new.items ≡ text.old.items ++ laid (before.now ∷ spec.goal_tokens names.now false (goal_of part.now))) }
{
    sign(text, before)?;
    goal(text, names, false, part)
}

#[cycle(goals)]
#[tactic(auto, unfolding(crate::specs::Layout::laid))]
fn negation(text: &mut Vec<u8>, names: &[Name], negated: &Goal) -> Result<(), NoMemory>
    ensures { OnOk result (text.new.items ≡ text.old.items ++ laid (codes "not" ∷ in_parentheses (spec.goal_tokens names.now false (goal_of negated.now)))) }
{
    sign(text, "not")?;
    enclosed(text, names, negated)
}

#[cycle(goals)]
#[tactic(auto, unfolding(crate::specs::Layout::laid))]
fn quantification(
    text: &mut Vec<u8>,
    names: &[Name],
    places: &Variables,
    quantified: &Goal,
) -> Result<(), NoMemory>
    ensures { OnOk result (text.new.items ≡ text.old.items ++ laid (spec.quantified_tokens (spec.variables names.now places.now) (spec.goal_tokens names.now false (goal_of quantified.now)))) }
{
    quantifier(text, names, places)?;
    enclosed(text, names, quantified)
}

/// Adds a goal in parentheses.
#[cycle(goals)]
#[tactic(auto, unfolding(crate::specs::Layout::laid))]
fn enclosed(text: &mut Vec<u8>, names: &[Name], printed: &Goal) -> Result<(), NoMemory>
    ensures { OnOk result (text.new.items ≡ text.old.items ++ laid (in_parentheses (spec.goal_tokens names.now false (goal_of printed.now)))) }
{
    sign(text, "(")?;
    goal(text, names, false, printed)?;
    sign(text, ")")
}

/// Adds what stands before a quantified goal.
#[tactic(auto, unfolding(crate::specs::Layout::laid))]
fn quantifier(text: &mut Vec<u8>, names: &[Name], places: &Variables) -> Result<(), NoMemory>
    ensures { OnOk result (text.new.items ≡ text.old.items ++ laid (codes "some" ∷ codes "[" ∷ (spec.variables names.now places.now ++ codes "]" ∷ []))) }
{
    sign(text, "some")?;
    sign(text, "[")?;
    variables(text, names, places.as_slice())?;
    sign(text, "]")
}
