// What is known of each goal, in text order.
ghost use Rattle.std.specs.Prelude.{ℕ, ◌≡◌, ◌≤◌, ◌+◌, ◌++◌, ◌||◌, false, suc, length, IfOk, OnOk};
ghost use Rattle.md_hlds.specs.Hlds.{Hlds, hlds_of, procedure_called};
ghost use Rattle.md_hlds.specs.HldsGoal.{HldsGoal, At, HldsGoals, SimpleGoal, CallGoal, HoCallGoal, ConjGoal, DisjGoal, IfGoal, NotGoal, SomeGoal, Simple, goal_of, expr_of, goals_of, gathered, goals_within, goals_below, goals_among};
ghost use Rattle.md_modes.specs.Notes.{program_notes};
ghost use Rattle.md_modes.specs.Classes.{role_at};
ghost use Rattle.md_det.specs.Findings.{program_findings, switch_at};
ghost use Rattle.md_code.specs.Leaves.{named_leaves, role_leaves, has_choices, is_tried};
ghost use Rattle.md_code.specs.Tables.{one_if};
ghost use Rattle.md_code.specs.Facts.{Stand, fact, fact_of, parts_fact, facts_from, both_facts, kept_with, charged_with, then_change, construction_change, unification_change, simple_change};

use crate::fact::{Change, Fact};
use crate::number::{plus, small};
use crate::source::Source;
use md_base::NoMemory;
use md_hlds::{Det, Goal, GoalKind, HoTy, PredName, Term};
use md_modes::Class;

/// Adds what is known of a goal, and of those within it, whose numbers are from the first on that has no place yet.
#[cycle(survey)]
pub fn add_facts(source: &Source, facts: &mut Vec<Fact>, goal: &Goal) -> Result<Fact, NoMemory>
    ensures keeps { OnOk result (length facts.old.items ≤ length facts.new.items) }
    ensures facts { IfOk result (λ fact. Stand (hlds_of source.now.checked.now) (length facts.old.items) (goals_within (goal_of goal.now))
        → (facts.new.items ≡ facts.old.items ++ facts_from (hlds_of source.now.checked.now) (length facts.old.items) (goals_within (goal_of goal.now)))
        × (fact ≡ fact_of (hlds_of source.now.checked.now) (length facts.old.items) (goal_of goal.now))) }
{
    let place = facts.len();
    let number = small(place)?;
    facts.push(Fact::NOTHING)?;
    let fact = add_inner(source, facts, &goal.kind, number)?;
    facts[place] = fact;
    Ok(fact)
}

/// Adds what is known of the goals within the goal of this number, which is of this kind, and tells what is known of it.
#[cycle(survey)]
fn add_inner(
    source: &Source,
    facts: &mut Vec<Fact>,
    kind: &GoalKind,
    number: u32,
) -> Result<Fact, NoMemory>
    ensures keeps { OnOk result (length facts.old.items ≤ length facts.new.items) }
    ensures facts { IfOk result (λ fact. length facts.old.items ≡ suc number → Stand (hlds_of source.now.checked.now) (length facts.old.items) (goals_below (expr_of kind.now))
        → (facts.new.items ≡ facts.old.items ++ facts_from (hlds_of source.now.checked.now) (length facts.old.items) (goals_below (expr_of kind.now)))
        × (fact ≡ fact_of (hlds_of source.now.checked.now) number (At 0 (expr_of kind.now)))) }
{
    match kind {
        GoalKind::Conj(goals) => {
            let parts = add_facts_of_all(source, facts, goals.as_slice())?;
            Fact::of_conjunction(parts)
        }
        GoalKind::Disj(arms) => {
            let arms = add_facts_of_all(source, facts, arms.as_slice())?;
            Ok(Fact::of_disjunction(arms, source.checked.switch(number).is_none()))
        }
        GoalKind::If(condition, then, otherwise) => {
            let condition = add_facts(source, facts, condition)?;
            let then = add_facts(source, facts, then)?;
            let otherwise = add_facts(source, facts, otherwise)?;
            Fact::of_test(condition, then, otherwise)
        }
        GoalKind::Not(inner) => Fact::of_negation(add_facts(source, facts, inner)?),
        GoalKind::Some(_, inner) => Fact::of_quantified(add_facts(source, facts, inner)?),
        GoalKind::Call(_, name, _) => Ok(Fact::of_call(names_choices(source, name))),
        GoalKind::HoCall(..) => Ok(Fact::of_call(applies_choices(source, number))),
        GoalKind::Unify(_, term) => Ok(Fact::of_simple(unification_change(source, term, number))),
        GoalKind::True | GoalKind::Arith(..) => Ok(Fact::of_simple(Change::ONE)),
        GoalKind::Fail
        | GoalKind::Compare(..)
        | GoalKind::WriteInt(..)
        | GoalKind::WriteStr(..)
        | GoalKind::Nl(..)
        | GoalKind::Error(_) => Ok(Fact::of_simple(Change::CHARGED)),
    }
}

/// Adds what is known of goals one after the other, and of those within them, and tells what is known of them together.
#[cycle(survey)]
fn add_facts_of_all(
    source: &Source,
    facts: &mut Vec<Fact>,
    goals: &[Goal],
) -> Result<Fact, NoMemory>
    ensures keeps { OnOk result (length facts.old.items ≤ length facts.new.items) }
    ensures facts { IfOk result (λ fact. Stand (hlds_of source.now.checked.now) (length facts.old.items) (goals_among (gathered (goals_of goals.now)))
        → (facts.new.items ≡ facts.old.items ++ facts_from (hlds_of source.now.checked.now) (length facts.old.items) (goals_among (gathered (goals_of goals.now))))
        × (fact ≡ parts_fact (hlds_of source.now.checked.now) (length facts.old.items) (gathered (goals_of goals.now)))) }
{
    let mut all = Fact::NOTHING;
    for goal in goals {
        all = all.and(add_facts(source, facts, goal)?)?;
    }
    Ok(all)
}

impl Fact {
    /// Of a simple goal.
    fn of_simple(change: Change) -> Fact
        ensures { result ≡ fact false 0 0 change }
    {
        Fact {
            change,
            ..Fact::NOTHING
        }
    }

    /// Of a call.
    fn of_call(leaves: bool) -> Fact
        ensures { result ≡ fact leaves 0 1 (charged_with 0) }
    {
        Fact {
            leaves,
            heights: 0,
            sites: 1,
            change: Change::CHARGED,
        }
    }

    /// Of a conjunction of these parts.
    fn of_conjunction(parts: Fact) -> Result<Fact, NoMemory>
        ensures { IfOk result (λ whole. whole ≡ fact parts.leaves parts.heights parts.sites (then_change (kept_with 1) parts.change)) }
    {
        let change = Change::ONE.then(parts.change)?;
        Ok(Fact { change, ..parts })
    }

    /// Of a disjunction of these arms, which are tried one after the other or not.
    fn of_disjunction(arms: Fact, is_tried: bool) -> Fact
        ensures { result ≡ fact (is_tried || arms.leaves) arms.heights arms.sites (charged_with 0) }
    {
        Fact {
            leaves: is_tried || arms.leaves,
            change: Change::CHARGED,
            ..arms
        }
    }

    /// Of an if-then-else of these parts.
    fn of_test(condition: Fact, then: Fact, otherwise: Fact) -> Result<Fact, NoMemory>
        ensures { IfOk result (λ whole. whole ≡ fact (then.leaves || otherwise.leaves)
            (one_if condition.leaves + condition.heights + then.heights + otherwise.heights)
            (condition.sites + (then.sites + otherwise.sites)) (charged_with 0)) }
    {
        let heights = plus(
            plus(condition.cut_heights()?, then.heights)?,
            otherwise.heights,
        )?;
        let sites = plus(condition.sites, plus(then.sites, otherwise.sites)?)?;
        Ok(Fact {
            leaves: then.leaves || otherwise.leaves,
            heights,
            sites,
            change: Change::CHARGED,
        })
    }

    /// Of a negation of this.
    fn of_negation(inner: Fact) -> Result<Fact, NoMemory>
        ensures { IfOk result (λ whole. whole ≡ fact false (one_if inner.leaves + inner.heights) inner.sites (charged_with 0)) }
    {
        let heights = inner.cut_heights()?;
        Ok(Fact {
            leaves: false,
            heights,
            sites: inner.sites,
            change: Change::CHARGED,
        })
    }

    /// Of a quantified goal that is of this.
    fn of_quantified(inner: Fact) -> Result<Fact, NoMemory>
        ensures { IfOk result (λ whole. whole ≡ fact false (one_if inner.leaves + inner.heights) inner.sites (then_change (kept_with 1) inner.change)) }
    {
        let heights = inner.cut_heights()?;
        let change = Change::ONE.then(inner.change)?;
        Ok(Fact {
            leaves: false,
            heights,
            sites: inner.sites,
            change,
        })
    }

    /// How many heights a goal keeps, and one more if it is cut.
    fn cut_heights(self) -> Result<u32, NoMemory>
        ensures { IfOk result (λ heights. heights ≡ one_if self.leaves + self.heights) }
    {
        plus(one_if(self.leaves), self.heights)
    }
}

/// Whether a height is kept at a goal that is cut and may leave a choice.
pub fn one_if(leaves: bool) -> u32
    ensures { result ≡ one_if leaves }
{
    if leaves { 1 } else { 0 }
}

/// Whether a procedure of this determinism may have more than one answer.
pub fn has_choices(det: Det) -> bool
    ensures { result ≡ has_choices det }
{
    match det {
        Det::Multi | Det::Nondet => true,
        Det::Det | Det::Semidet | Det::Failure => false,
    }
}

/// Whether the procedure of this name may have more than one answer.
fn names_choices(source: &Source, name: &PredName) -> bool
    ensures { result ≡ named_leaves (procedure_called (hlds_of source.now.checked.now) name.now) }
{
    match source.names.predicate(name) {
        None => false,
        Some((_, pred)) => has_choices(pred.det),
    }
}

/// Whether the closure that the goal of this number calls may have more than one answer.
fn applies_choices(source: &Source, number: u32) -> bool
    ensures { result ≡ role_leaves (role_at (program_notes (hlds_of source.now.checked.now)) number) }
{
    match source.checked.moded().class(number) {
        Some(Class::Closure(closure)) => closure_has_choices(closure),
        Some(
            Class::Construct
            | Class::Close
            | Class::Deconstruct { .. }
            | Class::Assign { .. }
            | Class::Test,
        )
        | None => false,
    }
}

/// Whether a closure of this type may have more than one answer.
fn closure_has_choices(closure: &HoTy) -> bool
    ensures { result ≡ has_choices closure.now.det }
{
    has_choices(closure.det)
}

/// How what is pending changes at the unification of this number with this term.
fn unification_change(source: &Source, term: &Term, number: u32) -> Change
    ensures { result ≡ unification_change term.now (role_at (program_notes (hlds_of source.now.checked.now)) number) }
{
    match source.checked.moded().class(number) {
        Some(Class::Construct) => construction_change(term),
        Some(Class::Assign { .. }) => Change::ONE,
        Some(Class::Close | Class::Deconstruct { .. } | Class::Test | Class::Closure(_)) | None => {
            Change::CHARGED
        }
    }
}

/// How it changes at a construction: that of a functor with parts is charged at once.
fn construction_change(term: &Term) -> Change
    ensures { result ≡ construction_change term.now }
{
    match term {
        Term::Var(_) | Term::Int(_) | Term::Str(_) => Change::ONE,
        Term::Name(_, places) => match places.as_slice() {
            [] => Change::ONE,
            [_, ..] => Change::CHARGED,
        },
    }
}
