// The judgement of a goal: how often it may succeed, its first fault, and what is found at it and at the goals within it.
ghost use Rattle.std.specs.Prelude.{◌≡◌, ◌<◌, ◌+◌, [], ℕ, suc, ◌||◌, is_none, length, Option, None, IfOk};
ghost use Rattle.md_hlds.specs.HldsGoal.{DisjGoal, NotGoal, SomeGoal, goal_of, goals_of, gathered, expr_of, goal_size, parts_size, goals_size};
ghost use Rattle.md_hlds.specs.declared.goal.GoalKind.{Conj, Disj};
ghost use Rattle.md_modes.specs.Inside.{IsChoice};
ghost use Rattle.md_hlds.specs.Hlds.{hlds_of};
ghost use Rattle.md_names.specs.Named.{name_at};
ghost use Rattle.md_modes.specs.Notes.{program_notes};
ghost use Rattle.md_modes.specs.Classes.{role_at};
ghost use Rattle.md_det.specs.Judge.{or_else, judge_part, judge_expr, judge_each, judge_arms, onto, read_atomic, io_fault, condition_fault};
ghost use Rattle.md_det.specs.Pairs.{one_of_two};
ghost use Rattle.md_det.specs.Told.{reading_in, judged_told, found_told, found_onto};

use crate::atomic::{atomic_pair, condition_fault, io_fault};
use crate::context::Context;
use crate::disjunction::{beside, find_switch, if_missing, no_arm, variable_of};
use crate::fault::DetFault;
use crate::finding::{Finding, Switch};
use crate::pair::Pair;
use md_base::NoMemory;
use md_hlds::{Goal, GoalKind};

/// Of a goal, or of several: the pair and the first fault.
#[derive(Clone, Copy)]
pub struct Judged {
    pub pair: Pair,
    pub fault: Option<DetFault>,
}

/// Of a goal: the switch that it is, its pair and the first fault.
#[derive(Clone, Copy)]
pub struct Found {
    pub switch: Option<Switch>,
    pub pair: Pair,
    pub fault: Option<DetFault>,
}

impl Found {
    /// Of a goal that is no switch.
    fn plain(pair: Pair, fault: Option<DetFault>) -> Found
        ensures { result ≡ record { switch = None; pair = pair; fault = fault } }
    {
        Found {
            switch: None,
            pair,
            fault,
        }
    }
}

/// Judges a goal. Its number is the number of goals so far; it and the goals within it have numbers of 32 bits. `at` is the
/// variable of the switch whose arm it begins; `again` says that a run may come back to it.
#[cycle(judging)]
pub fn judge(
    context: &Context,
    goal: &Goal,
    at: Option<u32>,
    again: bool,
    findings: &mut Vec<Finding>,
) -> Result<Judged, NoMemory>
    requires few { length findings.old.items + goal_size (goal_of goal.now) < 4294967295 }
    ensures judged { IfOk result (λ judged. judged_told judged findings.new.items
        ≡ onto findings.old.items (judge_part (reading_in context.now) (length findings.old.items) at again (goal_of goal.now))) }
    ensures counted { IfOk result (λ judged. length findings.new.items ≡ length findings.old.items + goal_size (goal_of goal.now)) }
{
    let place = findings.len();
    findings.push(Finding {
        switch: None,
        pair: Pair::UNSURE,
    })?;
    let found = judge_kind(context, goal, place as u32, at, again, findings)?;
    findings[place] = Finding {
        switch: found.switch,
        pair: found.pair,
    };
    Ok(Judged {
        pair: found.pair,
        fault: found.fault,
    })
}

/// The same of a goal that has its number, and a place among the findings; only the goals within it add theirs.
#[cycle(judging)]
fn judge_kind(
    context: &Context,
    goal: &Goal,
    number: u32,
    at: Option<u32>,
    again: bool,
    findings: &mut Vec<Finding>,
) -> Result<Found, NoMemory>
    requires numbered { suc number ≡ length findings.old.items }
    requires few { length findings.old.items + parts_size (expr_of goal.now.kind) < 4294967295 }
    ensures { IfOk result (λ found. found_told found findings.new.items
        ≡ found_onto findings.old.items (judge_expr (reading_in context.now) number at again goal.now.line (expr_of goal.now.kind))) }
{
    match &goal.kind {
        GoalKind::Conj(goals) => {
            let judged = judge_each(context, parts(goals), at, again, findings)?;
            Ok(Found::plain(judged.pair, judged.fault))
        }
        GoalKind::Disj(arms) => judge_disjunction(context, parts(arms), number, again, findings),
        GoalKind::If(..) => judge_choice(context, goal, number, again, findings),
        GoalKind::Not(inner) => judge_negation(context, goal.line, number, again, inner, findings),
        GoalKind::Some(_, inner) => {
            judge_quantified(context, goal.line, number, again, inner, findings)
        }
        _ => Ok(judge_atomic(context, goal, number, at, again)),
    }
}

/// The parts of a conjunction or disjunction: they and the goals within them are all that is within it.
fn parts(goals: &Vec<Goal>) -> &[Goal]
    ensures value { result.now ≡ goals.now.items }
    ensures conj { parts_size (expr_of (Conj goals.now)) ≡ goals_size (gathered (goals_of result.now)) }
    ensures disj { parts_size (expr_of (Disj goals.now)) ≡ goals_size (gathered (goals_of result.now)) }
{
    goals.as_slice()
}

/// Judges a goal that has no parts. Not inlined, so that the recursion over goals has no room for what is found there.
#[inline(never)]
fn judge_atomic(context: &Context, goal: &Goal, number: u32, at: Option<u32>, again: bool) -> Found
    ensures { result ≡ record {
      switch = None;
      pair = read_atomic (hlds_of context.now.moded.now) at (name_at (hlds_of context.now.moded.now) number)
          (role_at (program_notes (hlds_of context.now.moded.now)) number) (expr_of goal.now.kind);
      fault = io_fault (reading_in context.now) number again goal.now.line;
    } }
{
    let pair = atomic_pair(context.moded, &goal.kind, number, at);
    let fault = io_fault(context, number, again, goal.line);
    Found::plain(pair, fault)
}

/// Judges an if-then-else. It isn't inlined, so that only goals of this kind take the room for three judgements.
#[cycle(judging)]
#[inline(never)]
fn judge_choice(
    context: &Context,
    goal: &Goal,
    number: u32,
    again: bool,
    findings: &mut Vec<Finding>,
) -> Result<Found, NoMemory>
    requires choice { IsChoice (expr_of goal.now.kind) }
    requires numbered { suc number ≡ length findings.old.items }
    requires few { length findings.old.items + parts_size (expr_of goal.now.kind) < 4294967295 }
    ensures { IfOk result (λ found. (at : Option ℕ) → found_told found findings.new.items
        ≡ found_onto findings.old.items (judge_expr (reading_in context.now) number at again goal.now.line (expr_of goal.now.kind))) }
{
    match &goal.kind {
        GoalKind::If(condition, then, otherwise) => {
            let tested = judge(context, condition, None, again, findings)?;
            let fault = tested_fault(context, goal.line, number + 1, tested);
            let first = judge(context, then, None, again, findings)?;
            let second = judge(context, otherwise, None, again, findings)?;
            Ok(chosen(fault, first, second))
        }
        _ => unreachable!(),
    }
}

/// Judges a negation. Not inlined either, so that other goals have no room for what it judges.
#[cycle(judging)]
#[inline(never)]
fn judge_negation(
    context: &Context,
    line: u32,
    number: u32,
    again: bool,
    inner: &Goal,
    findings: &mut Vec<Finding>,
) -> Result<Found, NoMemory>
    requires numbered { suc number ≡ length findings.old.items }
    requires few { length findings.old.items + goal_size (goal_of inner.now) < 4294967295 }
    ensures { IfOk result (λ found. found_told found findings.new.items
        ≡ found_onto findings.old.items (judge_expr (reading_in context.now) number None again line (NotGoal (goal_of inner.now)))) }
{
    let judged = judge(context, inner, None, again, findings)?;
    let fault = io_fault(context, number, again, line);
    Ok(around(Pair::UNSURE, fault, judged.fault))
}

/// Judges a quantified goal. Not inlined either.
#[cycle(judging)]
#[inline(never)]
fn judge_quantified(
    context: &Context,
    line: u32,
    number: u32,
    again: bool,
    inner: &Goal,
    findings: &mut Vec<Finding>,
) -> Result<Found, NoMemory>
    requires numbered { suc number ≡ length findings.old.items }
    requires few { length findings.old.items + goal_size (goal_of inner.now) < 4294967295 }
    ensures { IfOk result (λ found. found_told found findings.new.items
        ≡ found_onto findings.old.items (judge_expr (reading_in context.now) number None again line (SomeGoal [] (goal_of inner.now)))) }
{
    let judged = judge(context, inner, None, again, findings)?;
    let fault = io_fault(context, number, again, line);
    Ok(around(judged.pair.cut(), fault, judged.fault))
}

/// The first fault of an if-then-else whose condition has this number, as far as the condition is judged. Not inlined either.
#[inline(never)]
fn tested_fault(context: &Context, line: u32, number: u32, tested: Judged) -> Option<DetFault>
    ensures { result ≡ or_else (condition_fault (reading_in context.now) line number tested.pair) tested.fault }
{
    condition_fault(context, line, number, tested.pair).or(tested.fault)
}

/// Of an if-then-else with this first fault up to its condition, from its other parts.
fn chosen(tested: Option<DetFault>, first: Judged, second: Judged) -> Found
    ensures { result ≡ record { switch = None; pair = one_of_two first.pair second.pair; fault = or_else tested (or_else first.fault second.fault) } }
{
    let fault = tested.or(first.fault.or(second.fault));
    Found::plain(first.pair.or(second.pair), fault)
}

/// Of a goal around another, with a fault of its own and one of the other.
fn around(pair: Pair, own: Option<DetFault>, inner: Option<DetFault>) -> Found
    ensures { result ≡ record { switch = None; pair = pair; fault = or_else own inner } }
{
    Found::plain(pair, own.or(inner))
}

/// Judges goals in turn.
#[cycle(judging)]
fn judge_each(
    context: &Context,
    goals: &[Goal],
    at: Option<u32>,
    again: bool,
    findings: &mut Vec<Finding>,
) -> Result<Judged, NoMemory>
    requires few { length findings.old.items + goals_size (gathered (goals_of goals.now)) < 4294967295 }
    ensures { IfOk result (λ judged. judged_told judged findings.new.items
        ≡ onto findings.old.items (judge_each (reading_in context.now) (length findings.old.items) at again (gathered (goals_of goals.now)))) }
{
    let mut all = Judged {
        pair: Pair::SURE,
        fault: None,
    };
    let mut at = at;
    let mut again = again;
    for goal in goals {
        let judged = judge(context, goal, at, again, findings)?;
        all = Judged {
            pair: all.pair.then(judged.pair),
            fault: all.fault.or(judged.fault),
        };
        at = None;
        let comes_back = judged.pair.bound.is_many();
        again = again || comes_back;
    }
    Ok(all)
}

/// Judges a disjunction of these arms. They are alternatives, where it is no switch. Not inlined either.
#[cycle(judging)]
#[inline(never)]
fn judge_disjunction(
    context: &Context,
    arms: &[Goal],
    number: u32,
    again: bool,
    findings: &mut Vec<Finding>,
) -> Result<Found, NoMemory>
    requires numbered { suc number ≡ length findings.old.items }
    requires few { length findings.old.items + goals_size (gathered (goals_of arms.now)) < 4294967295 }
    ensures { IfOk result (λ found. found_told found findings.new.items
        ≡ found_onto findings.old.items (judge_expr (reading_in context.now) number None again 0 (DisjGoal (gathered (goals_of arms.now))))) }
{
    let switch = find_switch(context, arms, number + 1)?;
    let again = again || switch.is_none();
    let judged = judge_arms(context, arms, variable_of(switch), again, findings)?;
    Ok(Found {
        switch,
        pair: if_missing(switch, judged.pair),
        fault: judged.fault,
    })
}

/// Judges arms, of a switch on the variable `at` or of no switch.
#[cycle(judging)]
fn judge_arms(
    context: &Context,
    arms: &[Goal],
    at: Option<u32>,
    again: bool,
    findings: &mut Vec<Finding>,
) -> Result<Judged, NoMemory>
    requires few { length findings.old.items + goals_size (gathered (goals_of arms.now)) < 4294967295 }
    ensures { IfOk result (λ judged. judged_told judged findings.new.items
        ≡ onto findings.old.items (judge_arms (reading_in context.now) (length findings.old.items) at again (gathered (goals_of arms.now)))) }
{
    let mut all = Judged {
        pair: no_arm(at),
        fault: None,
    };
    for arm in arms {
        let judged = judge(context, arm, at, again, findings)?;
        all = Judged {
            pair: beside(at, all.pair, judged.pair),
            fault: all.fault.or(judged.fault),
        };
    }
    Ok(all)
}
