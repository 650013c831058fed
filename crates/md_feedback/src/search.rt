// The search for candidates, goal by goal in text order.
ghost use Rattle.std.specs.Prelude.{◌≡◌, ◌+◌, ◌<◌, ◌++◌, None, IfOk, OnOk, slice_index_or};
ghost use Rattle.md_hlds.specs.Hlds.{hlds_of};
ghost use Rattle.md_hlds.specs.HldsGoal.{goal_of, goals_of, gathered, goal_size, goals_size, goals_within, goals_among, numbered_from};
ghost use Rattle.md_feedback.specs.Search.{StandsFrom, reading_in, costly_call, call_at, pair_with, is_det, calls_det, binds_in, led_by, partners, TakesIn, goal_pairs, each_pairs, arm_pairs, program_pairs};

use crate::marks::{mark, mentions};
use crate::pairs::{Pair, Pairs};
use crate::reading::Search;
use md_base::{NoMemory, ProcId, SiteId};
use md_hlds::{Det, Goal, GoalKind};
use md_modes::{Moded, Named};
use std::alloc::Global;

/// The candidates among the calls of a program, in rising order, where these are the total calls of the sites that have many.
pub(crate) fn candidates(
    alloc: Global,
    moded: &Moded,
    heavy: &[Option<u64>],
) -> Result<Pairs, NoMemory>
    ensures { IfOk result (λ pairs. pairs ≡ program_pairs (hlds_of moded.now) heavy.now) }
{
    let mut pairs = Pairs::new(alloc);
    let mut number = 0;
    for (owner, pred) in moded.program().preds.iter().enumerate() {
        let search = Search {
            alloc,
            moded,
            heavy,
            owner: ProcId::new(owner as u32),
        };
        number = add_goal(&search, &pred.body, number, &mut pairs)?;
    }
    Ok(pairs)
}

/// Adds the candidates of a goal of this number and of the goals within it, and gives the number that comes after theirs.
#[cycle(search)]
fn add_goal(search: &Search, goal: &Goal, number: u32, pairs: &mut Pairs) -> Result<u32, NoMemory>
    requires few { number + goal_size (goal_of goal.now) < 4294967295 }
    requires stands { StandsFrom (hlds_of search.now.moded.now) number (goals_within (goal_of goal.now)) }
    ensures next { IfOk result (λ next. next ≡ number + goal_size (goal_of goal.now)) }
    ensures pairs { OnOk result (pairs.new ≡ pairs.old ++ goal_pairs (reading_in search.now) number (goal_of goal.now)) }
{
    let inner = number + 1;
    match &goal.kind {
        GoalKind::Conj(goals) => add_conjunction(search, goals.as_slice(), inner, pairs),
        GoalKind::Disj(arms) => add_arms(search, arms.as_slice(), inner, pairs),
        GoalKind::If(condition, then, otherwise) => {
            let second = add_goal(search, condition, inner, pairs)?;
            let third = add_goal(search, then, second, pairs)?;
            add_goal(search, otherwise, third, pairs)
        }
        GoalKind::Not(part) => add_goal(search, part, inner, pairs),
        GoalKind::Some(_, part) => add_goal(search, part, inner, pairs),
        GoalKind::True
        | GoalKind::Fail
        | GoalKind::Unify(..)
        | GoalKind::Arith(..)
        | GoalKind::Compare(..)
        | GoalKind::WriteInt(..)
        | GoalKind::WriteStr(..)
        | GoalKind::Nl(..)
        | GoalKind::Call(..)
        | GoalKind::HoCall(..)
        | GoalKind::Error(_) => Ok(inner),
    }
}

/// The same of the parts of a conjunction, the first of which has this number.
#[cycle(search)]
fn add_conjunction(
    search: &Search,
    goals: &[Goal],
    first: u32,
    pairs: &mut Pairs,
) -> Result<u32, NoMemory>
    requires few { first + goals_size (gathered (goals_of goals.now)) < 4294967295 }
    requires stands { StandsFrom (hlds_of search.now.moded.now) first (goals_among (gathered (goals_of goals.now))) }
    ensures next { IfOk result (λ next. next ≡ first + goals_size (gathered (goals_of goals.now))) }
    ensures pairs { OnOk result (pairs.new ≡ pairs.old ++ each_pairs (reading_in search.now) first (gathered (goals_of goals.now))) }
{
    let mut number = first;
    for (place, goal) in goals.iter().enumerate() {
        let next = add_goal(search, goal, number, pairs)?;
        add_led_by(search, goal, number, &goals[place + 1..], next, pairs)?;
        number = next;
    }
    Ok(number)
}

/// The same of arms.
#[cycle(search)]
fn add_arms(search: &Search, arms: &[Goal], first: u32, pairs: &mut Pairs) -> Result<u32, NoMemory>
    requires few { first + goals_size (gathered (goals_of arms.now)) < 4294967295 }
    requires stands { StandsFrom (hlds_of search.now.moded.now) first (goals_among (gathered (goals_of arms.now))) }
    ensures next { IfOk result (λ next. next ≡ first + goals_size (gathered (goals_of arms.now))) }
    ensures pairs { OnOk result (pairs.new ≡ pairs.old ++ arm_pairs (reading_in search.now) first (gathered (goals_of arms.now))) }
{
    let mut number = first;
    for arm in arms {
        number = add_goal(search, arm, number, pairs)?;
    }
    Ok(number)
}

/// Adds the candidates whose first call is this goal. Its number is `number`, and that of the first of the parts behind it
/// is `next`.
fn add_led_by(
    search: &Search,
    goal: &Goal,
    number: u32,
    behind: &[Goal],
    next: u32,
    pairs: &mut Pairs,
) -> Result<(), NoMemory>
    requires few { next + goals_size (gathered (goals_of behind.now)) < 4294967295 }
    requires stands { StandsFrom (hlds_of search.now.moded.now) next (goals_among (gathered (goals_of behind.now))) }
    ensures { OnOk result (pairs.new ≡ pairs.old ++ led_by (reading_in search.now) (costly_call (reading_in search.now) number (goal_of goal.now))
        (binds_in (reading_in search.now) number) (numbered_from next (gathered (goals_of behind.now)))) }
{
    match costly_call(search, goal, number) {
        None => Ok(()),
        Some(first) => add_partners(search, first, number, behind, next, pairs),
    }
}

/// Adds a call, whose number is `number`, with each costly call behind it that doesn't depend on it.
fn add_partners(
    search: &Search,
    first: (SiteId, u64),
    number: u32,
    behind: &[Goal],
    next: u32,
    pairs: &mut Pairs,
) -> Result<(), NoMemory>
    requires few { next + goals_size (gathered (goals_of behind.now)) < 4294967295 }
    requires stands { StandsFrom (hlds_of search.now.moded.now) next (goals_among (gathered (goals_of behind.now))) }
    ensures { OnOk result (pairs.new ≡ pairs.old ++ partners (reading_in search.now) (first.0, first.1) (binds_in (reading_in search.now) number)
        (numbered_from next (gathered (goals_of behind.now)))) }
{
    let mut bound = Vec::new(search.alloc);
    mark(&mut bound, search.moded.binds(number))?;
    let (site, calls) = first;
    let mut place = next;
    for goal in behind {
        add_partner(search, (site, calls), goal, place, &mut bound, pairs)?;
        place = search.moded.after(place);
    }
    Ok(())
}

/// Of a goal behind a call: marks the variables that it binds, where a marked one occurs in it, and else adds the call with it.
fn add_partner(
    search: &Search,
    first: (SiteId, u64),
    goal: &Goal,
    number: u32,
    bound: &mut Vec<bool>,
    pairs: &mut Pairs,
) -> Result<(), NoMemory>
    ensures { OnOk result (TakesIn (reading_in search.now) (first.0, first.1) number (goal_of goal.now) bound.old.items bound.new.items pairs.old pairs.new) }
{
    if mentions(bound, &goal.kind) {
        mark(bound, search.moded.binds(number))
    } else {
        add_pair(search, first, goal, number, pairs)
    }
}

/// Adds a call with another goal, whose number is `number`, where that is a costly call.
fn add_pair(
    search: &Search,
    first: (SiteId, u64),
    goal: &Goal,
    number: u32,
    pairs: &mut Pairs,
) -> Result<(), NoMemory>
    ensures { OnOk result (pairs.new ≡ pairs.old ++ pair_with search.now.owner (first.0, first.1) (costly_call (reading_in search.now) number (goal_of goal.now))) }
{
    let Some((second, b)) = costly_call(search, goal, number) else {
        return Ok(());
    };
    let (first, a) = first;
    pairs.push(Pair {
        proc: search.owner,
        first,
        second,
        a,
        b,
    })
}

/// The site and the total calls of a goal of this number that is a costly call.
fn costly_call(search: &Search, goal: &Goal, number: u32) -> Option<(SiteId, u64)>
    ensures { result ≡ costly_call (reading_in search.now) number (goal_of goal.now) }
{
    match &goal.kind {
        GoalKind::Call(site, ..) => {
            if calls_det(search.moded, number) {
                heavy_call(search.heavy, *site)
            } else {
                None
            }
        }
        GoalKind::True
        | GoalKind::Fail
        | GoalKind::Unify(..)
        | GoalKind::Arith(..)
        | GoalKind::Compare(..)
        | GoalKind::WriteInt(..)
        | GoalKind::WriteStr(..)
        | GoalKind::Nl(..)
        | GoalKind::HoCall(..)
        | GoalKind::Conj(_)
        | GoalKind::Disj(_)
        | GoalKind::If(..)
        | GoalKind::Not(_)
        | GoalKind::Some(..)
        | GoalKind::Error(_) => None,
    }
}

/// Whether the name in the goal of this number stands for a procedure that is declared `det`.
fn calls_det(moded: &Moded, number: u32) -> bool
    ensures { result ≡ calls_det (hlds_of moded.now) number }
{
    match moded.named(number) {
        Named::Functor(_) | Named::Nothing => false,
        Named::Predicate(callee) => match moded.program().pred(callee) {
            None => false,
            Some(pred) => is_det(pred.det),
        },
    }
}

fn is_det(det: Det) -> bool
    ensures { result ≡ is_det det }
{
    match det {
        Det::Det => true,
        Det::Semidet | Det::Multi | Det::Nondet | Det::Failure => false,
    }
}

/// A site with its total calls, where they are many.
fn heavy_call(heavy: &[Option<u64>], site: SiteId) -> Option<(SiteId, u64)>
    ensures { result ≡ call_at site (slice_index_or heavy.now site None) }
{
    match heavy.get(site.number() as usize) {
        Some(Some(total)) => Some((site, *total)),
        Some(None) | None => None,
    }
}
