// The call sites of a program.
ghost use Rattle.std.specs.Prelude.{◌≡◌, ◌+◌, ◌<◌, [], ◌∷◌, ◌++◌, IfOk, OnOk};
ghost use Rattle.md_hlds.specs.HldsGoal.{goal_of, goals_of, gathered, goal_size, goals_size};
ghost use Rattle.md_hlds.specs.Hlds.{hlds_of};
ghost use Rattle.md_ports.specs.Ports.{site_at, sites_from};
ghost use Rattle.md_ports.specs.Reading.{kind_at, read_goal, read_goals};

use md_base::{NoMemory, ProcId};
use md_hlds::{Goal, GoalKind};
use md_modes::{Moded, Named};
use md_static::{Site, SiteKind};
use std::alloc::Global;

/// The call sites of a program, in text order.
pub(crate) fn sites_of(alloc: Global, moded: &Moded) -> Result<Vec<Site>, NoMemory>
    ensures { IfOk result (λ sites. sites.items ≡ sites_from (hlds_of moded.now) 0 (hlds_of moded.now).procedures) }
{
    let mut sites = Vec::new(alloc);
    let mut number = 0;
    for (place, pred) in moded.program().preds.iter().enumerate() {
        let owner = ProcId::new(place as u32);
        number = add_sites(moded, owner, &pred.body, number, &mut sites)?;
    }
    Ok(sites)
}

/// Adds the call sites of a goal of this number and of the goals within it, which stand in the clause of this procedure, and
/// gives the number that comes after theirs.
#[cycle(sites)]
fn add_sites(
    moded: &Moded,
    owner: ProcId,
    goal: &Goal,
    number: u32,
    sites: &mut Vec<Site>,
) -> Result<u32, NoMemory>
    requires few { number + goal_size (goal_of goal.now) < 4294967295 }
    ensures next { IfOk result (λ next. next ≡ number + goal_size (goal_of goal.now)) }
    ensures sites { OnOk result (sites.new.items ≡ sites.old.items ++ read_goal (hlds_of moded.now) owner number (goal_of goal.now)) }
{
    let inner = number + 1;
    match &goal.kind {
        GoalKind::Call(..) | GoalKind::HoCall(..) => {
            add_site(sites, owner, goal.line, kind_of(moded, number))?;
            Ok(inner)
        }
        GoalKind::Conj(goals) => add_all(moded, owner, goals.as_slice(), inner, sites),
        GoalKind::Disj(arms) => add_all(moded, owner, arms.as_slice(), inner, sites),
        GoalKind::If(condition, then, otherwise) => {
            let second = add_sites(moded, owner, condition, inner, sites)?;
            let third = add_sites(moded, owner, then, second, sites)?;
            add_sites(moded, owner, otherwise, third, sites)
        }
        GoalKind::Not(part) => add_sites(moded, owner, part, inner, sites),
        GoalKind::Some(_, part) => add_sites(moded, owner, part, inner, sites),
        GoalKind::True
        | GoalKind::Fail
        | GoalKind::Unify(..)
        | GoalKind::Arith(..)
        | GoalKind::Compare(..)
        | GoalKind::WriteInt(..)
        | GoalKind::WriteStr(..)
        | GoalKind::Nl(..)
        | GoalKind::Error(_) => Ok(inner),
    }
}

/// The same of goals one after the other, the first of which has this number.
#[cycle(sites)]
fn add_all(
    moded: &Moded,
    owner: ProcId,
    goals: &[Goal],
    first: u32,
    sites: &mut Vec<Site>,
) -> Result<u32, NoMemory>
    requires few { first + goals_size (gathered (goals_of goals.now)) < 4294967295 }
    ensures next { IfOk result (λ next. next ≡ first + goals_size (gathered (goals_of goals.now))) }
    ensures sites { OnOk result (sites.new.items ≡ sites.old.items ++ read_goals (hlds_of moded.now) owner first (gathered (goals_of goals.now))) }
{
    let mut number = first;
    for goal in goals {
        number = add_sites(moded, owner, goal, number, sites)?;
    }
    Ok(number)
}

fn add_site(sites: &mut Vec<Site>, owner: ProcId, line: u32, kind: SiteKind) -> Result<(), NoMemory>
    ensures { OnOk result (sites.new.items ≡ sites.old.items ++ site_at owner line kind ∷ []) }
{
    sites.push(Site { owner, line, kind })?;
    Ok(())
}

/// What the call of this number calls: the procedure that its name stands for, or a closure, where it has none.
fn kind_of(moded: &Moded, number: u32) -> SiteKind
    ensures { result ≡ kind_at (hlds_of moded.now) number }
{
    match moded.named(number) {
        Named::Predicate(callee) => SiteKind::Plain(callee),
        Named::Functor(_) | Named::Nothing => SiteKind::HigherOrder,
    }
}
