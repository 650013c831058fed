// Disjunctions: which are switches, and what the pairs of their arms come to.
ghost use Rattle.std.specs.Prelude.{◌≡◌, ◌<◌, IfOk};
ghost use Rattle.md_hlds.specs.HldsGoal.{goals_of, gathered};
ghost use Rattle.md_det.specs.Switches.{variable_of};
ghost use Rattle.md_det.specs.Judge as spec;
ghost use Rattle.md_det.specs.Told.{reading_in};

use crate::atomic::is_apart;
use crate::context::Context;
use crate::finding::Switch;
use crate::pair::{Bound, Pair};
use crate::switch::is_whole;
use md_base::NoMemory;
use md_hlds::{Goal, GoalKind};
use md_switch::shape_of;

/// The switch that a disjunction of these arms is, where the first of them has this number.
#[inline(never)]
pub fn find_switch(
    context: &Context,
    arms: &[Goal],
    number: u32,
) -> Result<Option<Switch>, NoMemory>
    requires { number < 4294967295 }
    ensures { IfOk result (λ switch. switch ≡ spec.read_switch (reading_in context.now) number (gathered (goals_of arms.now))) }
{
    let first = first_goal(arms, number);
    if !is_apart(context.moded, first) {
        return Ok(None);
    }
    match shape_of(context.alloc, context.moded, arms, number)? {
        None => Ok(None),
        Some(shape) => {
            let whole = is_whole(context.moded, first, &shape.keys);
            Ok(Some(Switch {
                var: shape.var,
                whole,
            }))
        }
    }
}

/// The number of the goal that the first arm begins with.
fn first_goal(arms: &[Goal], number: u32) -> u32
    requires { number < 4294967295 }
    ensures { result ≡ spec.first_goal number (gathered (goals_of arms.now)) }
{
    match arms.first() {
        None => number,
        Some(first) => match &first.kind {
            GoalKind::Conj(_) => number + 1,
            _ => number,
        },
    }
}

/// The variable of a switch.
pub fn variable_of(switch: Option<Switch>) -> Option<u32>
    ensures { result ≡ variable_of switch }
{
    match switch {
        None => None,
        Some(switch) => Some(switch.var),
    }
}

/// Where no arm of a switch is for the value, it fails.
pub fn if_missing(switch: Option<Switch>, arms: Pair) -> Pair
    ensures { result ≡ spec.if_missing switch arms }
{
    match switch {
        None => arms,
        Some(switch) => Pair {
            may_fail: arms.may_fail || !switch.whole,
            bound: arms.bound,
        },
    }
}

/// One arm beside others, of a switch on that variable or of no switch.
pub fn beside(at: Option<u32>, others: Pair, arm: Pair) -> Pair
    ensures { result ≡ spec.beside at others arm }
{
    match at {
        None => others.or_else(arm),
        Some(_) => others.or(arm),
    }
}

/// No arm at all.
pub fn no_arm(at: Option<u32>) -> Pair
    ensures { result ≡ spec.no_arm at }
{
    Pair {
        may_fail: at.is_none(),
        bound: Bound::Zero,
    }
}
