// What tells one arm of a switch from another.
ghost use Rattle.std.specs.Prelude.{◌≡◌, ◌<◌};
ghost use Rattle.md_hlds.specs.Hlds.{hlds_of};
ghost use Rattle.md_hlds.specs.HldsGoal.{goal_of};
ghost use Rattle.md_names.specs.Named.{is_functor_name};
ghost use Rattle.md_switch.specs.Reading as spec;
ghost use Rattle.md_switch.specs.Keys.{key_told, tested_told};

use md_hlds::{Goal, GoalKind, Term};
use md_modes::{Moded, Named};

/// What a variable is tested for: an integer, a string, or a functor with the number of its arguments.
#[derive(Clone, Copy, PartialEq, Eq, Hash)]
pub enum Key<'a> {
    Int(i64),
    Text(&'a [u8]),
    Functor(&'a [u8], usize),
}

/// The variable and the key that the arm of this number tests first: the arm, or the first part of the conjunction that it
/// is, is a unification of that variable with a functor or constant.
pub fn arm_key<'a>(moded: &Moded, arm: &'a Goal, number: u32) -> Option<(u32, Key<'a>)>
    requires { number < 4294967295 }
    ensures { tested_told result ≡ spec.read_arm_key (hlds_of moded.now) number (goal_of arm.now) }
{
    match &arm.kind {
        GoalKind::Conj(goals) => match goals.as_slice().first() {
            None => None,
            Some(first) => goal_key(moded, first, number + 1),
        },
        _ => goal_key(moded, arm, number),
    }
}

/// The same of the goal that an arm begins with, which has this number.
fn goal_key<'a>(moded: &Moded, goal: &'a Goal, number: u32) -> Option<(u32, Key<'a>)>
    ensures { tested_told result ≡ spec.read_goal_key (hlds_of moded.now) number (goal_of goal.now) }
{
    match &goal.kind {
        GoalKind::Unify(x, term) => match term_key(moded.named(number), term) {
            None => None,
            Some(key) => Some((*x, key)),
        },
        _ => None,
    }
}

/// The key of a term in which the name stands for this.
fn term_key<'a>(named: Named, term: &'a Term) -> Option<Key<'a>>
    ensures { key_told result ≡ spec.named_key named term.now }
{
    match term {
        Term::Var(_) => None,
        Term::Int(number) => Some(Key::Int(*number)),
        Term::Str(text) => Some(Key::Text(text.as_bytes())),
        Term::Name(name, places) => {
            let arity = places.len();
            if is_functor(named) {
                Some(Key::Functor(name.name.as_bytes(), arity))
            } else {
                None
            }
        }
    }
}

fn is_functor(named: Named) -> bool
    ensures { result ≡ is_functor_name named }
{
    match named {
        Named::Functor(_) => true,
        Named::Predicate(_) | Named::Nothing => false,
    }
}
