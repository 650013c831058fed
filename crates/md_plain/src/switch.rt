// The shape of a switch, and the arm of a value.
ghost use Rattle.std.specs.Prelude.{ℕ, ◌≡◌, ◌∷◌, true, length, Option, Some, None, IfOk};
ghost use Rattle.md_hlds.specs.HldsGoal.{HldsGoal, At, ConjGoal, goal_of, goals_of, gathered, expr_of, numbered_from};
ghost use Rattle.md_hlds.specs.Hlds.{hlds_of};
ghost use Rattle.md_hlds.specs.Switch.{same_key, term_key, variable_key, goal_key, arm_key, prepend_key, keys_of, has_key, all_different, if_different, switch_on, switch_shape, has_the_key, arm_for};
ghost use Rattle.md_plain.specs.Values.{value_of, env_of};
ghost use Rattle.md_plain.specs.Goals.{numbereds_of, option_numbered};
ghost use Rattle.md_plain.specs.Keys.{key_of, keys_told, option_key, variable_key_told, option_keys, shape_told, chosen};

use crate::arena::cons;
use crate::env::value_at;
use crate::goal::{Numbered, numbered_from};
use crate::names::is_functor;
use crate::value::{Value, count};
use bumpalo::Bump;
use md_base::NoMemory;
use md_hlds::{Goal, GoalKind, Program, Term};

/// What tells one arm from another.
#[derive(Clone, Copy)]
pub enum Key<'a> {
    Int(i64),
    Text(&'a [u8]),
    Functor(&'a [u8], u64),
}

/// The arms of a disjunction that are tried, with their numbers, the first of which is given: of a switch on a variable that
/// has a value one at most, else all.
pub fn arms_of<'a>(
    bump: &'a Bump,
    program: &Program,
    env: &[Option<Value<'a>>],
    number: u64,
    arms: &'a [Goal],
) -> Result<&'a [Numbered<'a>], NoMemory>
    ensures { IfOk result (λ all. numbereds_of all.now ≡ chosen (env_of env.now) (numbered_from number (gathered (goals_of arms.now))) (switch_shape (hlds_of program.now) (gathered (goals_of arms.now)))) }
{
    let all = numbered_from(bump, number, arms, &[])?;
    let Some((variable, keys)) = switch_shape(bump, program, arms)? else {
        return Ok(all);
    };
    let Some(value) = value_at(env, variable) else {
        return Ok(all);
    };
    match arm_for(&value, keys, all)? {
        None => Ok(&[]),
        Some(arm) => cons(bump, arm, &[]),
    }
}

/// The variable and the keys of a disjunction that has the shape of a switch.
fn switch_shape<'a>(
    bump: &'a Bump,
    program: &Program,
    arms: &'a [Goal],
) -> Result<Option<(u32, &'a [Key<'a>])>, NoMemory>
    ensures { IfOk result (λ shape. shape_told shape ≡ switch_shape (hlds_of program.now) (gathered (goals_of arms.now))) }
{
    match arms {
        [] => Ok(None),
        [first, ..] => switch_on(bump, program, arm_key(program, first), arms),
    }
}

/// The arm whose key the value has.
fn arm_for<'a>(
    value: &Value,
    keys: &[Key],
    arms: &[Numbered<'a>],
) -> Result<Option<Numbered<'a>>, NoMemory>
    ensures { IfOk result (λ arm. option_numbered arm ≡ arm_for (value_of value.now) (keys_told keys.now) (numbereds_of arms.now)) }
{
    match keys {
        [] => Ok(None),
        [key, others @ ..] => match arms {
            [] => Ok(None),
            [arm, rest @ ..] => {
                if has_the_key(value, key)? {
                    return Ok(Some(*arm));
                }
                arm_for(value, others, rest)
            }
        },
    }
}

fn switch_on<'a>(
    bump: &'a Bump,
    program: &Program,
    key: Option<(u32, Key<'a>)>,
    arms: &'a [Goal],
) -> Result<Option<(u32, &'a [Key<'a>])>, NoMemory>
    ensures { IfOk result (λ shape. shape_told shape ≡ switch_on (hlds_of program.now) (variable_key_told key.entry) (gathered (goals_of arms.now))) }
{
    let Some((variable, _)) = key else {
        return Ok(None);
    };
    let Some(keys) = keys_of(bump, program, variable, arms)? else {
        return Ok(None);
    };
    if all_different(keys) {
        return Ok(Some((variable, keys)));
    }
    Ok(None)
}

/// The arms' keys, where each arm has one and all are of this variable.
fn keys_of<'a>(
    bump: &'a Bump,
    program: &Program,
    variable: u32,
    arms: &'a [Goal],
) -> Result<Option<&'a [Key<'a>]>, NoMemory>
    ensures { IfOk result (λ keys. option_keys keys ≡ keys_of (hlds_of program.now) variable (gathered (goals_of arms.now))) }
{
    match arms {
        [] => Ok(Some(&[])),
        [first, rest @ ..] => match arm_key(program, first) {
            None => Ok(None),
            Some(key) => with_key(bump, variable, key, keys_of(bump, program, variable, rest)?),
        },
    }
}

/// The key of an arm and those of the arms behind it, where it is of this variable.
fn with_key<'a>(
    bump: &'a Bump,
    variable: u32,
    key: (u32, Key<'a>),
    keys: Option<&'a [Key<'a>]>,
) -> Result<Option<&'a [Key<'a>]>, NoMemory>
    ensures { IfOk result (λ all. option_keys all ≡ prepend_key variable (variable_key_told (Some key.entry)) (option_keys keys.entry)) }
{
    let Some(keys) = keys else {
        return Ok(None);
    };
    if variable == key.0 {
        return Ok(Some(cons(bump, key.1, keys)?));
    }
    Ok(None)
}

/// The variable and the key of an arm: its first direct part decides, where it is a conjunction.
fn arm_key<'a>(program: &Program, arm: &'a Goal) -> Option<(u32, Key<'a>)>
    ensures { variable_key_told result ≡ arm_key (hlds_of program.now) (goal_of arm.now) }
{
    match &arm.kind {
        GoalKind::Conj(parts) => first_key(program, parts.as_slice()),
        GoalKind::Unify(variable, term) => variable_key(*variable, term_key(program, term)),
        _ => None,
    }
}

fn first_key<'a>(program: &Program, parts: &'a [Goal]) -> Option<(u32, Key<'a>)>
    ensures { (l : ℕ) → variable_key_told result ≡ arm_key (hlds_of program.now) (At l (ConjGoal (gathered (goals_of parts.now)))) }
{
    match parts {
        [] => None,
        [first, ..] => goal_key(program, first),
    }
}

fn goal_key<'a>(program: &Program, goal: &'a Goal) -> Option<(u32, Key<'a>)>
    ensures { variable_key_told result ≡ goal_key (hlds_of program.now) (goal_of goal.now) }
{
    match &goal.kind {
        GoalKind::Unify(variable, term) => variable_key(*variable, term_key(program, term)),
        _ => None,
    }
}

fn variable_key<'a>(variable: u32, key: Option<Key<'a>>) -> Option<(u32, Key<'a>)>
    ensures { variable_key_told result ≡ variable_key variable (option_key key.entry) }
{
    match key {
        None => None,
        Some(key) => Some((variable, key)),
    }
}

/// The key that a unification with this term tests, if it is one with a functor or constant.
fn term_key<'a>(program: &Program, term: &'a Term) -> Option<Key<'a>>
    ensures { option_key result ≡ term_key (hlds_of program.now) term.now }
{
    match term {
        Term::Var(_) => None,
        Term::Int(n) => Some(Key::Int(*n)),
        Term::Str(text) => Some(Key::Text(text.as_bytes())),
        Term::Name(name, arguments) => {
            if is_functor(program, name, arguments.len()) {
                return Some(Key::Functor(name.name.as_bytes(), arguments.len() as u64));
            }
            None
        }
    }
}

fn all_different(keys: &[Key]) -> bool
    ensures { result ≡ all_different (keys_told keys.now) }
{
    match keys {
        [] => true,
        [first, rest @ ..] => !has_key(first, rest) && all_different(rest),
    }
}

fn has_key(key: &Key, keys: &[Key]) -> bool
    ensures { result ≡ has_key (key_of key.now) (keys_told keys.now) }
{
    match keys {
        [] => false,
        [first, rest @ ..] => same_key(key, first) || has_key(key, rest),
    }
}

fn same_key(one: &Key, other: &Key) -> bool
    ensures { result ≡ same_key (key_of one.now) (key_of other.now) }
{
    match one {
        Key::Int(m) => match other {
            Key::Int(n) => *m == *n,
            Key::Text(_) | Key::Functor(..) => false,
        },
        Key::Text(a) => match other {
            Key::Text(b) => *a == *b,
            Key::Int(_) | Key::Functor(..) => false,
        },
        Key::Functor(f, m) => match other {
            Key::Functor(g, n) => *f == *g && *m == *n,
            Key::Int(_) | Key::Text(_) => false,
        },
    }
}

/// Whether a value has the functor or constant of a key.
fn has_the_key(value: &Value, key: &Key) -> Result<bool, NoMemory>
    ensures { IfOk result (λ has. has ≡ has_the_key (value_of value.now) (key_of key.now)) }
{
    match value {
        Value::Number(m) => match key {
            Key::Int(n) => Ok(*m == *n),
            Key::Text(_) | Key::Functor(..) => Ok(false),
        },
        Value::Literal(a) => match key {
            Key::Text(b) => Ok(*a == *b),
            Key::Int(_) | Key::Functor(..) => Ok(false),
        },
        Value::Built(f, parts) => match key {
            Key::Functor(g, arity) => Ok(*f == *g && count(parts)? == *arity),
            Key::Int(_) | Key::Text(_) => Ok(false),
        },
        Value::Closure(..) => match key {
            Key::Int(_) => Ok(false),
            Key::Text(_) | Key::Functor(..) => Ok(false),
        },
    }
}
