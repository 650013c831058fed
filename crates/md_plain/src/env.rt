// Environments: the values of a clause's variables by their places.
ghost use Rattle.std.specs.Prelude.{◌≡◌, ◌∷◌, length, IfOk};
ghost use Rattle.md_hlds.specs.Value.{value_at, values_at, bound, blank};
ghost use Rattle.md_hlds.specs.Trace.{back, back_value, passed, given, without, pairs_of};
ghost use Rattle.md_plain.specs.Values.{value_of, parts_of, option_value, option_parts, env_of};

use crate::arena::{cons, keep};
use crate::value::{Env, Parts, Value};
use bumpalo::Bump;
use md_base::{Name, NoMemory};

/// The value of the variable at a place; a place past the end has none.
pub fn value_at<'a>(env: &[Option<Value<'a>>], place: u32) -> Option<Value<'a>>
    ensures { option_value result ≡ value_at (env_of env.now) place }
{
    let place = place as usize;
    if place < env.len() { env[place] } else { None }
}

/// The values of these variables, where each has one.
pub fn values_at<'a>(
    bump: &'a Bump,
    env: &[Option<Value<'a>>],
    variables: &[u32],
) -> Result<Option<&'a Parts<'a>>, NoMemory>
    ensures { IfOk result (λ values. option_parts values ≡ values_at (env_of env.now) variables.now) }
{
    match variables {
        [] => Ok(Some(keep(bump, Parts::Nothing)?)),
        [first, rest @ ..] => {
            let Some(value) = value_at(env, *first) else {
                return Ok(None);
            };
            let Some(values) = values_at(bump, env, rest)? else {
                return Ok(None);
            };
            Ok(Some(keep(bump, Parts::Also(value, values))?))
        }
    }
}

/// The environment with this value at that place; past the end it has no place.
pub fn bound<'a>(
    bump: &'a Bump,
    env: &[Option<Value<'a>>],
    place: u32,
    value: Value<'a>,
) -> Result<Env<'a>, NoMemory>
    ensures { IfOk result (λ new. env_of new.now ≡ bound (env_of env.now) place (value_of value.entry)) }
{
    let place = place as usize;
    let new = bump.try_alloc_slice_copy(env)?;
    if place < new.len() {
        new[place] = Some(value);
        Ok(new)
    } else {
        Ok(new)
    }
}

/// An environment for these variables, none of which has a value.
pub fn blank<'a>(bump: &'a Bump, names: &[Name]) -> Result<Env<'a>, NoMemory>
    ensures { IfOk result (λ new. env_of new.now ≡ blank (length names.now)) }
{
    match names {
        [] => Ok(&[]),
        [_, rest @ ..] => cons(bump, None, blank(bump, rest)?),
    }
}

/// Each variable of the caller that has no value gets the value of its variable of the head.
pub fn back<'a>(
    bump: &'a Bump,
    pairs: &[(u32, u32)],
    callee: &[Option<Value<'a>>],
    caller: Env<'a>,
) -> Result<Env<'a>, NoMemory>
    ensures { IfOk result (λ new. env_of new.now ≡ back pairs.now (env_of callee.now) (env_of caller.now)) }
{
    match pairs {
        [] => Ok(caller),
        [pair, rest @ ..] => {
            let had = value_at(caller, pair.1);
            let value = value_at(callee, pair.0);
            let caller = back_value(bump, pair.1, had, value, caller)?;
            back(bump, rest, callee, caller)
        }
    }
}

/// Each variable of the head gets the value of its argument, if that has one.
pub fn passed<'a>(
    bump: &'a Bump,
    pairs: &[(u32, u32)],
    caller: &[Option<Value<'a>>],
    callee: Env<'a>,
) -> Result<Env<'a>, NoMemory>
    ensures { IfOk result (λ new. env_of new.now ≡ passed pairs.now (env_of caller.now) (env_of callee.now)) }
{
    match pairs {
        [] => Ok(callee),
        [pair, rest @ ..] => {
            let value = value_at(caller, pair.1);
            let callee = back_value(bump, pair.0, None, value, callee)?;
            passed(bump, rest, caller, callee)
        }
    }
}

/// The first variables of the head get the captured values.
pub fn given<'a>(
    bump: &'a Bump,
    held: &Parts<'a>,
    head: &[u32],
    callee: Env<'a>,
) -> Result<Env<'a>, NoMemory>
    ensures { IfOk result (λ new. env_of new.now ≡ given (parts_of held.now) head.now (env_of callee.now)) }
{
    match held {
        Parts::Nothing => Ok(callee),
        Parts::Also(value, values) => match head {
            [] => Ok(callee),
            [first, rest @ ..] => {
                let callee = bound(bump, callee, *first, *value)?;
                given(bump, values, rest, callee)
            }
        },
    }
}

/// The variables of the head that no captured value is for.
pub fn without<'a>(held: &Parts, head: &'a [u32]) -> &'a [u32]
    ensures { result.now ≡ without (parts_of held.now) head.now }
{
    match held {
        Parts::Nothing => head,
        Parts::Also(_, values) => match head {
            [] => head,
            [_, rest @ ..] => without(values, rest),
        },
    }
}

/// The variables of the head beside the variables of the caller in their places.
pub fn pairs_of<'a>(
    bump: &'a Bump,
    head: &[u32],
    arguments: &[u32],
) -> Result<&'a [(u32, u32)], NoMemory>
    ensures { IfOk result (λ pairs. pairs.now ≡ pairs_of head.now arguments.now) }
{
    match head {
        [] => Ok(&[]),
        [variable, variables @ ..] => match arguments {
            [] => Ok(&[]),
            [argument, others @ ..] => {
                cons(
                    bump,
                    (*variable, *argument),
                    pairs_of(bump, variables, others)?,
                )
            }
        },
    }
}

/// A variable that had no value gets this one.
fn back_value<'a>(
    bump: &'a Bump,
    place: u32,
    had: Option<Value<'a>>,
    value: Option<Value<'a>>,
    env: Env<'a>,
) -> Result<Env<'a>, NoMemory>
    ensures { IfOk result (λ new. env_of new.now ≡ back_value place (option_value had.entry) (option_value value.entry) (env_of env.now)) }
{
    match had {
        Some(_) => Ok(env),
        None => match value {
            Some(value) => bound(bump, env, place, value),
            None => Ok(env),
        },
    }
}
