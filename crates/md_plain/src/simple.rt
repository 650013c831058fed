// What a simple goal gives in an environment.
ghost use Rattle.std.specs.Prelude.{◌≡◌, ◌+◌, ◌∷◌, [], length, Option, Some, None, IfOk};
ghost use Rattle.std.specs.Fmt.{signed_decimal};
ghost use Rattle.md_hlds.specs.HldsGoal.{expr_of};
ghost use Rattle.md_hlds.specs.declared.goal.Term.TheVariants.{Name};
ghost use Rattle.md_hlds.specs.Hlds.{hlds_of, procedure_called};
ghost use Rattle.md_hlds.specs.Value.{value_at, values_at, bound};
ghost use Rattle.md_hlds.specs.Simple.{goes, answer, unify, unify_values, unify_constant, build, take_apart, take_part, same_functor, unify_functor, close, unify_predicate, unify_name, result_of, holds, compute, compare, write, write_int, write_text, raise, simple};
ghost use Rattle.md_plain.specs.Values.{value_of, values_of, parts_of, option_value, option_parts, env_of};
ghost use Rattle.md_plain.specs.Names.{option_procedure};
ghost use Rattle.md_plain.specs.Outcomes.{outcome_of, outcome_weight, simply};

use crate::arena::keep;
use crate::env::{bound, value_at, values_at};
use crate::names::{is_functor, procedure_called};
use crate::value::{Env, Parts, Value, compare as compare_values, count, plus};
use bumpalo::Bump;
use md_base::NoMemory;
use md_hlds::{Cmp, GoalKind, Op, Pred, PredName, Program, Term};

/// What a simple goal does.
#[derive(Clone, Copy)]
pub enum Outcome<'a> {
    /// It succeeds: the environment after it, its weight less 1, the words that it allocates, what it writes.
    Go(Env<'a>, u64, u64, Option<&'a [u8]>),
    /// It has no solution; its weight less 1.
    No(u64),
    /// It throws these bytes.
    Throws(&'a [u8]),
    /// No rule applies.
    Stop,
}

/// What a goal without parts and calls does; for other goals there is no rule here.
pub fn simple<'a>(
    bump: &'a Bump,
    program: &Program,
    env: Env<'a>,
    kind: &'a GoalKind,
) -> Result<Outcome<'a>, NoMemory>
    ensures { IfOk result (λ o. outcome_of o ≡ simply (hlds_of program.now) (env_of env.now) (expr_of kind.now)) }
{
    match kind {
        GoalKind::True => Ok(Outcome::Go(env, 0, 0, None)),
        GoalKind::Fail => Ok(Outcome::No(0)),
        GoalKind::Unify(x, term) => unify(bump, program, env, *x, term),
        GoalKind::Arith(z, a, op, b) => {
            compute(bump, env, *z, *op, value_at(env, *a), value_at(env, *b))
        }
        GoalKind::Compare(a, cmp, b) => {
            Ok(compare(env, *cmp, value_at(env, *a), value_at(env, *b)))
        }
        GoalKind::WriteInt(x, before, after) => write_int(bump, env, *x, *before, *after),
        GoalKind::WriteStr(x, before, after) => write_text(bump, env, *x, *before, *after),
        GoalKind::Nl(before, after) => write(bump, env, *before, *after, b"\n"),
        GoalKind::Error(x) => Ok(raise(value_at(env, *x))),
        GoalKind::Call(..)
        | GoalKind::HoCall(..)
        | GoalKind::Conj(_)
        | GoalKind::Disj(_)
        | GoalKind::If(..)
        | GoalKind::Not(_)
        | GoalKind::Some(..) => Ok(Outcome::Stop),
    }
}

/// The weight of a simple goal that does this.
pub fn weight_of(outcome: &Outcome) -> Result<u64, NoMemory>
    ensures { IfOk result (λ weight. weight ≡ outcome_weight (outcome_of outcome.now)) }
{
    match outcome {
        Outcome::Go(_, extra, _, _) | Outcome::No(extra) => plus(*extra, 1),
        Outcome::Throws(_) | Outcome::Stop => Ok(1),
    }
}

/// It succeeds with this value for that variable.
fn binds<'a>(
    bump: &'a Bump,
    env: Env<'a>,
    place: u32,
    value: Value<'a>,
) -> Result<Outcome<'a>, NoMemory>
    ensures { IfOk result (λ o. outcome_of o ≡ goes (bound (env_of env.now) place (value_of value.entry))) }
{
    Ok(Outcome::Go(bound(bump, env, place, value)?, 0, 0, None))
}

/// The end of a comparison after some extra pairs.
fn answer<'a>(env: Env<'a>, extra: u64, equal: bool) -> Outcome<'a>
    ensures { outcome_of result ≡ answer (env_of env.now) extra equal }
{
    if equal {
        Outcome::Go(env, extra, 0, None)
    } else {
        Outcome::No(extra)
    }
}

/// X = Y.
fn unify_values<'a>(bump: &'a Bump, env: Env<'a>, x: u32, y: u32) -> Result<Outcome<'a>, NoMemory>
    ensures { IfOk result (λ o. outcome_of o ≡ unify_values (env_of env.now) x y (value_at (env_of env.now) x) (value_at (env_of env.now) y)) }
{
    match value_at(env, x) {
        Some(v) => match value_at(env, y) {
            Some(w) => {
                let found = compare_values(&v, &w)?;
                Ok(answer(env, found.pairs, found.equal))
            }
            None => binds(bump, env, y, v),
        },
        None => match value_at(env, y) {
            Some(w) => binds(bump, env, x, w),
            None => Ok(Outcome::Stop),
        },
    }
}

/// X = an integer or a literal.
fn unify_constant<'a>(
    bump: &'a Bump,
    env: Env<'a>,
    x: u32,
    constant: Value<'a>,
) -> Result<Outcome<'a>, NoMemory>
    ensures { IfOk result (λ o. outcome_of o ≡ unify_constant (env_of env.now) x (value_of constant.entry) (value_at (env_of env.now) x)) }
{
    match value_at(env, x) {
        None => binds(bump, env, x, constant),
        Some(v) => {
            let found = compare_values(&v, &constant)?;
            Ok(answer(env, 0, found.equal))
        }
    }
}

/// X = f(Y1, .., Yn), where X has no value.
fn build<'a>(
    bump: &'a Bump,
    env: Env<'a>,
    x: u32,
    name: &'a [u8],
    variables: &[u32],
) -> Result<Outcome<'a>, NoMemory>
    ensures { IfOk result (λ o. outcome_of o ≡ build (env_of env.now) x (length variables.now) name.now (values_at (env_of env.now) variables.now)) }
{
    let Some(parts) = values_at(bump, env, variables)? else {
        return Ok(Outcome::Stop);
    };
    let arity = variables.len() as u64;
    let new = bound(bump, env, x, Value::Built(name, parts))?;
    Ok(Outcome::Go(new, arity, arity, None))
}

/// X = f(Y1, .., Yn), where X has this functor.
fn take_apart<'a>(
    bump: &'a Bump,
    variables: &[u32],
    parts: &Parts<'a>,
    env: Env<'a>,
    extra: u64,
) -> Result<Outcome<'a>, NoMemory>
    ensures { IfOk result (λ o. outcome_of o ≡ take_apart variables.now (parts_of parts.now) (env_of env.now) extra) }
{
    match variables {
        [] => Ok(Outcome::Go(env, extra, 0, None)),
        [variable, others @ ..] => match parts {
            Parts::Nothing => Ok(Outcome::Go(env, extra, 0, None)),
            Parts::Also(part, rest) => match value_at(env, *variable) {
                None => {
                    let new = bound(bump, env, *variable, *part)?;
                    take_apart(bump, others, rest, new, extra)
                }
                Some(value) => {
                    let found = compare_values(&value, part)?;
                    let extra = plus(extra, found.pairs)?;
                    if !found.equal {
                        return Ok(Outcome::No(extra));
                    }
                    take_apart(bump, others, rest, env, extra)
                }
            },
        },
    }
}

/// X = f(Y1, .., Yn) for a functor f.
fn unify_functor<'a>(
    bump: &'a Bump,
    env: Env<'a>,
    x: u32,
    name: &'a [u8],
    variables: &[u32],
) -> Result<Outcome<'a>, NoMemory>
    ensures { IfOk result (λ o. outcome_of o ≡ unify_functor (env_of env.now) x name.now variables.now (value_at (env_of env.now) x)) }
{
    match value_at(env, x) {
        None => build(bump, env, x, name, variables),
        Some(Value::Built(other, parts)) => {
            if name == other && variables.len() as u64 == count(parts)? {
                return take_apart(bump, variables, parts, env, 0);
            }
            Ok(Outcome::No(0))
        }
        Some(Value::Number(_) | Value::Literal(_) | Value::Closure(..)) => Ok(Outcome::Stop),
    }
}

/// X = q(Y1, .., Yk), where X has no value, for the predicate of this number.
fn close<'a>(
    bump: &'a Bump,
    env: Env<'a>,
    x: u32,
    procedure: u64,
    variables: &[u32],
) -> Result<Outcome<'a>, NoMemory>
    ensures { IfOk result (λ o. outcome_of o ≡ close (env_of env.now) x (length variables.now) procedure (values_at (env_of env.now) variables.now)) }
{
    let Some(held) = values_at(bump, env, variables)? else {
        return Ok(Outcome::Stop);
    };
    let words = plus(variables.len() as u64, 3)?;
    let new = bound(bump, env, x, Value::Closure(procedure, held))?;
    Ok(Outcome::Go(new, words, words, None))
}

/// X = q(Y1, .., Yk) for a predicate q.
fn unify_predicate<'a>(
    bump: &'a Bump,
    env: Env<'a>,
    x: u32,
    variables: &[u32],
    called: Option<(u64, &Pred)>,
) -> Result<Outcome<'a>, NoMemory>
    ensures { IfOk result (λ o. outcome_of o ≡ unify_predicate (env_of env.now) x variables.now (value_at (env_of env.now) x) (option_procedure called.entry)) }
{
    match value_at(env, x) {
        Some(_) => Ok(Outcome::Stop),
        None => match called {
            None => Ok(Outcome::Stop),
            Some((number, _)) => close(bump, env, x, number, variables),
        },
    }
}

/// X = f(Y1, .., Yn), for a functor or a predicate of this name.
fn unify_name<'a>(
    bump: &'a Bump,
    program: &Program,
    env: Env<'a>,
    x: u32,
    name: &'a PredName,
    variables: &[u32],
) -> Result<Outcome<'a>, NoMemory>
    ensures { IfOk result (λ o. outcome_of o ≡ unify (hlds_of program.now) (env_of env.now) x (Name name.now variables.now)) }
{
    if is_functor(program, name, variables.len()) {
        return unify_functor(bump, env, x, name.name.as_bytes(), variables);
    }
    let called = procedure_called(program, name)?;
    unify_predicate(bump, env, x, variables, called)
}

fn unify<'a>(
    bump: &'a Bump,
    program: &Program,
    env: Env<'a>,
    x: u32,
    term: &'a Term,
) -> Result<Outcome<'a>, NoMemory>
    ensures { IfOk result (λ o. outcome_of o ≡ unify (hlds_of program.now) (env_of env.now) x term.now) }
{
    match term {
        Term::Var(y) => unify_values(bump, env, x, *y),
        Term::Int(n) => unify_constant(bump, env, x, Value::Number(*n)),
        Term::Str(text) => unify_constant(bump, env, x, Value::Literal(text.as_bytes())),
        Term::Name(name, variables) => {
            unify_name(bump, program, env, x, name, variables.as_slice())
        }
    }
}

/// Arithmetic wraps at 64 bits.
fn result_of(op: Op, a: i64, b: i64) -> i64
    ensures { result ≡ result_of op a b }
{
    match op {
        Op::Add => a.wrapping_add(b),
        Op::Sub => a.wrapping_sub(b),
        Op::Mul => a.wrapping_mul(b),
    }
}

fn holds(cmp: Cmp, a: i64, b: i64) -> bool
    ensures { result ≡ holds cmp a b }
{
    match cmp {
        Cmp::Lt => a < b,
        Cmp::Le => a <= b,
        Cmp::Gt => a > b,
        Cmp::Ge => a >= b,
    }
}

/// Z = A op B.
fn compute<'a>(
    bump: &'a Bump,
    env: Env<'a>,
    z: u32,
    op: Op,
    a: Option<Value<'a>>,
    b: Option<Value<'a>>,
) -> Result<Outcome<'a>, NoMemory>
    ensures { IfOk result (λ o. outcome_of o ≡ compute (env_of env.now) z op (option_value a.entry) (option_value b.entry) (value_at (env_of env.now) z)) }
{
    match a {
        Some(Value::Number(m)) => match b {
            Some(Value::Number(n)) => match value_at(env, z) {
                None => binds(bump, env, z, Value::Number(result_of(op, m, n))),
                Some(_) => Ok(Outcome::Stop),
            },
            Some(Value::Literal(_) | Value::Built(..) | Value::Closure(..)) | None => Ok(
                Outcome::Stop,
            ),
        },
        Some(Value::Literal(_) | Value::Built(..) | Value::Closure(..)) | None => Ok(Outcome::Stop),
    }
}

fn compare<'a>(env: Env<'a>, cmp: Cmp, a: Option<Value<'a>>, b: Option<Value<'a>>) -> Outcome<'a>
    ensures { outcome_of result ≡ compare (env_of env.now) cmp (option_value a.entry) (option_value b.entry) }
{
    match a {
        Some(Value::Number(m)) => match b {
            Some(Value::Number(n)) => answer(env, 0, holds(cmp, m, n)),
            Some(Value::Literal(_) | Value::Built(..) | Value::Closure(..)) | None => Outcome::Stop,
        },
        Some(Value::Literal(_) | Value::Built(..) | Value::Closure(..)) | None => Outcome::Stop,
    }
}

/// These bytes are written, and the second io variable gets the state.
fn write<'a>(
    bump: &'a Bump,
    env: Env<'a>,
    before: u32,
    after: u32,
    bytes: &'a [u8],
) -> Result<Outcome<'a>, NoMemory>
    ensures { IfOk result (λ o. outcome_of o ≡ write (env_of env.now) after bytes.now (value_at (env_of env.now) before) (value_at (env_of env.now) after)) }
{
    match value_at(env, before) {
        None => Ok(Outcome::Stop),
        Some(_) => match value_at(env, after) {
            Some(_) => Ok(Outcome::Stop),
            None => {
                let new = bound(bump, env, after, Value::Number(0))?;
                Ok(Outcome::Go(new, bytes.len() as u64, 0, Some(bytes)))
            }
        },
    }
}

fn write_int<'a>(
    bump: &'a Bump,
    env: Env<'a>,
    x: u32,
    before: u32,
    after: u32,
) -> Result<Outcome<'a>, NoMemory>
    ensures { IfOk result (λ o. outcome_of o ≡ write_int (env_of env.now) after (value_at (env_of env.now) x) (value_at (env_of env.now) before) (value_at (env_of env.now) after)) }
{
    match value_at(env, x) {
        Some(Value::Number(n)) => write(bump, env, before, after, digits(bump, n)?),
        Some(Value::Literal(_) | Value::Built(..) | Value::Closure(..)) | None => Ok(Outcome::Stop),
    }
}

/// An integer in decimal.
fn digits<'a>(bump: &'a Bump, n: i64) -> Result<&'a [u8], NoMemory>
    ensures { IfOk result (λ digits. digits.now ≡ signed_decimal n) }
{
    let text = format!(in bump; "{n}")?;
    let digits = bump.try_alloc_slice_copy(text.as_bytes())?;
    Ok(digits)
}

fn write_text<'a>(
    bump: &'a Bump,
    env: Env<'a>,
    x: u32,
    before: u32,
    after: u32,
) -> Result<Outcome<'a>, NoMemory>
    ensures { IfOk result (λ o. outcome_of o ≡ write_text (env_of env.now) after (value_at (env_of env.now) x) (value_at (env_of env.now) before) (value_at (env_of env.now) after)) }
{
    match value_at(env, x) {
        Some(Value::Literal(bytes)) => write(bump, env, before, after, bytes),
        Some(Value::Number(_) | Value::Built(..) | Value::Closure(..)) | None => Ok(Outcome::Stop),
    }
}

/// An exception with the bytes of a literal.
fn raise<'a>(value: Option<Value<'a>>) -> Outcome<'a>
    ensures { outcome_of result ≡ raise (option_value value.entry) }
{
    match value {
        Some(Value::Literal(bytes)) => Outcome::Throws(bytes),
        Some(Value::Number(_) | Value::Built(..) | Value::Closure(..)) | None => Outcome::Stop,
    }
}
