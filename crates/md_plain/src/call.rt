// What is called, and the frame in which its body begins.
ghost use Rattle.std.specs.Prelude.{◌≡◌, ◌+◌, length, nat_eq, IfOk};
ghost use Rattle.md_hlds.specs.Hlds.{hlds_of, procedure_of};
ghost use Rattle.md_hlds.specs.Trace.{body_frame, entered, pairs_of, without};
ghost use Rattle.md_plain.specs.Values.{parts_of, option_value, env_of};
ghost use Rattle.md_plain.specs.Calls.{called_of, plain_call, by_closure};
ghost use Rattle.md_plain.specs.Names.{option_procedure};
ghost use Rattle.md_plain.specs.Runs.{frame_of};

use crate::arena::{cons, keep};
use crate::env::{blank, given, pairs_of, passed, without};
use crate::goal::{Numbered, body_number};
use crate::job::Frame;
use crate::names::nth_procedure;
use crate::value::{Parts, Value, count, plus};
use bumpalo::Bump;
use md_base::NoMemory;
use md_hlds::{Pred, Program};

/// A call: its site, the procedure, if there is one, the captured values, and the variables of the caller.
#[derive(Clone, Copy)]
pub struct Called<'a> {
    pub site: u32,
    pub procedure: Option<(u64, &'a Pred)>,
    pub held: &'a Parts<'a>,
    pub arguments: &'a [u32],
}

/// A call of this procedure, without captured values.
pub fn plain_call<'a>(
    bump: &'a Bump,
    site: u32,
    procedure: Option<(u64, &'a Pred)>,
    arguments: &'a [u32],
) -> Result<Called<'a>, NoMemory>
    ensures { IfOk result (λ call. called_of call ≡ plain_call site (option_procedure procedure.entry) arguments.now) }
{
    Ok(Called {
        site,
        procedure,
        held: keep(bump, Parts::Nothing)?,
        arguments,
    })
}

/// A call by what a variable has; no value but a closure calls anything.
pub fn called_by<'a>(
    bump: &'a Bump,
    program: &'a Program,
    site: u32,
    value: Option<Value<'a>>,
    arguments: &'a [u32],
) -> Result<Called<'a>, NoMemory>
    ensures { IfOk result (λ call. called_of call ≡ by_closure (hlds_of program.now) site (option_value value.entry) arguments.now) }
{
    match value {
        Some(Value::Closure(number, held)) => Ok(Called {
            site,
            procedure: nth_procedure(program, number),
            held,
            arguments,
        }),
        Some(Value::Number(_) | Value::Literal(_) | Value::Built(..)) | None => {
            plain_call(bump, site, None, arguments)
        }
    }
}

/// Whether a procedure has as many arguments as a call.
#[tactic(auto, using(crate::proofs::ValueLemmas::length_parts))]
pub fn fits(pred: &Pred, called: &Called) -> Result<bool, NoMemory>
    ensures { IfOk result (λ fits. fits ≡ nat_eq (length (parts_of called.now.held.now) + length called.now.arguments.now) (length (procedure_of pred.now).head)) }
{
    let values = plus(count(called.held)?, called.arguments.len() as u64)?;
    Ok(values == pred.head.len() as u64)
}

/// The frame in which the body of a call begins, as this activation.
pub fn body<'a>(
    bump: &'a Bump,
    program: &'a Program,
    caller: &[Option<Value<'a>>],
    act: u64,
    number: u64,
    pred: &'a Pred,
    called: &Called<'a>,
) -> Result<Frame<'a>, NoMemory>
    ensures { IfOk result (λ f. frame_of f ≡ body_frame (hlds_of program.now) act (entered (procedure_of pred.now) (parts_of called.now.held.now) called.now.arguments.now (env_of caller.now)) (number, procedure_of pred.now) (pairs_of (without (parts_of called.now.held.now) (procedure_of pred.now).head) called.now.arguments.now)) }
{
    let head = pred.head.as_slice();
    let pairs = pairs_of(bump, without(called.held, head), called.arguments)?;
    let empty = blank(bump, pred.vars.as_slice())?;
    let captured = given(bump, called.held, head, empty)?;
    let env = passed(bump, pairs, caller, captured)?;
    let first = Numbered {
        number: body_number(program, number)?,
        goal: &pred.body,
    };
    let goals = cons(bump, first, &[])?;
    Ok(Frame {
        act,
        env,
        goals,
        pairs,
    })
}
