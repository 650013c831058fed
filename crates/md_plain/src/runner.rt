// The run of a program within a budget of steps.
ghost use Rattle.std.specs.Prelude.{◌≡◌, Some, IfOk};
ghost use Rattle.md_hlds.specs.Hlds.{hlds_of, procedures_of, procedure_of, is_called, find_procedure, procedure_called};
ghost use Rattle.md_hlds.specs.Run.{run, main_name, main_env, main_frame};
ghost use Rattle.md_plain.specs.Values.{env_of};
ghost use Rattle.md_plain.specs.Names.{option_procedure};
ghost use Rattle.md_plain.specs.Told.{start, closed};
ghost use Rattle.md_plain.specs.Runs.{frame_of, items_told, made_of, run_of, told_of};

use crate::arena::{cons, keep};
use crate::env::{blank, bound};
use crate::goal::{Numbered, body_number, call_weight};
use crate::job::{Frame, Job};
use crate::told::{End, Item, Made, Run, Told, call, gather, put, turn};
use crate::trace::{Maker, trace};
use crate::value::{Env, Value, next};
use bumpalo::Bump;
use bumpalo::collections::into_bump_slice;
use md_base::NoMemory;
use md_hlds::{Pred, Program};

/// The greatest budget: a call of the program nests for each goal that a run is at, and the stack has to hold them.
const MOST: u32 = 20_000;

/// The run of a program within a budget of steps, item by item: it is the definition's, whatever the program. All that
/// the run makes stays in the arena. `NoMemory` comes where the arena can't grow, where a counter would pass its end, and
/// where the budget is more than 20,000.
pub fn run<'a>(
    bump: &'a Bump,
    program: &'a Program,
    budget: u32,
) -> Result<&'a [Item<'a>], NoMemory>
    ensures { IfOk result (λ items. items_told items.now ≡ run (hlds_of program.now) budget) }
{
    if budget > MOST {
        return Err(NoMemory);
    }
    let found = find_main(program.preds.as_slice(), 0)?;
    match found {
        None => Ok(&[]),
        Some((number, main)) => run_main(bump, program, budget as u64, number, main),
    }
}

/// The run of a program whose `main` is this.
fn run_main<'a>(
    bump: &'a Bump,
    program: &'a Program,
    budget: u64,
    number: u64,
    main: &'a Pred,
) -> Result<&'a [Item<'a>], NoMemory>
    requires { Some (number, procedure_of main.now) ≡ procedure_called (hlds_of program.now) main_name }
    ensures { IfOk result (λ items. items_told items.now ≡ run (hlds_of program.now) budget) }
{
    let weight = call_weight(main)?;
    let nothing = start(bump, budget)?;
    let made = turn(bump, nothing, 0, None, weight)?;
    match made {
        None => Ok(&[]),
        Some(turned) => {
            let begun = call(bump, turned, None, None, number)?;
            let frame = main_frame(bump, program, number, main)?;
            let job = Job {
                frame,
                callers: &[],
            };
            let told = trace(&Maker { bump, program }, budget, &job, begun)?;
            let all = closed(bump, &told)?;
            listed(bump, all)
        }
    }
}

/// Nothing has been told, and this is the budget.
fn start<'a>(bump: &'a Bump, budget: u64) -> Result<Run<'a>, NoMemory>
    ensures { IfOk result (λ r. run_of r ≡ start budget) }
{
    let items = keep(bump, Made::Nothing)?;
    Ok(Run {
        items,
        left: budget,
        next: 0,
    })
}

/// Items in order.
fn listed<'a>(bump: &'a Bump, made: &Made<'a>) -> Result<&'a [Item<'a>], NoMemory>
    ensures { IfOk result (λ items. items_told items.now ≡ made_of made.now) }
{
    let mut items = Vec::new(bump);
    gather(&mut items, made)?;
    Ok(into_bump_slice(items))
}

/// What has been told in the end: main's exit with its answer, or its fail.
fn closed<'a>(bump: &'a Bump, told: &Told<'a>) -> Result<&'a Made<'a>, NoMemory>
    ensures { IfOk result (λ made. made_of made.now ≡ closed (told_of told.now)) }
{
    let run = told.run;
    match told.end {
        End::Answered(env) => {
            let exited = put(bump, run, Item::Exit(0))?;
            Ok(put(bump, exited, Item::Answer(env))?.items)
        }
        End::Missed => Ok(put(bump, run, Item::Fail(0))?.items),
        End::Thrown => Ok(run.items),
        End::Over => Ok(run.items),
    }
}

/// The first procedure that is called `main`, with its number, counted on from `number`.
fn find_main<'a>(preds: &'a [Pred], number: u64) -> Result<Option<(u64, &'a Pred)>, NoMemory>
    ensures { IfOk result (λ found. option_procedure found ≡ find_procedure main_name number (procedures_of preds.now)) }
{
    match preds {
        [] => Ok(None),
        [pred, rest @ ..] => {
            if is_main(pred) {
                return Ok(Some((number, pred)));
            }
            find_main(rest, next(number)?)
        }
    }
}

fn is_main(pred: &Pred) -> bool
    ensures { result ≡ is_called main_name (procedure_of pred.now) }
{
    match pred.qualifier {
        None => b"main".as_slice() == pred.name.as_bytes(),
        Some(_) => false,
    }
}

/// The frame in which main's body begins.
fn main_frame<'a>(
    bump: &'a Bump,
    program: &'a Program,
    number: u64,
    main: &'a Pred,
) -> Result<Frame<'a>, NoMemory>
    ensures { IfOk result (λ f. frame_of f ≡ main_frame (hlds_of program.now) (number, procedure_of main.now)) }
{
    let empty = blank(bump, main.vars.as_slice())?;
    let env = main_env(bump, empty, main.head.as_slice())?;
    let first = Numbered {
        number: body_number(program, number)?,
        goal: &main.body,
    };
    Ok(Frame {
        act: 0,
        env,
        goals: cons(bump, first, &[])?,
        pairs: &[],
    })
}

/// Main's first head variable has the io state.
fn main_env<'a>(bump: &'a Bump, env: Env<'a>, head: &[u32]) -> Result<Env<'a>, NoMemory>
    ensures { IfOk result (λ new. env_of new.now ≡ main_env (env_of env.now) head.now) }
{
    match head {
        [] => Ok(env),
        [first, ..] => bound(bump, env, *first, Value::Number(0)),
    }
}
