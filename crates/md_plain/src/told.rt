// What is told of a run, item by item.
ghost use Rattle.std.specs.Prelude.{[], ◌≡◌, ◌∷◌, ◌++◌, IfOk, OnOk};
ghost use Rattle.md_hlds.specs.Trace.{Redo, Fail, excps};
ghost use Rattle.md_plain.specs.Values.{env_of};
ghost use Rattle.md_plain.specs.Outcomes.{bytes_told};
ghost use Rattle.md_plain.specs.Told.{ended, put, called, turn, allocating, writing, leaves, then_misses};
ghost use Rattle.md_plain.specs.Runs.{frames_of, item_of, items_told, made_of, run_of, option_run, end_of, told_of};

use crate::arena::keep;
use crate::job::Frame;
use crate::value::{Env, Value, next};
use bumpalo::Bump;
use md_base::NoMemory;

/// An item of a run.
#[derive(Clone, Copy)]
pub enum Item<'a> {
    /// The goal of that number is unfolded by the activation, at a weight; the call of main is no goal.
    Turn(u64, Option<u64>, u64),
    /// The activation, its caller, the call site and the procedure.
    Call(u64, Option<u64>, Option<u32>, u64),
    Exit(u64),
    Redo(u64),
    Fail(u64),
    Excp(u64),
    /// An allocation by the activation of so many words.
    Alloc(u64, u64),
    /// Bytes are written.
    Out(&'a [u8]),
    /// An exception is thrown.
    Throw(&'a [u8]),
    /// A solution of main: the values of its variables.
    Answer(Env<'a>),
    /// No rule applies.
    Stuck,
    /// The depth doesn't suffice; no run has it.
    Deep,
}

/// Items, the newest of which is outermost.
#[derive(Clone, Copy)]
pub enum Made<'a> {
    Nothing,
    Also(&'a Made<'a>, Item<'a>),
}

/// The items that have been told, what is left of the budget, and the number of the next activation.
#[derive(Clone, Copy)]
pub struct Run<'a> {
    pub items: &'a Made<'a>,
    pub left: u64,
    pub next: u64,
}

/// How the telling of a trace ends.
#[derive(Clone, Copy)]
pub enum End<'a> {
    /// At its first answer, with the values of the variables.
    Answered(Env<'a>),
    /// Without an answer.
    Missed,
    /// An exception has left its frames.
    Thrown,
    /// Nothing more may be told: the budget is spent, or no rule applies.
    Over,
}

/// What has been told when a trace has ended, and how it ended.
#[derive(Clone, Copy)]
pub struct Told<'a> {
    pub run: Run<'a>,
    pub end: End<'a>,
}

/// What has been told, and this end.
pub fn ended<'a>(run: Run<'a>, end: End<'a>) -> Told<'a>
    ensures { told_of result ≡ ended (run_of run.entry) (end_of end.entry) }
{
    Told { run, end }
}

/// One item more.
pub fn put<'a>(bump: &'a Bump, run: Run<'a>, item: Item<'a>) -> Result<Run<'a>, NoMemory>
    ensures { IfOk result (λ r. run_of r ≡ put (run_of run.entry) (item_of item.entry)) }
{
    let items = keep(bump, Made::Also(run.items, item))?;
    Ok(Run { items, ..run })
}

/// The call of the next activation.
pub fn call<'a>(
    bump: &'a Bump,
    run: Run<'a>,
    parent: Option<u64>,
    site: Option<u32>,
    procedure: u64,
) -> Result<Run<'a>, NoMemory>
    ensures { IfOk result (λ r. run_of r ≡ called (run_of run.entry) run.entry.next parent site procedure) }
{
    let told = put(bump, run, Item::Call(run.next, parent, site, procedure))?;
    Ok(Run {
        next: next(run.next)?,
        ..told
    })
}

/// A turn, or `None` where it is heavier than what is left of the budget.
pub fn turn<'a>(
    bump: &'a Bump,
    run: Run<'a>,
    act: u64,
    goal: Option<u64>,
    weight: u64,
) -> Result<Option<Run<'a>>, NoMemory>
    ensures { IfOk result (λ made. option_run made ≡ turn (run_of run.entry) act goal weight) }
{
    if weight > run.left {
        return Ok(None);
    }
    let told = put(bump, run, Item::Turn(act, goal, weight))?;
    Ok(Some(Run {
        left: run.left - weight,
        ..told
    }))
}

/// An allocation, where there are words, and an output, where there is one.
pub fn make<'a>(
    bump: &'a Bump,
    act: u64,
    words: u64,
    out: Option<&'a [u8]>,
    run: Run<'a>,
) -> Result<Run<'a>, NoMemory>
    ensures { IfOk result (λ r. run_of r ≡ writing (allocating (run_of run.entry) act words) (bytes_told out.entry)) }
{
    let run = allocating(bump, act, words, run)?;
    match out {
        None => Ok(run),
        Some(bytes) => put(bump, run, Item::Out(bytes)),
    }
}

fn allocating<'a>(bump: &'a Bump, act: u64, words: u64, run: Run<'a>) -> Result<Run<'a>, NoMemory>
    ensures { IfOk result (λ r. run_of r ≡ allocating (run_of run.entry) act words) }
{
    if words == 0 {
        return Ok(run);
    }
    put(bump, run, Item::Alloc(act, words))
}

/// The activation's redo, where there was no answer.
pub fn then_redo<'a>(bump: &'a Bump, told: Told<'a>, act: u64) -> Result<Told<'a>, NoMemory>
    ensures { IfOk result (λ t. told_of t ≡ then_misses (λ n. Redo act ∷ []) (told_of told.entry)) }
{
    match told.end {
        End::Missed => Ok(ended(put(bump, told.run, Item::Redo(act))?, End::Missed)),
        End::Answered(_) => Ok(told),
        End::Thrown => Ok(told),
        End::Over => Ok(told),
    }
}

/// The activation's fail, where there was no answer.
pub fn then_fail<'a>(bump: &'a Bump, told: Told<'a>, act: u64) -> Result<Told<'a>, NoMemory>
    ensures { IfOk result (λ t. told_of t ≡ then_misses (λ n. Fail act ∷ []) (told_of told.entry)) }
{
    match told.end {
        End::Missed => Ok(ended(put(bump, told.run, Item::Fail(act))?, End::Missed)),
        End::Answered(_) => Ok(told),
        End::Thrown => Ok(told),
        End::Over => Ok(told),
    }
}

/// An exception leaves these frames.
pub fn leave<'a>(bump: &'a Bump, frames: &[Frame<'a>], run: Run<'a>) -> Result<Told<'a>, NoMemory>
    ensures { IfOk result (λ t. told_of t ≡ leaves (excps (frames_of frames.now)) (run_of run.entry)) }
{
    match frames {
        [] => Ok(ended(run, End::Thrown)),
        [first, rest @ ..] => leave(bump, rest, put(bump, run, Item::Excp(first.act))?),
    }
}

/// Items in order, behind those that are there.
pub fn gather<'a>(items: &mut Vec<Item<'a>, &'a Bump>, made: &Made<'a>) -> Result<(), NoMemory>
    ensures { OnOk result (items_told items.new.items ≡ items_told items.old.items ++ made_of made.now) }
{
    match made {
        Made::Nothing => Ok(()),
        Made::Also(before, item) => {
            gather(items, before)?;
            items.push(*item)?;
            Ok(())
        }
    }
}
