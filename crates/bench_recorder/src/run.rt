// Runs, each with its program's tables and its events.
use crate::history::History;
use crate::program::{Call, statics_of};
use crate::queens::{QUEENS, queens};
use md_base::NoMemory;
use md_static::Statics;
use md_trace::Event;
use std::alloc::Global;

/// How deep calls may be.
const DEEPEST: u32 = 1000;

/// Main calls Takeuchi's function, which calls itself at four sites.
const TAK: [Call; 5] = [
    (0, Some(1)),
    (1, Some(1)),
    (1, Some(1)),
    (1, Some(1)),
    (1, Some(1)),
];

/// Main calls a map over a list, which calls a closure's procedure, and itself.
const MAP: [Call; 3] = [(0, Some(1)), (1, None), (1, Some(1))];

/// Which run.
#[derive(Clone, Copy)]
pub enum Run {
    /// Takeuchi's function of the size, two thirds and one third of it: no context is new but two.
    Tak,
    /// All solutions on a board of the size: as `queens8.m` of `tools/bench`.
    Queens,
    /// As many procedures as the size, each of which calls the next one twice: each call has a new context.
    Wide,
    /// A map over a list as long as the size, whose closures are of two procedures in turn, each four times.
    Map,
}

impl Run {
    /// The run of this name, if there is one.
    pub fn named(name: &str) -> Option<Run> {
        match name {
            "tak" => Some(Run::Tak),
            "queens" => Some(Run::Queens),
            "wide" => Some(Run::Wide),
            "map" => Some(Run::Map),
            _ => None,
        }
    }
}

/// The tables of a run's program.
pub fn program_of(alloc: Global, run: Run, size: u32) -> Result<Option<Statics>, NoMemory> {
    match run {
        Run::Tak => statics_of(alloc, 2, &TAK),
        Run::Queens => statics_of(alloc, 4, &QUEENS),
        Run::Wide => wide_program(alloc, size),
        Run::Map => statics_of(alloc, 4, &MAP),
    }
}

/// Main calls the first procedure, and each but the last calls the next one at two sites.
fn wide_program(alloc: Global, size: u32) -> Result<Option<Statics>, NoMemory> {
    let size = size.min(DEEPEST);
    let mut calls = vec![in alloc; (0, Some(1))]?;
    for number in 1..size {
        calls.push((number, Some(number + 1)))?;
        calls.push((number, Some(number + 1)))?;
    }
    statics_of(alloc, size + 1, &calls)
}

/// The events of a run, from main's call to its exit.
pub fn events_of(alloc: Global, run: Run, size: u32) -> Result<Vec<Event>, NoMemory> {
    let mut history = History::new(alloc);
    history.call(None, 0)?;
    match run {
        Run::Tak => {
            tak(&mut history, 0, (size, size / 3 * 2, size / 3), DEEPEST)?;
        }
        Run::Queens => queens(alloc, &mut history, size)?,
        Run::Wide => wide(&mut history, 0, 1, size.min(DEEPEST))?,
        Run::Map => map(&mut history, 0, size.min(DEEPEST))?,
    }
    history.exit()?;
    Ok(history.into_events())
}

/// Takeuchi's function of three numbers, but no deeper than `depth`.
fn tak(
    history: &mut History,
    site: u32,
    (x, y, z): (u32, u32, u32),
    depth: u32,
) -> Result<u32, NoMemory> {
    history.call(Some(site), 1)?;
    let mut answer = z;
    if x > y && depth > 0 {
        let first = tak(history, 1, (x.saturating_sub(1), y, z), depth - 1)?;
        let second = tak(history, 2, (y.saturating_sub(1), z, x), depth - 1)?;
        let third = tak(history, 3, (z.saturating_sub(1), x, y), depth - 1)?;
        answer = tak(history, 4, (first, second, third), depth - 1)?;
    }
    history.exit()?;
    Ok(answer)
}

/// A call of a procedure behind which there are `depth` more, counted with it, each of which the one before calls twice.
fn wide(history: &mut History, site: u32, procedure: u32, depth: u32) -> Result<(), NoMemory> {
    history.call(Some(site), procedure)?;
    if depth > 1 {
        let next = procedure.saturating_add(1);
        let second = procedure.saturating_mul(2);
        wide(history, second.saturating_sub(1), next, depth - 1)?;
        wide(history, second, next, depth - 1)?;
    }
    history.exit()
}

/// A map over a list of `length` members.
fn map(history: &mut History, site: u32, length: u32) -> Result<(), NoMemory> {
    history.call(Some(site), 1)?;
    if length > 0 {
        history.call(Some(1), 2 + length / 4 % 2)?;
        history.exit()?;
        map(history, 2, length - 1)?;
    }
    history.exit()
}
