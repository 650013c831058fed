// Counts of procedures, as a counter keeps them.
ghost use Rattle.std.specs.Prelude.{◌≤◌, length};
ghost use Rattle.md_static.specs.Sound.{IsSound};

use crate::events::events;
use crate::rows;
use crate::tables::sound_tables;
use md_base::{NoMemory, ProcId};
use md_static::Statics;
use md_trace::{Counter, Event};
use std::alloc::Global;
use test_cases::Case;
use test_replay::counter_of_events;

/// The counts of a new counter for as many procedures as the line `procs` says.
pub fn show_new(alloc: Global, case: &Case, found: &mut String) -> Result<(), NoMemory> {
    let procs = u32::try_from(case.number("procs")).unwrap_or(0);
    let counter = Counter::new(alloc, procs)?;
    show_own(&counter, procs, found)
}

/// The counts of each procedure after the case's events.
pub fn show_counts(alloc: Global, case: &Case, found: &mut String) -> Result<(), NoMemory> {
    let events = events(alloc, case)?;
    match sound_tables(alloc, case)? {
        Some(statics) => show_over(alloc, &statics, &events, found),
        None => show_none(found),
    }
}

fn show_over(
    alloc: Global,
    statics: &Statics,
    events: &[Event],
    found: &mut String,
) -> Result<(), NoMemory>
    requires { IsSound statics.now }
{
    let procs = statics.procs().len() as u32;
    match counter_of_events(alloc, statics, ProcId::new(0), events)? {
        Some(counter) => show_own(&counter, procs, found),
        None => show_none(found),
    }
}

/// Adds a line for each of the first so many procedures.
fn show_own(counter: &Counter, procs: u32, found: &mut String) -> Result<(), NoMemory>
    requires { procs ≤ length counter.now.own }
{
    for procedure in 0..procs {
        let own = counter.own(ProcId::new(procedure));
        write!(found, "procedure {procedure}")?;
        rows::show_counts(&own, found)?;
    }
    Ok(())
}

/// Adds that there are no counts.
fn show_none(found: &mut String) -> Result<(), NoMemory> {
    writeln!(found, "no counts")?;
    Ok(())
}
