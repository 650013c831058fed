//! A program for measuring: `bench_recorder RUN SIZE TIMES SINK` makes the events of a run, hands them so many times to a new sink,
//! and tells how many they are. RUN is `tak`, `queens`, `wide` or `map`; SINK is `recorder`, or `silent`, which keeps nothing.
#![tactic(auto)]

ghost use Rattle.std.specs.Prelude.{◌<◌, IfOk, IfSome, List, length, reverse};
ghost use Rattle.md_static.specs.Sound.{IsSound};
ghost use Rattle.md_static.specs.Tables.{site_table};
ghost use Rattle.md_trace.specs.PortHistory.{IsPortHistory};

mod history;
mod program;
mod queens;
mod run;

use md_base::{NoMemory, ProcId};
use md_record::Recorder;
use md_static::{Statics, is_sound};
use md_trace::{Event, Silent};
use run::{Run, events_of, program_of};
use std::alloc::Global;
use std::env;
use std::io::{self, ErrorKind};
use std::process::ExitCode;
use test_replay::{is_port_history, replay};

fn main(rt: HostRuntime) -> io::Result<ExitCode> {
    let mut words = env::args(&rt)?.skip(1);
    let run = words.next().and_then(|name| Run::named(name.as_str()));
    let size = words
        .next()
        .and_then(|text| text.as_str().parse::<u32>().ok());
    let times = words
        .next()
        .and_then(|text| text.as_str().parse::<u32>().ok());
    let silent = words.next().and_then(|name| is_silent(name.as_str()));
    let (Some(run), Some(size), Some(times), Some(silent)) = (run, size, times, silent) else {
        eprintln!(rt; "usage: bench_recorder tak|queens|wide|map SIZE TIMES recorder|silent")?;
        return Ok(ExitCode::from(1));
    };
    let Ok(events) = measure(rt.alloc(), run, size, times, silent) else {
        return Err(ErrorKind::OutOfMemory.into());
    };
    let Some(events) = events else {
        return Err(ErrorKind::InvalidData.into());
    };
    println!(rt; "{events} events")?;
    Ok(ExitCode::SUCCESS)
}

/// Whether this is the name of the sink that keeps nothing, or that of the recorder.
fn is_silent(name: &str) -> Option<bool> {
    match name {
        "silent" => Some(true),
        "recorder" => Some(false),
        _ => None,
    }
}

/// How many events a run has, after they were handed to a new sink so many times; or none where they are no port history.
fn measure(
    alloc: Global,
    run: Run,
    size: u32,
    times: u32,
    silent: bool,
) -> Result<Option<usize>, NoMemory> {
    let Some(statics) = program_of(alloc, run, size)? else {
        return Ok(None);
    };
    let events = events_of(alloc, run, size)?;
    if !is_sound(alloc, &statics)? || statics.procs().is_empty() {
        return Ok(None);
    }
    if !is_port_history(alloc, &statics, ProcId::new(0), &events)? {
        return Ok(None);
    }
    for _ in 0..times {
        if silent {
            ignore(alloc, &statics, &events)?;
        } else {
            record(alloc, &statics, &events)?;
        }
    }
    Ok(Some(events.len()))
}

/// Hands events to a new recorder.
fn record(alloc: Global, statics: &Statics, events: &[Event]) -> Result<(), NoMemory>
    requires sound { IsSound statics.now }
    requires main_there { 0 < length statics.now.procs }
    requires history { IsPortHistory (site_table statics.now 0) (reverse events.now) }
{
    let mut recorder = Recorder::new(alloc, statics.copy()?, ProcId::new(0))?;
    replay(alloc, events, &mut recorder)
}

/// Hands events to a sink that keeps nothing.
fn ignore(alloc: Global, statics: &Statics, events: &[Event]) -> Result<(), NoMemory>
    requires history { IsPortHistory (site_table statics.now 0) (reverse events.now) }
{
    replay(alloc, events, &mut Silent)
}
