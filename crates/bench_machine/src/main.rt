//! A program for measuring: `bench_machine FILE TIMES STEPS` runs the program in a file so many times within so many steps, for a
//! sink that keeps nothing, and tells of each run how it ended and how many bytes it wrote.
#![tactic(auto)]

ghost use Rattle.md_hlds.specs.Hlds.{hlds_of};
ghost use Rattle.law_events.specs.Table.{site_table};
ghost use Rattle.md_trace.specs.PortHistory.{IsSiteTable};

use law_events::programs_have_tables;
use law_spelled::accepted_texts_have_mains;
use md_base::NoMemory;
use md_det::{Checked, check_det};
use md_machine::{Ran, interpret};
use md_modes::check_modes;
use md_reader::read;
use md_trace::Silent;
use std::alloc::Global;
use std::io::{self, ErrorKind};
use std::process::ExitCode;
use std::{env, fs};

/// The longest text that is read.
const LONGEST: usize = 1_048_576;

fn main(rt: HostRuntime) -> io::Result<ExitCode> {
    let mut words = env::args(&rt)?.skip(1);
    let file = words.next();
    let times = words
        .next()
        .and_then(|text| text.as_str().parse::<u32>().ok());
    let steps = words
        .next()
        .and_then(|text| text.as_str().parse::<u32>().ok());
    let (Some(file), Some(times), Some(steps)) = (file, times, steps) else {
        return usage(&rt);
    };
    let text = fs::read(&rt, file.as_str())?;
    runs(&rt, text.as_slice(), times, steps)
}

/// Tells of each of so many runs of the program of a text.
fn runs(rt: &HostRuntime, text: &[u8], times: u32, steps: u32) -> io::Result<ExitCode> {
    let alloc = rt.alloc();
    let Some(checked) = checked(alloc, text) else {
        return Err(ErrorKind::InvalidData.into());
    };
    for _ in 0..times {
        let Ok(ran) = silent(alloc, &checked, steps) else {
            return Err(ErrorKind::OutOfMemory.into());
        };
        println!(rt; "{:?}, {} bytes written", ran.end, ran.output.len())?;
    }
    Ok(ExitCode::SUCCESS)
}

/// The run of a program, for a sink that keeps nothing.
fn silent(alloc: Global, checked: &Checked, steps: u32) -> Result<Ran, NoMemory> {
    has_site_table(checked);
    interpret(alloc, checked, steps, &mut Silent)
}

/// The call sites of a checked program are a site table.
fn has_site_table(checked: &Checked)
    ensures { IsSiteTable (site_table (hlds_of checked.now)) }
{
    programs_have_tables();
    accepted_texts_have_mains();
    let _ = checked.program();
}

/// The checked program of a text, if it is accepted and no longer than any that `mdprof` takes.
fn checked(alloc: Global, text: &[u8]) -> Option<Checked> {
    if text.len() > LONGEST {
        return None;
    }
    let Ok(program) = read(alloc, text) else {
        return None;
    };
    let Ok(moded) = check_modes(alloc, program) else {
        return None;
    };
    let Ok(checked) = check_det(alloc, moded) else {
        return None;
    };
    Some(checked)
}

/// Tells how the program is called.
fn usage(rt: &HostRuntime) -> io::Result<ExitCode> {
    eprintln!(rt; "usage: bench_machine FILE TIMES STEPS")?;
    Ok(ExitCode::from(1))
}
