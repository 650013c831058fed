// The command `gen`.
ghost use Rattle.std.specs.Prelude.{◌≡◌, ◌≤◌, ◌<◌, ◌++◌, IfOk, length, string_bytes};
ghost use Rattle.md_base.specs.Outside.{Rose};
ghost use Rattle.law_generated.specs.Generated.{gen_text, most_steps, level, level_body};
ghost use Rattle.md_tool.specs.Generated.{GenEnds, SummaryEnds};
ghost use Rattle.md_tool.specs.Ran.{IsProfiledText};
ghost use Rattle.md_tool.specs.Rises.{RisesBy};

use crate::fault::Fault;
use crate::report::{profile_text, show_page};
use crate::run::ended;
use crate::write::write;
use md_base::{NoMemory, Sink};
use md_profiled::Profiled;
use md_query::Query;
use std::alloc::{AllocError, Global};

/// The most steps that a run may be given.
const MOST_STEPS: u32 = 16_777_216;

/// Writes a generated program, or the menu of its run.
pub fn generate<O: Sink>(alloc: Global, n: u32, summary: bool, out: &mut O) -> Result<(), Fault>
    requires some { 1 ≤ n }
    requires few { n ≤ 20 }
    ensures ends { GenEnds n summary (O.held out.old) (O.held out.new) (Rose (O.write_faults out.old) (O.write_faults out.new)) result }
    ensures outs { RisesBy Fault.Write (O.write_faults out.old) (O.write_faults out.new) result }
{
    let Ok(text) = gen_text(alloc, n) else {
        return Err(Fault::NoMemory);
    };
    if summary {
        summarize(alloc, n, &text, out)
    } else {
        write(out, &text)
    }
}

/// Runs a generated program, and writes the menu of its run. Its text is accepted, and the run finished.
fn summarize<O: Sink>(alloc: Global, n: u32, text: &[u8], out: &mut O) -> Result<(), Fault>
    requires some { 1 ≤ n }
    requires few { n ≤ 20 }
    requires text { text.now ≡ gen_text n }
    requires short { length text.now ≤ 1048576 }
    ensures ends { SummaryEnds n (O.held out.old) (O.held out.new) (Rose (O.write_faults out.old) (O.write_faults out.new)) result }
    ensures outs { RisesBy Fault.Write (O.write_faults out.old) (O.write_faults out.new) result }
{
    match profile_text(alloc, text, MOST_STEPS) {
        Ok(profiled) => show_menu(alloc, profiled, n, out),
        Err(fault) => Err(fault),
    }
}

/// Writes the menu of a generated program's run, and answers how it ended.
fn show_menu<O: Sink>(alloc: Global, profiled: Profiled, n: u32, out: &mut O) -> Result<(), Fault>
    requires some { 1 ≤ n }
    requires few { n ≤ 20 }
    requires profiled { IsProfiledText (gen_text n) most_steps profiled }
    ensures ends { SummaryEnds n (O.held out.old) (O.held out.new) (Rose (O.write_faults out.old) (O.write_faults out.new)) result }
    ensures outs { RisesBy Fault.Write (O.write_faults out.old) (O.write_faults out.new) result }
{
    let _ = n;
    let Profiled { ran, profile } = profiled;
    match show_page(alloc, profile, &Query::Menu, out) {
        Ok(()) => ended(ran),
        Err(fault) => Err(fault),
    }
}

/// The text of a program of `n` procedures below `main`, from 1 to 20: the last one does nothing, and each other one calls the next one
/// twice. So its run has 2^n contexts, and weighs 3 * 2^n + 2.
pub fn gen_text(alloc: Global, n: u32) -> Result<Vec<u8>, NoMemory>
    requires some { 1 ≤ n }
    requires few { n ≤ 20 }
    ensures { IfOk result (λ text. text.items ≡ gen_text n) }
{
    let mut text = Vec::from_slice(
        alloc,
        b":- module gen.\n:- pred main(io::di, io::uo) is det.\nmain(IO0, IO) :- p1, IO = IO0.\n",
    )?;
    for i in 0..n {
        let level = level(alloc, n, i + 1)?;
        text.extend_from_slice(level.as_str().as_bytes())?;
    }
    Ok(text)
}

/// Procedure `i` of `n`.
fn level(alloc: Global, n: u32, i: u32) -> Result<String, AllocError>
    requires { i < 4294967295 }
    ensures { IfOk result (λ text. string_bytes text ≡ level n i) }
{
    let body = level_body(alloc, n, i)?;
    let body = body.as_str();
    format!(in alloc; ":- pred p{i} is det.\np{i} :- {body}.\n")
}

/// The body of procedure `i` of `n`.
fn level_body(alloc: Global, n: u32, i: u32) -> Result<String, AllocError>
    requires { i < 4294967295 }
    ensures { IfOk result (λ text. string_bytes text ≡ level_body n i) }
{
    if i == n {
        return String::from_str(alloc, "true");
    }
    let next = i + 1;
    format!(in alloc; "p{next}, p{next}")
}
