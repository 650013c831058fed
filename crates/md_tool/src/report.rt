// The command `report`.
ghost use Rattle.std.specs.Prelude.{ℕ, ◌≡◌, ◌≤◌, ◌++◌, length, codes, MatchResult};
ghost use Rattle.md_base.specs.Outside.{Rose};
ghost use Rattle.md_dynamic.specs.Valid.{IsValid};
ghost use Rattle.law_events.specs.Laws.{IsWithinBounds};
ghost use Rattle.md_hlds.specs.Hlds.{Hlds};
ghost use Rattle.md_profiled.specs.OfRun.{IsOfRun, IsProfiled, IsProfileOfRun, IsViewOfRun};
ghost use Rattle.md_query.specs.Told.{asked};
ghost use Rattle.md_tool.specs.Accepted.{TextFault};
ghost use Rattle.md_tool.specs.Due.{WriteEnds};
ghost use Rattle.md_tool.specs.Paged.{PageEnds};
ghost use Rattle.md_tool.specs.Ran.{IsProfiledText};
ghost use Rattle.md_tool.specs.Reported.{IsPageOfRun, HasNoPageOfRun, ReportEnds, ShowEnds};
ghost use Rattle.md_tool.specs.Rises.{RisesBy};

use crate::accept::{accept, read_text};
use crate::fault::Fault;
use crate::paged::write_page;
use crate::run::ended;
use crate::write::write;
use md_base::{Sink, Store};
use md_dynamic::Profile;
use md_profiled::{Profiled, load_run, profile_run};
use md_query::Query;
use std::alloc::Global;

/// Runs the program of a file within so many steps, writes what it writes to `err`, and then the page that is asked for
/// to `out`.
pub fn report_file<S: Store, O: Sink, E: Sink>(
    alloc: Global,
    file: &str,
    query: &Query,
    steps: u32,
    store: &mut S,
    out: &mut O,
    err: &mut E,
) -> Result<(), Fault>
    ensures ends { ReportEnds (IsPageOfRun (asked query.now) steps) (HasNoPageOfRun (asked query.now) steps) (S.held store.old) file.now steps (O.held out.old) (O.held out.new) (E.held err.old) (E.held err.new)
        (Rose (S.read_faults store.old) (S.read_faults store.new)) (Rose (O.write_faults out.old) (O.write_faults out.new))
        (Rose (E.write_faults err.old) (E.write_faults err.new)) result }
    ensures kept { S.held store.new ≡ S.held store.old }
    ensures later { E.write_faults err.old ≤ E.write_faults err.new }
    ensures reads { RisesBy Fault.Read (S.read_faults store.old) (S.read_faults store.new) result }
    ensures writes { S.write_faults store.new ≡ S.write_faults store.old }
    ensures outs { RisesBy Fault.Write (O.write_faults out.old) (O.write_faults out.new) result }
    ensures errs { RisesBy Fault.Write (E.write_faults err.old) (E.write_faults err.new) result }
{
    let text = read_text(alloc, file, store)?;
    let profiled = profile_text(alloc, &text, steps)?;
    show(alloc, profiled, query, out, err)
}

/// Runs the program of a text within so many steps, and records its profile.
pub fn profile_text(alloc: Global, text: &[u8], steps: u32) -> Result<Profiled, Fault>
    requires { length text.now ≤ 1048576 }
    ensures { MatchResult result (IsProfiledText text.now steps) (TextFault text.now) }
{
    let checked = accept(alloc, text)?;
    match profile_run(alloc, &checked, steps) {
        Ok(profiled) => Ok(profiled),
        Err(_) => Err(Fault::NoMemory),
    }
}

/// Writes a run's output, and the line that ends it.
pub fn show_output<E: Sink>(err: &mut E, output: &[u8]) -> Result<(), Fault>
    ensures ends { WriteEnds (output.now ++ codes "-- end of output\n") (E.held err.old) (E.held err.new) (Rose (E.write_faults err.old) (E.write_faults err.new)) result }
    ensures later { E.write_faults err.old ≤ E.write_faults err.new }
    ensures errs { RisesBy Fault.Write (E.write_faults err.old) (E.write_faults err.new) result }
{
    write(err, output)?;
    write(err, b"-- end of output\n")
}

/// Writes the page that is asked for of a run's profile.
pub fn show_page<O: Sink>(
    alloc: Global,
    profile: Profile,
    query: &Query,
    out: &mut O,
) -> Result<(), Fault>
    requires valid { IsValid profile }
    requires of_run { IsOfRun profile }
    ensures ends { (program : Hlds) (steps : ℕ) → IsWithinBounds program steps → IsProfileOfRun program steps profile
        → PageEnds (IsViewOfRun program steps) (asked query.now) (O.held out.old) (O.held out.new) (Rose (O.write_faults out.old) (O.write_faults out.new)) result }
    ensures outs { RisesBy Fault.Write (O.write_faults out.old) (O.write_faults out.new) result }
{
    match load_run(alloc, profile) {
        Ok(loaded) => write_page(alloc, &loaded, query, out),
        Err(_) => Err(Fault::NoMemory),
    }
}

/// Writes a run's output to `err` and its page to `out`, and answers how it ended.
fn show<O: Sink, E: Sink>(
    alloc: Global,
    profiled: Profiled,
    query: &Query,
    out: &mut O,
    err: &mut E,
) -> Result<(), Fault>
    requires { (program : Hlds) × (steps : ℕ) × IsWithinBounds program steps × IsProfiled program steps profiled }
    ensures ends { (program : Hlds) (steps : ℕ) → IsWithinBounds program steps → IsProfiled program steps profiled
        → ShowEnds (IsPageOfRun (asked query.now) steps program) (HasNoPageOfRun (asked query.now) steps program) program steps (O.held out.old) (O.held out.new) (E.held err.old) (E.held err.new)
        (Rose (O.write_faults out.old) (O.write_faults out.new)) (Rose (E.write_faults err.old) (E.write_faults err.new)) result }
    ensures later { E.write_faults err.old ≤ E.write_faults err.new }
    ensures outs { RisesBy Fault.Write (O.write_faults out.old) (O.write_faults out.new) result }
    ensures errs { RisesBy Fault.Write (E.write_faults err.old) (E.write_faults err.new) result }
{
    let Profiled { ran, profile } = profiled;
    show_output(err, &ran.output)?;
    match show_page(alloc, profile, query, out) {
        Ok(()) => ended(ran),
        Err(fault) => Err(fault),
    }
}
