// The command `cover`.
ghost use Rattle.std.specs.Prelude.{ℕ, ◌≡◌, ◌≤◌, ◌<◌, ◌^◌, length, IfOk, MatchResult};
ghost use Rattle.md_base.specs.Outside.{Rose};
ghost use Rattle.md_dynamic.specs.Valid.{IsValid};
ghost use Rattle.law_events.specs.Laws.{IsWithinBounds};
ghost use Rattle.md_hlds.specs.Hlds.{Hlds, hlds_of};
ghost use Rattle.md_machine.specs.Ran.{IsRunOf};
ghost use Rattle.md_profiled.specs.OfRun.{IsProfileOfRun};
ghost use Rattle.md_tool.specs.Accepted.{TextFault};
ghost use Rattle.md_tool.specs.Due.{TextEnds};
ghost use Rattle.md_tool.specs.Reported.{ReportEnds, ShowEnds};
ghost use Rattle.md_commands.specs.Form.{Meant, Number};
ghost use Rattle.md_commands.specs.Told.{meant};
ghost use Rattle.md_tool.specs.Turns.{IsCoverageOfRun, HasNoProcedure, IsCounted, IsTextOfTurns, number_in};
ghost use Rattle.md_tool.specs.Rises.{RisesBy};

use crate::accept::{accept, read_text};
use crate::fault::Fault;
use crate::report::show_output;
use crate::run::ended;
use crate::write::write;
use law_events::runs_are_histories;
use md_base::{NoMemory, ProcId, Sink, Store};
use md_commands::ProcWord;
use md_cost::Loaded;
use md_cover::{CoverFault, cover, cover_text, profiles_of_runs_have_their_counts};
use md_det::Checked;
use md_dynamic::Profile;
use md_machine::Ran;
use md_people::proc_named;
use md_profiled::{Profiled, load_run, profile_run};
use md_static::Statics;
use std::alloc::Global;

/// A run, and the text of the turns of a procedure's goals, where the program has the procedure.
#[derive(Drop)]
pub struct Counted {
    pub ran: Ran,
    pub text: Option<Vec<u8>>,
}

/// Runs the program of a file within so many steps, writes what it writes to `err`, and then to `out` how often each goal of
/// a procedure had a turn, as far as it follows from the counts of ports.
pub fn cover_file<S: Store, O: Sink, E: Sink>(
    alloc: Global,
    file: &str,
    proc: ProcWord<'_>,
    steps: u32,
    store: &mut S,
    out: &mut O,
    err: &mut E,
) -> Result<(), Fault>
    ensures ends { ReportEnds (IsCoverageOfRun (meant proc.entry) steps) (HasNoProcedure (meant proc.entry)) (S.held store.old) file.now steps (O.held out.old) (O.held out.new) (E.held err.old) (E.held err.new)
        (Rose (S.read_faults store.old) (S.read_faults store.new)) (Rose (O.write_faults out.old) (O.write_faults out.new))
        (Rose (E.write_faults err.old) (E.write_faults err.new)) result }
    ensures kept { S.held store.new ≡ S.held store.old }
    ensures later { E.write_faults err.old ≤ E.write_faults err.new }
    ensures reads { RisesBy Fault.Read (S.read_faults store.old) (S.read_faults store.new) result }
    ensures writes { S.write_faults store.new ≡ S.write_faults store.old }
    ensures outs { RisesBy Fault.Write (O.write_faults out.old) (O.write_faults out.new) result }
    ensures errs { RisesBy Fault.Write (E.write_faults err.old) (E.write_faults err.new) result }
{
    let text = read_text(alloc, file, store)?;
    let counted = count_text(alloc, &text, proc, steps)?;
    show_counted(counted, out, err)
}

/// Runs the program of a text within so many steps, and finds the turns of a procedure's goals.
fn count_text(alloc: Global, text: &[u8], proc: ProcWord<'_>, steps: u32) -> Result<Counted, Fault>
    requires { length text.now ≤ 1048576 }
    ensures { MatchResult result (IsCounted text.now (meant proc.entry) steps) (TextFault text.now) }
{
    let checked = accept(alloc, text)?;
    match count_run(alloc, &checked, proc, steps) {
        Ok(counted) => Ok(counted),
        Err(_) => Err(Fault::NoMemory),
    }
}

/// Runs a checked program within so many steps, and finds the turns of a procedure's goals.
fn count_run(
    alloc: Global,
    checked: &Checked,
    proc: ProcWord<'_>,
    steps: u32,
) -> Result<Counted, NoMemory>
    ensures run { IfOk result (λ counted. IsRunOf (hlds_of checked.now) steps counted.ran) }
    ensures text { IfOk result (λ counted. IsTextOfTurns (hlds_of checked.now) (meant proc.entry) steps counted.text) }
{
    let Profiled { ran, profile } = profile_run(alloc, checked, steps)?;
    let text = turns_text(alloc, checked, profile, proc)?;
    Ok(Counted { ran, text })
}

/// The text of the turns of a procedure's goals in a run, by its profile.
fn turns_text(
    alloc: Global,
    checked: &Checked,
    profile: Profile,
    proc: ProcWord<'_>,
) -> Result<Option<Vec<u8>>, NoMemory>
    requires valid { IsValid profile }
    requires of_run { (budget : ℕ) × IsWithinBounds (hlds_of checked.now) budget × IsProfileOfRun (hlds_of checked.now) budget profile }
    ensures { IfOk result (λ text. (budget : ℕ) → IsWithinBounds (hlds_of checked.now) budget → IsProfileOfRun (hlds_of checked.now) budget profile
        → IsTextOfTurns (hlds_of checked.now) (meant proc.entry) budget text) }
{
    let loaded = load_run(alloc, profile)?;
    loaded_turns(alloc, checked, &loaded, proc)
}

/// The text of the turns of a procedure's goals in a run, by its loaded profile.
fn loaded_turns(
    alloc: Global,
    checked: &Checked,
    loaded: &Loaded,
    proc: ProcWord<'_>,
) -> Result<Option<Vec<u8>>, NoMemory>
    requires valid { IsValid loaded.now.profile }
    ensures { IfOk result (λ text. (budget : ℕ) → IsWithinBounds (hlds_of checked.now) budget → IsProfileOfRun (hlds_of checked.now) budget loaded.now.profile
        → IsTextOfTurns (hlds_of checked.now) (meant proc.entry) budget text) }
{
    match number_of(alloc, loaded.profile().statics(), proc)? {
        Some(id) => turns_of(alloc, checked, loaded, id),
        None => Ok(None),
    }
}

/// The number of the procedure that is meant, if one is.
fn number_of(
    alloc: Global,
    statics: &Statics,
    proc: ProcWord<'_>,
) -> Result<Option<ProcId>, NoMemory>
    requires { length statics.now.procs < 2 ^ 32 }
    ensures { IfOk result (λ found. found ≡ number_in statics.now (meant proc.entry)) }
{
    match proc {
        ProcWord::Number(number) => Ok(Some(ProcId::new(number))),
        ProcWord::Name(name) => proc_named(alloc, statics, name.as_bytes()),
    }
}

/// The text of the turns of the goals of the procedure of a number in a run, by its loaded profile.
fn turns_of(
    alloc: Global,
    checked: &Checked,
    loaded: &Loaded,
    id: ProcId,
) -> Result<Option<Vec<u8>>, NoMemory>
    requires valid { IsValid loaded.now.profile }
    ensures { IfOk result (λ text. (budget : ℕ) → IsWithinBounds (hlds_of checked.now) budget → IsProfileOfRun (hlds_of checked.now) budget loaded.now.profile
        → IsTextOfTurns (hlds_of checked.now) (Number id) budget text) }
{
    runs_are_histories();
    profiles_of_runs_have_their_counts();
    match cover(alloc, checked, loaded, id) {
        Ok(coverage) => Ok(Some(cover_text(alloc, loaded, &coverage)?)),
        Err(CoverFault::NoSuchProc) => Ok(None),
        Err(CoverFault::NoMemory) => Err(NoMemory),
    }
}

/// Writes a run's output to `err` and the turns to `out`, and answers how it ended.
fn show_counted<O: Sink, E: Sink>(counted: Counted, out: &mut O, err: &mut E) -> Result<(), Fault>
    ensures ends { (program : Hlds) (proc : Meant) (steps : ℕ) → IsRunOf program steps counted.ran → IsTextOfTurns program proc steps counted.text
        → ShowEnds (IsCoverageOfRun proc steps program) (HasNoProcedure proc program) program steps (O.held out.old) (O.held out.new) (E.held err.old) (E.held err.new)
        (Rose (O.write_faults out.old) (O.write_faults out.new)) (Rose (E.write_faults err.old) (E.write_faults err.new)) result }
    ensures later { E.write_faults err.old ≤ E.write_faults err.new }
    ensures outs { RisesBy Fault.Write (O.write_faults out.old) (O.write_faults out.new) result }
    ensures errs { RisesBy Fault.Write (E.write_faults err.old) (E.write_faults err.new) result }
{
    let Counted { ran, text } = counted;
    show_output(err, &ran.output)?;
    match write_found(text, out) {
        Ok(()) => ended(ran),
        Err(fault) => Err(fault),
    }
}

/// Writes a text, where there is one.
fn write_found<O: Sink>(text: Option<Vec<u8>>, out: &mut O) -> Result<(), Fault>
    ensures ends { (program : Hlds) (proc : Meant) (steps : ℕ) → IsTextOfTurns program proc steps text
        → TextEnds (IsCoverageOfRun proc steps program) (HasNoProcedure proc program) (O.held out.old) (O.held out.new) (Rose (O.write_faults out.old) (O.write_faults out.new)) result }
    ensures outs { RisesBy Fault.Write (O.write_faults out.old) (O.write_faults out.new) result }
{
    match text {
        Some(text) => write(out, &text),
        None => Err(Fault::NoSuchPage),
    }
}
