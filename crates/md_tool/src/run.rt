// The command `run`.
ghost use Rattle.std.specs.Prelude.{ℕ, ◌≡◌, ◌⊎◌, MatchResult, Ok, Err};
ghost use Rattle.md_base.specs.Outside.{Rose, added};
ghost use Rattle.md_deepfile.specs.Bytes.{file_bytes};
ghost use Rattle.md_dynamic.specs.Valid.{IsValid};
ghost use Rattle.md_hlds.specs.Hlds.{Hlds};
ghost use Rattle.md_profiled.specs.OfRun.{IsProfiled};
ghost use Rattle.md_tool.specs.Due.{StoreEnds, WriteEnds};
ghost use Rattle.md_tool.specs.Ends.{TellsEnd, ran_end};
ghost use Rattle.md_tool.specs.Kept.{IsRunFile, RunEnds, KeepEnds};
ghost use Rattle.md_tool.specs.Rises.{RisesBy};

use crate::accept::read_text;
use crate::fault::Fault;
use crate::report::profile_text;
use crate::write::write;
use md_base::{Sink, Store, WriteFault};
use md_deepfile::write_profile;
use md_dynamic::Profile;
use md_machine::{End, Ran};
use md_profiled::Profiled;
use std::alloc::Global;

/// Runs the program of a file within so many steps, writes what it writes, and stores its profile under a name.
pub fn run_file<S: Store, O: Sink>(
    alloc: Global,
    file: &str,
    steps: u32,
    name: &str,
    store: &mut S,
    out: &mut O,
) -> Result<(), Fault>
    ensures ends { RunEnds (IsRunFile steps) (S.held store.old) (S.held store.new) file.now steps name.now (O.held out.old) (O.held out.new)
        (Rose (S.read_faults store.old) (S.read_faults store.new)) (Rose (S.write_faults store.old) (S.write_faults store.new))
        (Rose (O.write_faults out.old) (O.write_faults out.new)) result }
    ensures reads { RisesBy Fault.Read (S.read_faults store.old) (S.read_faults store.new) result }
    ensures writes { RisesBy Fault.Write (S.write_faults store.old) (S.write_faults store.new) result }
    ensures outs { RisesBy Fault.Write (O.write_faults out.old) (O.write_faults out.new) result }
    ensures one { (S.write_faults store.new ≡ S.write_faults store.old) ⊎ (O.write_faults out.new ≡ O.write_faults out.old) }
{
    let text = read_text(alloc, file, store)?;
    let profiled = profile_text(alloc, &text, steps)?;
    keep(alloc, profiled, name, store, out)
}

/// Stores a profile under a name.
pub fn store_profile<S: Store>(
    alloc: Global,
    profile: &Profile,
    name: &str,
    store: &mut S,
) -> Result<(), Fault>
    requires { IsValid profile.now }
    ensures ends { StoreEnds name.now (file_bytes profile.now) (S.held store.old) (S.held store.new) (Rose (S.write_faults store.old) (S.write_faults store.new)) result }
    ensures reads { S.read_faults store.new ≡ S.read_faults store.old }
    ensures writes { RisesBy Fault.Write (S.write_faults store.old) (S.write_faults store.new) result }
{
    match write_profile(alloc, profile, store, name) {
        Ok(()) => Ok(()),
        Err(WriteFault::Write) => Err(Fault::Write),
        Err(WriteFault::NoMemory) => Err(Fault::NoMemory),
    }
}

/// Stores a profile under a name, and then writes a line that tells so.
pub fn store_told<S: Store, O: Sink>(
    alloc: Global,
    profile: &Profile,
    name: &str,
    line: &[u8],
    store: &mut S,
    out: &mut O,
) -> Result<(), Fault>
    requires { IsValid profile.now }
    ensures ends { MatchResult result
        (λ _. StoreEnds name.now (file_bytes profile.now) (S.held store.old) (S.held store.new) (Rose (S.write_faults store.old) (S.write_faults store.new)) (Ok tt) × (O.held out.new ≡ added line.now (O.held out.old)))
        (λ fault. (StoreEnds name.now (file_bytes profile.now) (S.held store.old) (S.held store.new) (Rose (S.write_faults store.old) (S.write_faults store.new)) (Err fault) × (O.held out.new ≡ O.held out.old))
        ⊎ (StoreEnds name.now (file_bytes profile.now) (S.held store.old) (S.held store.new) (Rose (S.write_faults store.old) (S.write_faults store.new)) (Ok tt)
        × WriteEnds line.now (O.held out.old) (O.held out.new) (Rose (O.write_faults out.old) (O.write_faults out.new)) (Err fault))) }
    ensures reads { S.read_faults store.new ≡ S.read_faults store.old }
    ensures writes { RisesBy Fault.Write (S.write_faults store.old) (S.write_faults store.new) result }
    ensures outs { RisesBy Fault.Write (O.write_faults out.old) (O.write_faults out.new) result }
    ensures one { (S.write_faults store.new ≡ S.write_faults store.old) ⊎ (O.write_faults out.new ≡ O.write_faults out.old) }
{
    store_profile(alloc, profile, name, store)?;
    write(out, line)
}

/// The answer that tells how a run ended.
pub fn ended(ran: Ran) -> Result<(), Fault>
    ensures { TellsEnd (ran_end ran) result }
{
    match ran.end {
        End::Finished => Ok(()),
        End::Thrown => Err(Fault::Thrown(ran.error)),
        End::OutOfSteps => Err(Fault::OutOfSteps),
    }
}

/// Writes a run's output, stores its profile, and answers how it ended.
fn keep<S: Store, O: Sink>(
    alloc: Global,
    profiled: Profiled,
    name: &str,
    store: &mut S,
    out: &mut O,
) -> Result<(), Fault>
    requires { IsValid profiled.profile }
    ensures ends { (program : Hlds) (steps : ℕ) → IsProfiled program steps profiled
        → KeepEnds (IsRunFile steps program) program steps name.now (S.held store.old) (S.held store.new) (O.held out.old) (O.held out.new)
        (Rose (S.write_faults store.old) (S.write_faults store.new)) (Rose (O.write_faults out.old) (O.write_faults out.new)) result }
    ensures reads { S.read_faults store.new ≡ S.read_faults store.old }
    ensures writes { RisesBy Fault.Write (S.write_faults store.old) (S.write_faults store.new) result }
    ensures outs { RisesBy Fault.Write (O.write_faults out.old) (O.write_faults out.new) result }
    ensures one { (S.write_faults store.new ≡ S.write_faults store.old) ⊎ (O.write_faults out.new ≡ O.write_faults out.old) }
{
    let Profiled { ran, profile } = profiled;
    write(out, &ran.output)?;
    store_profile(alloc, &profile, name, store)?;
    ended(ran)
}
