// The commands that write a stored profile as a text, and bring it back: `dump` and `undump`.
ghost use Rattle.std.specs.Prelude.{◌≡◌, ◌⊎◌, ◌≤◌, length, MatchResult};
ghost use Rattle.md_base.specs.Outside.{Rose};
ghost use Rattle.md_dump.specs.Text.{dump_text};
ghost use Rattle.md_dynamic.specs.Valid.{IsValid};
ghost use Rattle.md_tool.specs.Due.{WriteEnds};
ghost use Rattle.md_tool.specs.Texts.{DumpEnds, IsDumped, TextFails, TextSpells, UndumpFails, UndumpEnds};
ghost use Rattle.md_tool.specs.Rises.{RisesBy};

use crate::fault::Fault;
use crate::run::store_told;
use crate::stored::{LONGEST_MIGRATED, LONGEST_PROFILE, load_profile};
use crate::write::write;
use md_base::{ReadFault, Sink, Store, read_all};
use md_dump::{DumpFault, dump, undump};
use md_dynamic::Profile;
use std::alloc::Global;

/// Writes the profile in a file as a text.
pub fn dump_file<S: Store, O: Sink>(
    alloc: Global,
    name: &str,
    store: &mut S,
    out: &mut O,
) -> Result<(), Fault>
    ensures ends { DumpEnds (S.held store.old) name.now (O.held out.old) (O.held out.new)
        (Rose (S.read_faults store.old) (S.read_faults store.new)) (Rose (O.write_faults out.old) (O.write_faults out.new)) result }
    ensures kept { S.held store.new ≡ S.held store.old }
    ensures reads { RisesBy Fault.Read (S.read_faults store.old) (S.read_faults store.new) result }
    ensures writes { S.write_faults store.new ≡ S.write_faults store.old }
    ensures outs { RisesBy Fault.Write (O.write_faults out.old) (O.write_faults out.new) result }
{
    let profile = load_profile(alloc, name, LONGEST_PROFILE, store)?;
    write_dump(alloc, &profile, out)
}

/// Writes a profile as a text.
fn write_dump<O: Sink>(alloc: Global, profile: &Profile, out: &mut O) -> Result<(), Fault>
    requires { IsValid profile.now }
    ensures ends { WriteEnds (dump_text profile.now) (O.held out.old) (O.held out.new) (Rose (O.write_faults out.old) (O.write_faults out.new)) result }
    ensures outs { RisesBy Fault.Write (O.write_faults out.old) (O.write_faults out.new) result }
{
    match dump(alloc, profile) {
        Ok(text) => write(out, &text),
        Err(_) => Err(Fault::NoMemory),
    }
}

/// Reads the text of a profile, and stores the profile in the newer form.
pub fn undump_file<S: Store, O: Sink>(
    alloc: Global,
    name: &str,
    new: &str,
    store: &mut S,
    out: &mut O,
) -> Result<(), Fault>
    ensures ends { UndumpEnds (S.held store.old) (S.held store.new) name.now new.now (O.held out.old) (O.held out.new)
        (Rose (S.read_faults store.old) (S.read_faults store.new)) (Rose (S.write_faults store.old) (S.write_faults store.new))
        (Rose (O.write_faults out.old) (O.write_faults out.new)) result }
    ensures reads { RisesBy Fault.Read (S.read_faults store.old) (S.read_faults store.new) result }
    ensures writes { RisesBy Fault.Write (S.write_faults store.old) (S.write_faults store.new) result }
    ensures outs { RisesBy Fault.Write (O.write_faults out.old) (O.write_faults out.new) result }
    ensures one { (S.write_faults store.new ≡ S.write_faults store.old) ⊎ (O.write_faults out.new ≡ O.write_faults out.old) }
{
    let profile = read_dumped(alloc, name, store)?;
    store_told(alloc, &profile, new, b"undumped\n", store, out)
}

/// The profile that the text of a file spells.
fn read_dumped<S: Store>(alloc: Global, name: &str, store: &mut S) -> Result<Profile, Fault>
    ensures read { MatchResult result (TextSpells (S.held store.old) name.now) (UndumpFails (S.held store.old) name.now (Rose (S.read_faults store.old) (S.read_faults store.new))) }
    ensures valid { MatchResult result IsValid (λ _. Unit {0}) }
    ensures kept { S.held store.new ≡ S.held store.old }
    ensures writes { S.write_faults store.new ≡ S.write_faults store.old }
    ensures reads { RisesBy Fault.Read (S.read_faults store.old) (S.read_faults store.new) result }
{
    let text = read_dump(alloc, name, store)?;
    match undump(alloc, &text) {
        Ok(profile) => Ok(profile),
        Err(DumpFault::Line(line)) => Err(Fault::DamagedLine(line)),
        Err(DumpFault::NoMemory) => Err(Fault::NoMemory),
    }
}

/// The text of a file of at most 268,435,456 bytes.
fn read_dump<S: Store>(alloc: Global, name: &str, store: &mut S) -> Result<Vec<u8>, Fault>
    ensures read { MatchResult result (λ text. IsDumped (S.held store.old) name.now text.items) (TextFails (S.held store.old) name.now (Rose (S.read_faults store.old) (S.read_faults store.new))) }
    ensures kept { S.held store.new ≡ S.held store.old }
    ensures writes { S.write_faults store.new ≡ S.write_faults store.old }
    ensures reads { RisesBy Fault.Read (S.read_faults store.old) (S.read_faults store.new) result }
{
    match read_all(alloc, store, name, LONGEST_MIGRATED) {
        Ok(text) => Ok(text),
        Err(ReadFault::Read) => Err(Fault::Read),
        Err(ReadFault::TooLarge) => Err(Fault::TooLarge(LONGEST_MIGRATED)),
        Err(ReadFault::NoMemory) => Err(Fault::NoMemory),
    }
}
