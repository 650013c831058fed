// The command `sum`.
ghost use Rattle.std.specs.Prelude.{◌≡◌, ◌<◌, ◌≤◌, ◌++◌, ◌∷◌, [], List, Option, length, IfOk, OnOk, MatchResult, string_bytes};
ghost use Rattle.md_base.specs.Files.{Files};
ghost use Rattle.md_base.specs.Outside.{Rose};
ghost use Rattle.md_cost.specs.Loading.{LoadedRows};
ghost use Rattle.md_dump.specs.Sums.{IsSumOver};
ghost use Rattle.md_commands.specs.Told.{texts};
ghost use Rattle.md_tool.specs.Stored.{IsLoadedFrom, ViewFails};
ghost use Rattle.md_tool.specs.Summed.{AreSummed, SumStops, AddUpFails, StopsAt, IsSumOf, sum_lines, sum_title, sum_text};
ghost use Rattle.md_tool.specs.Rises.{RisesBy, RisesByOne};

use crate::fault::{Fault, Stopped};
use crate::stored::load_file;
use crate::write::write;
use md_base::{NoMemory, Sink, Store};
use md_dump::{ProcSum, RunningSums};
use md_render::proc_line;
use md_static::Statics;
use std::alloc::{AllocError, Global};

/// Adds up what each procedure cost over the profiles in some files of one program.
pub fn sum_files<'a, S: Store, O: Sink>(
    alloc: Global,
    names: &[&'a str],
    store: &mut S,
    out: &mut O,
) -> Result<(), Stopped<'a>>
    requires some { 1 ≤ length names.now }
    requires few { length names.now ≤ 16 }
    ensures ends { SumStops (S.held store.old) (texts names.now) (O.held out.old) (O.held out.new)
        (Rose (S.read_faults store.old) (S.read_faults store.new)) (Rose (O.write_faults out.old) (O.write_faults out.new)) result }
    ensures kept { S.held store.new ≡ S.held store.old }
    ensures reads { RisesByOne Fault.Read (S.read_faults store.old) (S.read_faults store.new) result }
    ensures writes { S.write_faults store.new ≡ S.write_faults store.old }
    ensures outs { RisesByOne Fault.Write (O.write_faults out.old) (O.write_faults out.new) result }
{
    let sums = add_files(alloc, names, store)?;
    write_sums(alloc, names, &sums, out)
}

/// Writes the sums over some profiles.
fn write_sums<'a, O: Sink>(
    alloc: Global,
    names: &[&'a str],
    sums: &RunningSums,
    out: &mut O,
) -> Result<(), Stopped<'a>>
    requires some { 1 ≤ length names.now }
    requires summed { (held : Option Files) × AreSummed held (texts names.now) sums.now }
    ensures ends { (held : Option Files) → AreSummed held (texts names.now) sums.now
        → SumStops held (texts names.now) (O.held out.old) (O.held out.new) ⊥ (Rose (O.write_faults out.old) (O.write_faults out.new)) result }
    ensures outs { RisesByOne Fault.Write (O.write_faults out.old) (O.write_faults out.new) result }
{
    let text = text_of(alloc, names, sums)?;
    match write(out, &text) {
        Ok(()) => Ok(()),
        Err(fault) => Err(Stopped { file: "", fault }),
    }
}

/// Adds up the profiles in some files, in order. Each is given up before the next one is loaded.
fn add_files<'a, S: Store>(
    alloc: Global,
    names: &[&'a str],
    store: &mut S,
) -> Result<RunningSums, Stopped<'a>>
    requires few { length names.now ≤ 16 }
    ensures summed { MatchResult result (AreSummed (S.held store.old) (texts names.now))
        (λ stopped. StopsAt (S.held store.old) (texts names.now) stopped.file.now (Rose (S.read_faults store.old) (S.read_faults store.new)) stopped.fault) }
    ensures kept { S.held store.new ≡ S.held store.old }
    ensures reads { RisesByOne Fault.Read (S.read_faults store.old) (S.read_faults store.new) result }
    ensures writes { S.write_faults store.new ≡ S.write_faults store.old }
{
    let mut sums = RunningSums::new(alloc);
    for name in names {
        match add_file(alloc, &mut sums, *name, store) {
            Ok(()) => {}
            Err(fault) => return Err(Stopped { file: *name, fault }),
        }
    }
    Ok(sums)
}

/// Loads the profile in a file, and adds it to those that were added up before it.
fn add_file<S: Store>(
    alloc: Global,
    sums: &mut RunningSums,
    name: &str,
    store: &mut S,
) -> Result<(), Fault>
    requires few { sums.old.count < 16 }
    requires sums { (files : List LoadedRows) × IsSumOver files sums.old }
    ensures added { MatchResult result
        (λ _. (file : LoadedRows) × IsLoadedFrom (S.held store.old) name.now file × ((files : List LoadedRows) → IsSumOver files sums.old → IsSumOver (files ++ file ∷ []) sums.new))
        (ViewFails (S.held store.old) name.now (Rose (S.read_faults store.old) (S.read_faults store.new))) }
    ensures kept { S.held store.new ≡ S.held store.old }
    ensures later { S.read_faults store.old ≤ S.read_faults store.new }
    ensures reads { RisesBy Fault.Read (S.read_faults store.old) (S.read_faults store.new) result }
    ensures writes { S.write_faults store.new ≡ S.write_faults store.old }
{
    let loaded = load_file(alloc, name, store)?;
    match sums.add(alloc, &loaded) {
        Ok(()) => Ok(()),
        Err(NoMemory) => Err(Fault::NoMemory),
    }
}

/// The text of the sums over some profiles.
fn text_of<'a>(alloc: Global, names: &[&'a str], sums: &RunningSums) -> Result<Vec<u8>, Stopped<'a>>
    requires some { 1 ≤ length names.now }
    requires summed { (held : Option Files) × AreSummed held (texts names.now) sums.now }
    ensures { (held : Option Files) → AreSummed held (texts names.now) sums.now
        → MatchResult result (λ text. IsSumOf held (texts names.now) text.items) (λ stopped. AddUpFails held (texts names.now) stopped.file.now stopped.fault) }
{
    match (sums.first_other(), sums.statics()) {
        (Some(place), _) => Err(Stopped {
            file: names[place as usize],
            fault: Fault::AnotherProgram,
        }),
        (None, Some(statics)) => match text_of_sums(alloc, statics, names.len(), sums.rows()) {
            Ok(text) => Ok(text),
            Err(_) => Err(Stopped {
                file: "",
                fault: Fault::NoMemory,
            }),
        },
        // There is a first file.
        (None, None) => unreachable!(),
    }
}

/// A title with the number of profiles, and a line for each procedure.
fn text_of_sums(
    alloc: Global,
    statics: &Statics,
    count: usize,
    rows: &[ProcSum],
) -> Result<Vec<u8>, NoMemory>
    ensures { IfOk result (λ text. text.items ≡ sum_text statics.now count rows.now) }
{
    let title = sum_title(alloc, count)?;
    let mut text = Vec::from_slice(alloc, title.as_str().as_bytes())?;
    add_rows(alloc, &mut text, statics, rows)?;
    Ok(text)
}

fn sum_title(alloc: Global, count: usize) -> Result<String, AllocError>
    ensures { IfOk result (λ title. string_bytes title ≡ sum_title count) }
{
    format!(in alloc; "mdprof sum {count}\n")
}

fn add_rows(
    alloc: Global,
    text: &mut Vec<u8>,
    statics: &Statics,
    rows: &[ProcSum],
) -> Result<(), AllocError>
    ensures { OnOk result (text.new.items ≡ text.old.items ++ sum_lines statics.now rows.now) }
{
    for row in rows {
        let line = proc_line(alloc, statics, row.id, row.own, row.total)?;
        text.extend_from_slice(&line)?;
    }
    Ok(())
}
