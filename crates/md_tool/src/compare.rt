// The command `compare`.
ghost use Rattle.std.specs.Prelude.{◌≡◌, ◌≤◌, MatchResult};
ghost use Rattle.md_base.specs.Outside.{Rose};
ghost use Rattle.md_tool.specs.Stored.{IsLoadedFrom, ViewFails};
ghost use Rattle.md_tool.specs.Due.{TextEnds};
ghost use Rattle.md_tool.specs.Compared.{CompareStops, IsComparison};
ghost use Rattle.md_tool.specs.Rises.{RisesBy, RisesByOne};

use crate::fault::{Fault, Stopped};
use crate::stored::load_file;
use crate::write::write;
use md_base::{Measure, Sink, Store};
use md_compare::compare_text;
use md_cost::Loaded;
use std::alloc::Global;

/// Writes which procedures cost otherwise in a new profile than in an old one, by a measure: those whose difference is at least so many
/// thousandths of the old whole. Both files are read and loaded before, the old one first.
pub fn compare_files<'a, S: Store, O: Sink>(
    alloc: Global,
    old: &'a str,
    new: &'a str,
    by: Measure,
    least: u32,
    store: &mut S,
    out: &mut O,
) -> Result<(), Stopped<'a>>
    ensures ends { CompareStops (S.held store.old) old.now new.now by least (O.held out.old) (O.held out.new)
        (Rose (S.read_faults store.old) (S.read_faults store.new)) (Rose (O.write_faults out.old) (O.write_faults out.new)) result }
    ensures kept { S.held store.new ≡ S.held store.old }
    ensures reads { RisesByOne Fault.Read (S.read_faults store.old) (S.read_faults store.new) result }
    ensures writes { S.write_faults store.new ≡ S.write_faults store.old }
    ensures outs { RisesByOne Fault.Write (O.write_faults out.old) (O.write_faults out.new) result }
{
    let before = load_named(alloc, old, store)?;
    let after = load_named(alloc, new, store)?;
    match write_comparison(alloc, &before, &after, by, least, out) {
        Ok(()) => Ok(()),
        Err(fault) => Err(Stopped { file: "", fault }),
    }
}

/// Loads the profile in a file, which is named where it is at fault.
fn load_named<'a, S: Store>(
    alloc: Global,
    name: &'a str,
    store: &mut S,
) -> Result<Loaded, Stopped<'a>>
    ensures loaded { MatchResult result (IsLoadedFrom (S.held store.old) name.now)
        (λ stopped. (stopped.file.now ≡ name.now) × ViewFails (S.held store.old) name.now (Rose (S.read_faults store.old) (S.read_faults store.new)) stopped.fault) }
    ensures kept { S.held store.new ≡ S.held store.old }
    ensures later { S.read_faults store.old ≤ S.read_faults store.new }
    ensures reads { RisesByOne Fault.Read (S.read_faults store.old) (S.read_faults store.new) result }
    ensures writes { S.write_faults store.new ≡ S.write_faults store.old }
{
    match load_file(alloc, name, store) {
        Ok(loaded) => Ok(loaded),
        Err(fault) => Err(Stopped { file: name, fault }),
    }
}

/// Writes the comparison of two loaded profiles.
fn write_comparison<O: Sink>(
    alloc: Global,
    old: &Loaded,
    new: &Loaded,
    by: Measure,
    least: u32,
    out: &mut O,
) -> Result<(), Fault>
    ensures ends { TextEnds (IsComparison old.now.profile new.now.profile by least) ⊥ (O.held out.old) (O.held out.new) (Rose (O.write_faults out.old) (O.write_faults out.new)) result }
    ensures outs { RisesBy Fault.Write (O.write_faults out.old) (O.write_faults out.new) result }
{
    // What is written is of the views of both profiles, which have one each.
    let _old_viewed = old.profile();
    let _new_viewed = new.profile();
    match compare_text(alloc, old, new, by, least) {
        Ok(text) => write(out, &text),
        Err(_) => Err(Fault::NoMemory),
    }
}
