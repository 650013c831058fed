// The command `feedback`.
ghost use Rattle.std.specs.Prelude.{ℕ, ◌≡◌, ◌⊎◌, ◌≤◌, length, IfOk, IsTrue, MatchResult};
ghost use Rattle.md_base.specs.Outside.{Rose};
ghost use Rattle.md_cost.specs.FileView.{IsFileView};
ghost use Rattle.md_cost.specs.View.{View};
ghost use Rattle.md_dynamic.specs.Valid.{IsValid};
ghost use Rattle.law_events.specs.Laws.{IsWithinBounds};
ghost use Rattle.md_feedback.specs.Search.{HasSitesOf};
ghost use Rattle.md_feedback.specs.Text.{IsLeast};
ghost use Rattle.md_hlds.specs.Hlds.{Hlds, hlds_of};
ghost use Rattle.md_machine.specs.Ran.{IsRunOf};
ghost use Rattle.md_profiled.specs.OfRun.{IsProfileOfRun, IsViewOfRun};
ghost use Rattle.md_static.specs.Names.{is_name};
ghost use Rattle.md_tool.specs.Accepted.{TextFault};
ghost use Rattle.md_tool.specs.Candidates.{IsFeedbackOfRun, IsPaired};
ghost use Rattle.md_tool.specs.Due.{StoreEnds};
ghost use Rattle.md_tool.specs.Kept.{RunEnds, KeepEnds};
ghost use Rattle.md_tool.specs.Rises.{RisesBy};

use crate::accept::{accept, read_text};
use crate::fault::Fault;
use crate::run::ended;
use crate::write::write;
use law_spelled::texts_have_names;
use md_base::{NoMemory, Sink, Store, WriteFault, write_file};
use md_cost::Loaded;
use md_det::Checked;
use md_dynamic::Profile;
use md_feedback::{a_site_table_has_the_sites, feedback, write_feedback};
use md_machine::Ran;
use md_ports::tables_give_the_site_table;
use md_profiled::{Profiled, load_run, profile_run};
use std::alloc::Global;

/// A run, and the text of those pairs of its calls that could run side by side with profit.
#[derive(Drop)]
pub struct Paired {
    pub ran: Ran,
    pub text: Vec<u8>,
}

/// Runs the program of a file within so many steps, writes what it writes, and stores under a name which pairs of its calls
/// could run side by side with profit: those that have `least` total calls for each own call, or more.
pub fn feedback_file<S: Store, O: Sink>(
    alloc: Global,
    file: &str,
    new: &str,
    steps: u32,
    least: u32,
    store: &mut S,
    out: &mut O,
) -> Result<(), Fault>
    requires { IsLeast least }
    ensures ends { RunEnds (IsFeedbackOfRun least steps) (S.held store.old) (S.held store.new) file.now steps new.now (O.held out.old) (O.held out.new)
        (Rose (S.read_faults store.old) (S.read_faults store.new)) (Rose (S.write_faults store.old) (S.write_faults store.new))
        (Rose (O.write_faults out.old) (O.write_faults out.new)) result }
    ensures reads { RisesBy Fault.Read (S.read_faults store.old) (S.read_faults store.new) result }
    ensures writes { RisesBy Fault.Write (S.write_faults store.old) (S.write_faults store.new) result }
    ensures outs { RisesBy Fault.Write (O.write_faults out.old) (O.write_faults out.new) result }
    ensures one { (S.write_faults store.new ≡ S.write_faults store.old) ⊎ (O.write_faults out.new ≡ O.write_faults out.old) }
{
    let text = read_text(alloc, file, store)?;
    let paired = pair_text(alloc, &text, steps, least)?;
    keep_text(paired, new, store, out)
}

/// Runs the program of a text within so many steps, and finds its pairs.
fn pair_text(alloc: Global, text: &[u8], steps: u32, least: u32) -> Result<Paired, Fault>
    requires short { length text.now ≤ 1048576 }
    requires least { IsLeast least }
    ensures { MatchResult result (IsPaired text.now steps least) (TextFault text.now) }
{
    let checked = accept(alloc, text)?;
    texts_have_names();
    match pair_run(alloc, &checked, steps, least) {
        Ok(paired) => Ok(paired),
        Err(_) => Err(Fault::NoMemory),
    }
}

/// Runs a checked program within so many steps, and finds its pairs.
fn pair_run(alloc: Global, checked: &Checked, steps: u32, least: u32) -> Result<Paired, NoMemory>
    requires name { IsTrue (is_name (hlds_of checked.now).module_name) }
    requires least { IsLeast least }
    ensures run { IfOk result (λ paired. IsRunOf (hlds_of checked.now) steps paired.ran) }
    ensures text { IfOk result (λ paired. IsFeedbackOfRun least steps (hlds_of checked.now) paired.text.items) }
{
    let Profiled { ran, profile } = profile_run(alloc, checked, steps)?;
    let text = pairs_text(alloc, checked, profile, least)?;
    Ok(Paired { ran, text })
}

/// The text of a run's pairs, by its profile.
fn pairs_text(
    alloc: Global,
    checked: &Checked,
    profile: Profile,
    least: u32,
) -> Result<Vec<u8>, NoMemory>
    requires valid { IsValid profile }
    requires of_run { (budget : ℕ) × IsWithinBounds (hlds_of checked.now) budget × IsProfileOfRun (hlds_of checked.now) budget profile }
    requires name { IsTrue (is_name (hlds_of checked.now).module_name) }
    requires least { IsLeast least }
    ensures { IfOk result (λ text. (budget : ℕ) → IsWithinBounds (hlds_of checked.now) budget → IsProfileOfRun (hlds_of checked.now) budget profile
        → IsFeedbackOfRun least budget (hlds_of checked.now) text.items) }
{
    tables_give_the_site_table();
    a_site_table_has_the_sites();
    let loaded = load_run(alloc, profile)?;
    loaded_pairs(alloc, checked, &loaded, least)
}

/// The text of a run's pairs, by its loaded profile.
fn loaded_pairs(
    alloc: Global,
    checked: &Checked,
    loaded: &Loaded,
    least: u32,
) -> Result<Vec<u8>, NoMemory>
    requires sites { HasSitesOf (hlds_of checked.now) loaded.now.profile.statics }
    requires name { IsTrue (is_name (hlds_of checked.now).module_name) }
    requires least { IsLeast least }
    ensures { IfOk result (λ text. (budget : ℕ) → ((v : View) → IsFileView loaded.now.profile v → IsViewOfRun (hlds_of checked.now) budget v)
        → IsFeedbackOfRun least budget (hlds_of checked.now) text.items) }
{
    // What is found is of the view of the profile, which has one.
    let _viewed = loaded.profile();
    let feedback = feedback(alloc, checked, loaded, u64::from(least))?;
    let text = write_feedback(alloc, &feedback)?;
    Ok(text)
}

/// Writes a run's output, stores the text of its pairs, and answers how it ended.
fn keep_text<S: Store, O: Sink>(
    paired: Paired,
    new: &str,
    store: &mut S,
    out: &mut O,
) -> Result<(), Fault>
    ensures ends { (program : Hlds) (steps least : ℕ) → IsRunOf program steps paired.ran → IsFeedbackOfRun least steps program paired.text.items
        → KeepEnds (IsFeedbackOfRun least steps program) program steps new.now (S.held store.old) (S.held store.new) (O.held out.old) (O.held out.new)
        (Rose (S.write_faults store.old) (S.write_faults store.new)) (Rose (O.write_faults out.old) (O.write_faults out.new)) result }
    ensures reads { S.read_faults store.new ≡ S.read_faults store.old }
    ensures writes { RisesBy Fault.Write (S.write_faults store.old) (S.write_faults store.new) result }
    ensures outs { RisesBy Fault.Write (O.write_faults out.old) (O.write_faults out.new) result }
    ensures one { (S.write_faults store.new ≡ S.write_faults store.old) ⊎ (O.write_faults out.new ≡ O.write_faults out.old) }
{
    let Paired { ran, text } = paired;
    write(out, &ran.output)?;
    store_text(&text, new, store)?;
    ended(ran)
}

/// Stores a text under a name.
fn store_text<S: Store>(text: &[u8], name: &str, store: &mut S) -> Result<(), Fault>
    ensures ends { StoreEnds name.now text.now (S.held store.old) (S.held store.new) (Rose (S.write_faults store.old) (S.write_faults store.new)) result }
    ensures reads { S.read_faults store.new ≡ S.read_faults store.old }
    ensures writes { RisesBy Fault.Write (S.write_faults store.old) (S.write_faults store.new) result }
{
    match write_file(store, name, text) {
        Ok(()) => Ok(()),
        Err(WriteFault::Write) => Err(Fault::Write),
        Err(WriteFault::NoMemory) => Err(Fault::NoMemory),
    }
}
