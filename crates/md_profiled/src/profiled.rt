// A run with its profile.
ghost use Rattle.std.specs.Prelude.{◌≡◌, IfOk};
ghost use Rattle.md_hlds.specs.Hlds.{hlds_of};
ghost use Rattle.md_profiled.specs.OfRun.{IsProfiled, finishes};

use law_spelled::{accepted_texts_are_within_bounds, accepted_texts_have_mains};
use md_base::NoMemory;
use md_det::Checked;
use md_dynamic::Profile;
use md_machine::{End, Ran, interpret};
use md_ports::{statics, tables_give_the_site_table, tables_of_a_text_are_sound};
use md_record::Recorder;
use std::alloc::Global;

/// A run, and the profile that was recorded of it.
#[derive(Drop)]
pub struct Profiled {
    pub ran: Ran,
    pub profile: Profile,
}

/// Runs a checked program within a budget of steps, and records its profile: output and end are those of its run by the
/// definition, and the profile's contexts, links and own counts those of the history of the run's events.
pub fn profile_run(alloc: Global, checked: &Checked, budget: u32) -> Result<Profiled, NoMemory>
    ensures { IfOk result (λ profiled. IsProfiled (hlds_of checked.now) budget profiled) }
{
    tables_give_the_site_table();
    tables_of_a_text_are_sound();
    accepted_texts_are_within_bounds();
    accepted_texts_have_mains();
    // A checked program is that of a text, and has no fault of modes, as this call tells.
    let _ = checked.program();
    let tables = statics(alloc, checked.moded())?;
    let mut recorder = Recorder::new(alloc, tables, checked.main())?;
    let ran = interpret(alloc, checked, budget, &mut recorder)?;
    let profile = recorder.into_profile(finishes(ran.end));
    Ok(Profiled { ran, profile })
}

/// Whether an end is that of a finished run.
fn finishes(end: End) -> bool
    ensures { result ≡ finishes end }
{
    match end {
        End::Finished => true,
        End::Thrown => false,
        End::OutOfSteps => false,
    }
}
