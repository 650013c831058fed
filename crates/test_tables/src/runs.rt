// What the events of a case give: whether they are a port history, and their profile. The main procedure is procedure 0.
ghost use Rattle.md_static.specs.Sound.{IsSound};

use crate::events::events;
use crate::rows::show_link;
use crate::tables::sound_tables;
use md_base::{NoMemory, ProcId};
use md_dynamic::Profile;
use md_static::Statics;
use md_trace::Event;
use std::alloc::Global;
use test_cases::Case;
use test_replay::{is_port_history, profile_of_events};

/// Whether the events are a port history over the tables.
pub fn show_history(alloc: Global, case: &Case, found: &mut String) -> Result<(), NoMemory> {
    let events = events(alloc, case)?;
    let said = if is_history(alloc, case, &events)? {
        "a port history"
    } else {
        "no port history"
    };
    writeln!(found, "{said}")?;
    Ok(())
}

/// Whether the tables are sound, and these events a port history over them.
fn is_history(alloc: Global, case: &Case, events: &[Event]) -> Result<bool, NoMemory> {
    match sound_tables(alloc, case)? {
        Some(statics) => is_port_history(alloc, &statics, ProcId::new(0), events),
        None => Ok(false),
    }
}

/// How many contexts the profile of the events has, its links with their counts, and whether it is valid.
pub fn show_profile(alloc: Global, case: &Case, found: &mut String) -> Result<(), NoMemory> {
    let events = events(alloc, case)?;
    match profile(alloc, case, &events)? {
        Some(profile) => show_rows(&profile, found),
        None => show_none(found),
    }
}

/// The profile of these events of a finished run, where the tables are sound and the events a port history over them.
pub fn profile(alloc: Global, case: &Case, events: &[Event]) -> Result<Option<Profile>, NoMemory> {
    match sound_tables(alloc, case)? {
        Some(statics) => profile_over(alloc, statics, events),
        None => Ok(None),
    }
}

fn profile_over(
    alloc: Global,
    statics: Statics,
    events: &[Event],
) -> Result<Option<Profile>, NoMemory>
    requires { IsSound statics }
{
    profile_of_events(alloc, statics, ProcId::new(0), events, true)
}

fn show_rows(profile: &Profile, found: &mut String) -> Result<(), NoMemory> {
    writeln!(found, "contexts {}", profile.nodes().len())?;
    for link in profile.links() {
        show_link(link, found)?;
    }
    Ok(())
}

/// Adds that there is no profile.
pub fn show_none(found: &mut String) -> Result<(), NoMemory> {
    writeln!(found, "no profile")?;
    Ok(())
}
