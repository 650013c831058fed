// What a run's recorded events give.
ghost use Rattle.std.specs.Prelude.{◌≡◌, ◌<◌, length, reverse, IfOk, OnOk};
ghost use Rattle.md_static.specs.Sound.{IsSound};
ghost use Rattle.md_static.specs.Tables.{site_table};
ghost use Rattle.md_trace.specs.Counted.{CountsFor};
ghost use Rattle.md_record.specs.Kept.{Stands};
ghost use Rattle.test_replay.specs.Profiles.{AreHistory, ProfileOf, CountsOf};

use crate::history::is_port_history;
use crate::recorded::replay;
use md_base::{NoMemory, ProcId};
use md_dynamic::Profile;
use md_record::Recorder;
use md_static::Statics;
use md_trace::{Counter, Event};
use std::alloc::Global;

/// The profile of these events, the first one first: their contexts and links with own counts, as a recorder keeps
/// them. None where the events are no port history.
pub fn profile_of_events(
    alloc: Global,
    statics: Statics,
    main: ProcId,
    events: &[Event],
    finished: bool,
) -> Result<Option<Profile>, NoMemory>
    requires sound { IsSound statics }
    requires main_there { main < length statics.procs }
    ensures { IfOk result (λ profile. ProfileOf statics main events.now finished profile) }
{
    if !is_port_history(alloc, &statics, main, events)? {
        return Ok(None);
    }
    let mut recorder = Recorder::new(alloc, statics, main)?;
    replay(alloc, events, &mut recorder)?;
    Ok(Some(recorder.into_profile(finished)))
}

/// A counter that has counted these events, the first one first. None where they are no port history.
pub fn counter_of_events(
    alloc: Global,
    statics: &Statics,
    main: ProcId,
    events: &[Event],
) -> Result<Option<Counter>, NoMemory>
    requires sound { IsSound statics.now }
    requires main_there { main < length statics.now.procs }
    ensures { IfOk result (λ counter. CountsOf statics.now main events.now counter) }
{
    if !is_port_history(alloc, statics, main, events)? {
        return Ok(None);
    }
    let mut counter = Counter::new(alloc, statics.procs().len() as u32)?;
    replay(alloc, events, &mut counter)?;
    Ok(Some(counter))
}
