// Whether the recorder agrees with a slow program, and with the counter, on runs that look random.
ghost use Rattle.std.specs.Prelude.{◌<◌, length};
ghost use Rattle.md_static.specs.Sound.{IsSound};

use crate::random::random_events;
use crate::runs::profile;
use crate::slow::{Activation, Link, activations, links};
use crate::tables::{sound_tables, tables};
use crate::words::number_or_zero;
use md_base::{Measure, NoMemory, ProcId};
use md_dynamic::Profile;
use md_static::Statics;
use md_trace::{Counter, Event};
use std::alloc::Global;
use test_cases::Case;
use test_replay::counter_of_events;

/// For each line `random SEED COUNT` whether all agree on a run over the case's tables, made with this seed and of at most
/// about so many events.
pub fn show_agreement(alloc: Global, case: &Case, found: &mut String) -> Result<(), NoMemory> {
    for field in case.fields() {
        if field.key.as_str() == "random" {
            show_run(alloc, case, field.text.as_str(), found)?;
        }
    }
    Ok(())
}

fn show_run(alloc: Global, case: &Case, text: &str, found: &mut String) -> Result<(), NoMemory> {
    let mut words = text.split(' ');
    let seed = number_or_zero(words.next());
    let count = number_or_zero(words.next());
    let events = events_of(alloc, case, seed, count)?;
    let said = match profile(alloc, case, &events)? {
        Some(profile) => agreement(alloc, case, &profile, &events)?,
        None => "no profile",
    };
    writeln!(found, "seed {seed}: {said}")?;
    Ok(())
}

fn events_of(alloc: Global, case: &Case, seed: u32, count: u32) -> Result<Vec<Event>, NoMemory> {
    let statics = tables(alloc, case)?;
    random_events(alloc, &statics, seed, count)
}

/// Who agrees with a recorded profile of these events.
fn agreement(
    alloc: Global,
    case: &Case,
    profile: &Profile,
    events: &[Event],
) -> Result<&'static str, NoMemory> {
    let slow = slow_agrees(alloc, profile, events)?;
    let counter = counter_agrees(alloc, case, profile, events)?;
    Ok(match (slow, counter) {
        (true, true) => "all agree",
        (true, false) => "the counter differs",
        (false, true) => "the slow program differs",
        (false, false) => "both differ",
    })
}

/// Whether recorder and slow program agree on these events.
fn slow_agrees(alloc: Global, profile: &Profile, events: &[Event]) -> Result<bool, NoMemory> {
    let all = activations(alloc, events)?;
    let slow = links(alloc, &all, events)?;
    Ok(links_agree(profile, &slow) && contexts_agree(profile, &all))
}

/// Whether a profile has these links, as a slow program has found them.
fn links_agree(profile: &Profile, links: &[Link]) -> bool {
    if profile.links().len() != links.len() {
        return false;
    }
    for (link, is) in profile.links().iter().zip(links) {
        let same = link.caller.map(|v| v.number()) == is.activation.caller
            && link.site.map(|s| s.number()) == is.activation.site
            && link.callee.number() == is.activation.context
            && link.own == is.own;
        if !same {
            return false;
        }
    }
    true
}

/// Whether the context of each activation is one of its procedure.
fn contexts_agree(profile: &Profile, all: &[Activation]) -> bool {
    for x in all {
        let found = profile.nodes().get(x.context as usize).copied();
        if found != Some(ProcId::new(x.procedure)) {
            return false;
        }
    }
    true
}

/// Whether recorder and counter agree on these events.
fn counter_agrees(
    alloc: Global,
    case: &Case,
    profile: &Profile,
    events: &[Event],
) -> Result<bool, NoMemory> {
    match sound_tables(alloc, case)? {
        Some(statics) => counter_over(alloc, &statics, profile, events),
        None => Ok(false),
    }
}

fn counter_over(
    alloc: Global,
    statics: &Statics,
    profile: &Profile,
    events: &[Event],
) -> Result<bool, NoMemory>
    requires { IsSound statics.now }
{
    let procs = statics.procs().len() as u32;
    let Some(counter) = counter_of_events(alloc, statics, ProcId::new(0), events)? else {
        return Ok(false);
    };
    for procedure in 0..procs {
        if !sums_agree(profile, &counter, procedure) {
            return Ok(false);
        }
    }
    Ok(true)
}

/// Whether a counter has the sums of a profile for this procedure.
fn sums_agree(profile: &Profile, counter: &Counter, procedure: u32) -> bool
    requires { procedure < length counter.now.own }
{
    let own = counter.own(ProcId::new(procedure));
    for measure in [
        Measure::Calls,
        Measure::Exits,
        Measure::Fails,
        Measure::Redos,
        Measure::Allocs,
        Measure::Words,
        Measure::Excps,
    ] {
        if own.of(measure) != together(profile, procedure, measure) {
            return false;
        }
    }
    true
}

/// How many of a measure the links of this procedure have together.
fn together(profile: &Profile, procedure: u32, measure: Measure) -> u32 {
    let mut sum = 0u32;
    for link in profile.links() {
        if let Some(q) = profile.nodes().get(link.callee.number() as usize) {
            if q.number() == procedure {
                sum = sum.saturating_add(link.own.of(measure));
            }
        }
    }
    sum
}
