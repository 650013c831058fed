// A long run, in which each activation calls once at each plain site of its procedure, in order, and exits.
use crate::runs::{profile, show_none};
use crate::tables::tables;
use md_base::{NoMemory, ProcId, SiteId};
use md_dynamic::Profile;
use md_static::{Site, SiteKind};
use md_trace::Event;
use std::alloc::Global;
use test_cases::Case;

/// No more steps than this are made.
const MOST: u32 = 4_000_000;

/// How many events the run over the case's tables has, and how many contexts and links its profile has.
pub fn show_sizes(alloc: Global, case: &Case, found: &mut String) -> Result<(), NoMemory> {
    let events = walk_of(alloc, case)?;
    writeln!(found, "events {}", events.len())?;
    match profile(alloc, case, &events)? {
        Some(profile) => show_rows(&profile, found),
        None => show_none(found),
    }
}

fn show_rows(profile: &Profile, found: &mut String) -> Result<(), NoMemory> {
    writeln!(found, "contexts {}", profile.nodes().len())?;
    writeln!(found, "links {}", profile.links().len())?;
    Ok(())
}

/// The events of the run over the case's tables.
fn walk_of(alloc: Global, case: &Case) -> Result<Vec<Event>, NoMemory> {
    let statics = tables(alloc, case)?;
    walk(alloc, statics.sites())
}

/// An activation that runs: its number, its procedure, and the site where it looks next for one of its own.
#[derive(Clone, Copy)]
struct Running {
    act: u32,
    procedure: ProcId,
    next: u32,
}

/// The events of the run over these sites.
fn walk(alloc: Global, sites: &[Site]) -> Result<Vec<Event>, NoMemory> {
    let mut events = Vec::new(alloc);
    let mut chain = Vec::new(alloc);
    let procedure = ProcId::new(0);
    let nowhere: Option<SiteId> = None;
    events.push(Event::Call {
        act: 0,
        parent: None,
        site: nowhere,
        callee: procedure,
    })?;
    chain.push(Running {
        act: 0,
        procedure,
        next: 0,
    })?;
    let mut called = 1u32;
    for _ in 0..MOST {
        match chain.pop() {
            None => break,
            Some(top) => called = step(sites, top, called, &mut chain, &mut events)?,
        }
    }
    Ok(events)
}

/// Adds the next call or the exit of the activation that runs, which is taken off the chain. Gives the number of the next
/// activation that will be called.
fn step(
    sites: &[Site],
    top: Running,
    called: u32,
    chain: &mut Vec<Running>,
    events: &mut Vec<Event>,
) -> Result<u32, NoMemory> {
    let act = top.act;
    let procedure = top.procedure;
    match next_call(sites, top) {
        None => {
            events.push(Event::Exit { act })?;
            Ok(called)
        }
        Some((place, callee)) => {
            let site = Some(SiteId::new(place));
            events.push(Event::Call {
                act: called,
                parent: Some(act),
                site,
                callee,
            })?;
            let next = place.wrapping_add(1);
            chain.push(Running {
                act,
                procedure,
                next,
            })?;
            chain.push(Running {
                act: called,
                procedure: callee,
                next: 0,
            })?;
            Ok(called.wrapping_add(1))
        }
    }
}

/// The next plain site of the procedure that runs, and the procedure that it calls.
fn next_call(sites: &[Site], running: Running) -> Option<(u32, ProcId)> {
    for place in running.next..u32::MAX {
        let site = sites.get(place as usize)?;
        match site.kind {
            SiteKind::Plain(callee) if site.owner == running.procedure => {
                return Some((place, callee));
            }
            _ => {}
        }
    }
    None
}

/// The call of the main procedure.
pub fn beginning() -> Event {
    Event::Call {
        act: 0,
        parent: None,
        site: None,
        callee: ProcId::new(0),
    }
}

/// A call by an activation at a site.
pub fn call(act: u32, parent: u32, site: u32, callee: ProcId) -> Event {
    Event::Call {
        act,
        parent: Some(parent),
        site: Some(SiteId::new(site)),
        callee,
    }
}
