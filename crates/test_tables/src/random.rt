// Runs with interleaved exits, redos, cuts and exceptions over given tables, made by a small generator with a fixed seed.
use crate::walk::{beginning, call};
use md_base::{NoMemory, ProcId};
use md_static::{SiteKind, Statics};
use md_trace::Event;
use std::alloc::Global;

/// The number after a number that looks random.
fn next_state(state: u32) -> u32 {
    state.wrapping_mul(1_664_525).wrapping_add(1_013_904_223)
}

/// A number below this many.
fn below(state: u32, many: u32) -> u32 {
    (state >> 16).checked_rem(many).unwrap_or(0)
}

/// One activation of the run so far.
#[derive(Clone, Copy)]
struct Row {
    parent: Option<u32>,
    procedure: ProcId,
    exited: bool,
}

/// How far a run is: who runs, how many were called, and the number that looks random.
#[derive(Clone, Copy)]
struct Now {
    current: Option<u32>,
    called: u32,
    state: u32,
}

/// The events of a run over these tables: at most this many after the call of the main procedure.
pub fn random_events(
    alloc: Global,
    statics: &Statics,
    seed: u32,
    count: u32,
) -> Result<Vec<Event>, NoMemory> {
    let mut events = Vec::new(alloc);
    let mut rows = Vec::new(alloc);
    let mut now = Now {
        current: after(&mut rows, None, beginning())?,
        called: 1,
        state: seed,
    };
    events.push(beginning())?;
    for _ in 0..count {
        now.state = next_state(now.state);
        if let Some(event) = next_event(statics, &rows, now) {
            events.push(event)?;
            now.current = after(&mut rows, now.current, event)?;
            if let Event::Call { act, .. } = event {
                now.called = act.wrapping_add(1);
            }
        }
    }
    Ok(events)
}

/// What comes next, if anything does: a call, a way out of the activation that runs, or a redo of some other. The main
/// procedure's activation isn't left, since nothing comes after its end.
fn next_event(statics: &Statics, rows: &[Row], now: Now) -> Option<Event> {
    let act = now.current?;
    match below(now.state, 20) {
        0..=7 => go_down(statics, rows, act, now),
        8..=11 if act > 0 => Some(Event::Exit { act }),
        12 if act > 0 => Some(Event::Fail { act }),
        13 if act > 0 => Some(Event::Excp { act }),
        14..=17 => come_back(rows, now),
        _ => Some(Event::Alloc {
            act,
            words: below(next_state(now.state), 5),
        }),
    }
}

/// A call at some site of the procedure that runs.
fn go_down(statics: &Statics, rows: &[Row], act: u32, now: Now) -> Option<Event> {
    let row = rows.get(act as usize)?;
    let next = next_state(now.state);
    let sites = u32::try_from(statics.sites().len()).unwrap_or(0);
    for turn in 0..sites {
        let place = below(next, sites).wrapping_add(turn).checked_rem(sites)?;
        let site = statics.sites().get(place as usize)?;
        if site.owner == row.procedure {
            let callee = callee_at(statics, site.kind, next);
            return Some(call(now.called, act, place, callee));
        }
    }
    None
}

/// The procedure that a site calls: of a higher-order site, any.
fn callee_at(statics: &Statics, kind: SiteKind, next: u32) -> ProcId {
    match kind {
        SiteKind::Plain(callee) => callee,
        SiteKind::HigherOrder => {
            let procs = u32::try_from(statics.procs().len()).unwrap_or(0);
            ProcId::new(below(next, procs))
        }
    }
}

/// Some activation that has exited is entered again by its caller; those after it are cut.
fn come_back(rows: &[Row], now: Now) -> Option<Event> {
    let act = below(next_state(now.state), now.called);
    let row = rows.get(act as usize)?;
    if row.exited && row.parent == now.current {
        Some(Event::Redo { act })
    } else {
        None
    }
}

/// Who runs after this event.
fn after(rows: &mut Vec<Row>, current: Option<u32>, event: Event) -> Result<Option<u32>, NoMemory> {
    match event {
        Event::Call {
            act,
            parent,
            callee,
            ..
        } => {
            rows.push(Row {
                parent,
                procedure: callee,
                exited: false,
            })?;
            Ok(Some(act))
        }
        Event::Exit { act } => Ok(leave(rows, act, true)),
        Event::Fail { act } | Event::Excp { act } => Ok(leave(rows, act, false)),
        Event::Redo { act } => {
            let _ = leave(rows, act, false);
            Ok(Some(act))
        }
        Event::Alloc { .. } => Ok(current),
    }
}

/// The activation is left, and its parent runs.
fn leave(rows: &mut [Row], act: u32, exited: bool) -> Option<u32> {
    let row = rows.get_mut(act as usize)?;
    row.exited = exited;
    row.parent
}
