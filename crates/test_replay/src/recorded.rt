// Handing events to a sink.
ghost use Rattle.std.specs.Prelude.{ℕ, ◌≤◌, length, OnOk, OnErr};
ghost use Rattle.test_replay.specs.Replays.{StandsWith, CanFollow, Follows, CanReplay, Replays};
ghost use Rattle.md_trace.specs.Sinks.{StandsAsBefore};

use md_base::NoMemory;
use md_trace::{Event, PortSink};
use std::alloc::Global;

/// Hands events to a sink, the first one first. Where the sink stood for the empty history, and the events are a port
/// history, it stands for that history then; after want of memory it stands for that of the events so far.
pub fn replay<S: PortSink>(alloc: Global, events: &[Event], sink: &mut S) -> Result<(), NoMemory>
    requires { CanReplay (S.stands_for sink.old) events.now }
    ensures whole { OnOk result (Replays (S.stands_for sink.old) (S.stands_for sink.new) events.now (length events.now)) }
    ensures part { OnErr result ((n : ℕ) × (n ≤ length events.now) × Replays (S.stands_for sink.old) (S.stands_for sink.new) events.now n) }
    ensures alike { S.alike sink.old sink.new }
{
    let mut marks = Vec::new(alloc);
    for event in events {
        hand(*event, sink, &mut marks)?;
    }
    Ok(())
}

/// Hands one event to a sink. The marks are those of the activations so far, by number.
fn hand<S: PortSink>(event: Event, sink: &mut S, marks: &mut Vec<S::Mark>) -> Result<(), NoMemory>
    requires { CanFollow (StandsWith (S.stands_for sink.old) S.belongs marks.old.items) event }
    ensures ok { OnOk result (Follows (StandsWith (S.stands_for sink.old) S.belongs marks.old.items) (StandsWith (S.stands_for sink.new) S.belongs marks.new.items) event) }
    ensures err { OnErr result (StandsAsBefore (S.stands_for sink.old) (S.stands_for sink.new)) }
    ensures alike { S.alike sink.old sink.new }
{
    match event {
        Event::Call { site, callee, .. } => {
            marks.reserve(1)?;
            marks.push_reserved(sink.call(site, callee)?);
        }
        Event::Exit { act } => sink.exit(&marks[act as usize]),
        Event::Redo { act } => sink.redo(&marks[act as usize]),
        Event::Fail { act } => sink.fail(&marks[act as usize]),
        Event::Excp { act } => sink.excp(&marks[act as usize]),
        Event::Alloc { words, .. } => sink.alloc(words),
    }
    Ok(())
}
