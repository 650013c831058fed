// The events of a run, as lines `call ACT PARENT SITE CALLEE`, `exit ACT`, `redo ACT`, `fail ACT`, `excp ACT` and
// `alloc ACT WORDS`; the call of the main procedure has `-` for its parent and its site.
use crate::words::{number, number_or_zero};
use md_base::{NoMemory, ProcId, SiteId};
use md_trace::Event;
use std::alloc::Global;
use test_cases::Case;

/// The case's events, the first one first.
pub fn events(alloc: Global, case: &Case) -> Result<Vec<Event>, NoMemory> {
    let mut events = Vec::new(alloc);
    for field in case.fields() {
        let (act, next, site, callee) = words_of(field.text.as_str());
        if let Some(event) = event_of(field.key.as_str(), act, next, site, callee) {
            events.push(event)?;
        }
    }
    Ok(events)
}

/// The words of a line: an activation, its caller or a number of words, a site and a procedure.
fn words_of(text: &str) -> (u32, Option<u32>, Option<SiteId>, ProcId) {
    let mut words = text.split(' ');
    let act = number_or_zero(words.next());
    let next = number(words.next());
    let site = number(words.next()).map(|site| SiteId::new(site));
    let callee = ProcId::new(number_or_zero(words.next()));
    (act, next, site, callee)
}

/// The event that a line of this key tells, if it tells one.
fn event_of(
    key: &str,
    act: u32,
    next: Option<u32>,
    site: Option<SiteId>,
    callee: ProcId,
) -> Option<Event> {
    match key {
        "call" => Some(Event::Call {
            act,
            parent: next,
            site,
            callee,
        }),
        "exit" => Some(Event::Exit { act }),
        "redo" => Some(Event::Redo { act }),
        "fail" => Some(Event::Fail { act }),
        "excp" => Some(Event::Excp { act }),
        "alloc" => Some(Event::Alloc {
            act,
            words: next.unwrap_or(0),
        }),
        _ => None,
    }
}
