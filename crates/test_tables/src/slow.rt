// A slow program that reads contexts, links and counts off a list of events: for each activation it looks at all the
// others.
use md_base::{Counts, Measure, NoMemory};
use md_trace::Event;
use std::alloc::Global;

/// An activation: who called it, the context of the caller and the site, its procedure, and its own context.
#[derive(Clone, Copy)]
pub struct Activation {
    pub parent: Option<u32>,
    pub caller: Option<u32>,
    pub site: Option<u32>,
    pub procedure: u32,
    pub context: u32,
}

/// A link, the context to which it leads, and how many events fall on its activations.
#[derive(Clone, Copy)]
pub struct Link {
    pub activation: Activation,
    pub own: Counts,
}

/// The activations of the events, in their contexts.
pub fn activations(alloc: Global, events: &[Event]) -> Result<Vec<Activation>, NoMemory> {
    let mut all = Vec::new(alloc);
    for event in events {
        if let Event::Call {
            parent,
            site,
            callee,
            ..
        } = event
        {
            let new = placed(&all, *parent, site.map(|s| s.number()), callee.number());
            all.push(new)?;
        }
    }
    Ok(all)
}

/// A new activation in its context, by the first rule that applies: that of an earlier one with the same link, that of
/// the nearest of the same procedure in the caller's chain, or a new one.
fn placed(
    all: &[Activation],
    parent: Option<u32>,
    site: Option<u32>,
    procedure: u32,
) -> Activation {
    let caller = match parent {
        Some(a) => all.get(a as usize).map(|x| x.context),
        None => None,
    };
    let context = match with_link(all, caller, site, procedure) {
        Some(context) => context,
        None => match in_chain(all, parent, procedure) {
            Some(context) => context,
            None => next_context(all),
        },
    };
    Activation {
        parent,
        caller,
        site,
        procedure,
        context,
    }
}

/// The context of the first activation with this link.
fn with_link(
    all: &[Activation],
    caller: Option<u32>,
    site: Option<u32>,
    procedure: u32,
) -> Option<u32> {
    for old in all {
        if old.caller == caller && old.site == site && old.procedure == procedure {
            return Some(old.context);
        }
    }
    None
}

/// The context of the nearest activation of this procedure in a chain.
fn in_chain(all: &[Activation], from: Option<u32>, procedure: u32) -> Option<u32> {
    let mut next = from;
    for _ in all {
        let Some(a) = next else {
            return None;
        };
        let Some(old) = all.get(a as usize) else {
            return None;
        };
        if old.procedure == procedure {
            return Some(old.context);
        }
        next = old.parent;
    }
    None
}

/// The number after those of all contexts.
fn next_context(all: &[Activation]) -> u32 {
    let mut next = 0u32;
    for old in all {
        next = next.max(old.context.saturating_add(1));
    }
    next
}

/// The links of the activations, by first use, with their counts.
pub fn links(alloc: Global, all: &[Activation], events: &[Event]) -> Result<Vec<Link>, NoMemory> {
    let mut found = links_uncounted(alloc, all)?;
    for event in events {
        count(&mut found, all, *event);
    }
    Ok(found)
}

/// The same, with no counts.
fn links_uncounted(alloc: Global, all: &[Activation]) -> Result<Vec<Link>, NoMemory> {
    let mut found = Vec::new(alloc);
    for new in all {
        if place_of(&found, new).is_none() {
            found.push(Link {
                activation: *new,
                own: Counts::default(),
            })?;
        }
    }
    Ok(found)
}

/// The place of an activation's link.
fn place_of(links: &[Link], x: &Activation) -> Option<usize> {
    links.iter().position(|link| {
        link.activation.caller == x.caller
            && link.activation.site == x.site
            && link.activation.procedure == x.procedure
    })
}

/// Counts one event on the link of its activation.
fn count(links: &mut Vec<Link>, all: &[Activation], event: Event) {
    let (act, measure) = match event {
        Event::Call { act, .. } => (act, Measure::Calls),
        Event::Exit { act } => (act, Measure::Exits),
        Event::Fail { act } => (act, Measure::Fails),
        Event::Excp { act } => (act, Measure::Excps),
        Event::Redo { act } => (act, Measure::Redos),
        Event::Alloc { act, .. } => (act, Measure::Allocs),
    };
    let Some(x) = all.get(act as usize) else {
        return;
    };
    let Some(place) = place_of(links, x) else {
        return;
    };
    if let Some(link) = links.get_mut(place) {
        link.own.add(measure, 1);
        if let Event::Alloc { words, .. } = event {
            link.own.add(Measure::Words, words);
        }
    }
}
