// A port history that is being made.
use md_base::{NoMemory, ProcId, SiteId};
use md_trace::Event;
use std::alloc::Global;

/// What comes next: a call at a site, if it has one, of a procedure, or another port of an activation.
enum Step {
    Call(Option<u32>, u32),
    Exit(u32),
    Redo(u32),
    Fail(u32),
}

/// The events of a run so far, and the activations that run, the latest last.
#[derive(Drop)]
pub struct History {
    events: Vec<Event>,
    running: Vec<u32>,
    calls: u32,
}

impl History {
    /// No events yet.
    pub fn new(alloc: Global) -> History {
        History {
            events: Vec::new(alloc),
            running: Vec::new(alloc),
            calls: 0,
        }
    }

    /// The events, the first one first.
    pub fn into_events(self) -> Vec<Event> {
        let History {
            events,
            running: _,
            calls: _,
        } = self;
        events
    }

    /// The latest activation calls a procedure, or the run begins where there is no site. Gives the new activation's number.
    pub fn call(&mut self, site: Option<u32>, callee: u32) -> Result<u32, NoMemory> {
        let act = self.calls;
        self.add(Step::Call(site, callee))?;
        self.running.push(act)?;
        self.calls = act.saturating_add(1);
        Ok(act)
    }

    /// The latest activation has found a solution.
    pub fn exit(&mut self) -> Result<(), NoMemory> {
        match self.running.pop() {
            Some(act) => self.add(Step::Exit(act)),
            None => Ok(()),
        }
    }

    /// The latest activation has no solution, or no more.
    pub fn fail(&mut self) -> Result<(), NoMemory> {
        match self.running.pop() {
            Some(act) => self.add(Step::Fail(act)),
            None => Ok(()),
        }
    }

    /// An activation is asked for its next solution.
    pub fn redo(&mut self, act: u32) -> Result<(), NoMemory> {
        self.add(Step::Redo(act))?;
        self.running.push(act)?;
        Ok(())
    }

    /// Adds the event of a step.
    fn add(&mut self, step: Step) -> Result<(), NoMemory> {
        let event = match step {
            Step::Call(site, callee) => Event::Call {
                act: self.calls,
                parent: self.running.last().copied(),
                site: site.map(|number| SiteId::new(number)),
                callee: ProcId::new(callee),
            },
            Step::Exit(act) => Event::Exit { act },
            Step::Redo(act) => Event::Redo { act },
            Step::Fail(act) => Event::Fail { act },
        };
        self.events.push(event)?;
        Ok(())
    }
}
