// Whether events are a port history.
ghost use Rattle.std.specs.Prelude.{ℕ, ◌≡◌, ◌<◌, ◌↔◌, List, ◌∷◌, length, reverse, true, IfOk, OnOk, IsTrue, Some};
ghost use Rattle.md_static.specs.Sound.{IsSound};
ghost use Rattle.md_static.specs.Tables.{site_table};
ghost use Rattle.md_trace.specs.Activation.{activations, parent_of};
ghost use Rattle.md_trace.specs.PortHistory.{IsPortHistory};
ghost use Rattle.test_replay.specs.Past.{Sited};

use md_base::{NoMemory, ProcId, SiteId};
use md_static::{SiteKind, Statics};
use md_trace::Event;
use std::alloc::Global;

/// Whether these events, the first one first, are a port history over the call sites of these tables and this main
/// procedure: whether each may follow those before it, as a program with these call sites may make them.
pub fn is_port_history(
    alloc: Global,
    statics: &Statics,
    main: ProcId,
    events: &[Event],
) -> Result<bool, NoMemory>
    requires sound { IsSound statics.now }
    requires main_there { main < length statics.now.procs }
    ensures { IfOk result (λ so. IsTrue so ↔ IsPortHistory (site_table statics.now main) (reverse events.now)) }
{
    let mut past = Past {
        rows: Vec::new(alloc),
        current: None,
    };
    for event in events {
        if !past.may_follow(statics, main, *event) {
            return Ok(false);
        }
        past.add(*event)?;
    }
    Ok(true)
}

/// One activation of the events so far.
#[derive(Clone, Copy)]
struct Row {
    parent: Option<u32>,
    procedure: ProcId,
    exited: bool,
}

/// What the events so far tell of those that may follow.
#[derive(Drop)]
struct Past {
    rows: Vec<Row>,
    current: Option<u32>,
}

impl Past {
    ghost use Rattle.std.specs.Prelude.{ℕ, ◌≡◌, ◌<◌, ◌↔◌, List, ◌∷◌, length, true, OnOk, OnErr, IsTrue, IfSome, Some, slice_get, slice_set};
    ghost use Rattle.md_static.specs.Tables.{site_table};
    ghost use Rattle.md_trace.specs.declared.event.Event.{Event};
    ghost use Rattle.md_trace.specs.Activation.{activations, parent_of};
    ghost use Rattle.md_trace.specs.PortHistory.{SiteTable, has_exited, CallerRuns, MayCall, MayFollow, IsPortHistory};
    ghost use Rattle.test_replay.specs.Past.{IsPast};

    /// Whether the event may follow.
    fn may_follow(&self, statics: &Statics, main: ProcId, event: Event) -> bool
        ensures { (h : List Event) → IsPortHistory (site_table statics.now main) h → IsPast self.now.rows.items self.now.current h → (IsTrue result ↔ MayFollow (site_table statics.now main) h event) }
    {
        match event {
            Event::Call {
                act,
                parent,
                site,
                callee,
            } => {
                act as usize == self.rows.len()
                    && act < 4_294_967_294
                    && same(parent, self.current)
                    && self.may_call(statics, main, parent, site, callee)
            }
            Event::Redo { act } => self.may_redo(act),
            Event::Exit { act }
            | Event::Fail { act }
            | Event::Excp { act }
            | Event::Alloc { act, .. } => same(self.current, Some(act)),
        }
    }

    /// Whether the activation has exited, and its caller runs.
    fn may_redo(&self, act: u32) -> bool
        ensures { (t : SiteTable) (h : List Event) → IsPortHistory t h → IsPast self.now.rows.items self.now.current h → (IsTrue result ↔ ((has_exited h act ≡ true) × CallerRuns h act)) }
    {
        match self.row(act) {
            Some(row) => row.exited && self.runs(row.parent),
            None => false,
        }
    }

    /// Whether there is a caller, and it runs.
    fn runs(&self, caller: Option<u32>) -> bool
        ensures { IsTrue result ↔ ((p : ℕ) × (caller ≡ Some p) × (self.now.current ≡ Some p)) }
    {
        match (caller, self.current) {
            (Some(caller), Some(act)) => caller == act,
            (None, _) | (_, None) => false,
        }
    }

    /// Whether the activation `parent` may call at this site, or none does and the run begins.
    fn may_call(
        &self,
        statics: &Statics,
        main: ProcId,
        parent: Option<u32>,
        site: Option<SiteId>,
        callee: ProcId,
    ) -> bool
        ensures { (h : List Event) → IsPortHistory (site_table statics.now main) h → IsPast self.now.rows.items self.now.current h → (IsTrue result ↔ MayCall (site_table statics.now main) h parent site callee) }
    {
        match (parent, site) {
            (None, None) => self.may_begin(main, callee),
            (Some(act), Some(site)) => match self.row(act) {
                Some(row) => may_call_at(statics, row.procedure, site, callee),
                None => false,
            },
            _ => false,
        }
    }

    /// Whether nothing was called yet, and `callee` is the main procedure.
    fn may_begin(&self, main: ProcId, callee: ProcId) -> bool
        ensures { IsTrue result ↔ ((length self.now.rows.items ≡ 0) × (callee ≡ main)) }
    {
        self.rows.is_empty() && callee == main
    }

    /// The activation of this number.
    fn row(&self, act: u32) -> Option<Row>
        ensures { result ≡ slice_get self.now.rows.items act }
    {
        self.rows.get(act as usize).copied()
    }

    /// Adds an event.
    fn add(&mut self, event: Event) -> Result<(), NoMemory>
        requires { (t : SiteTable) × (h : List Event) × IsPortHistory t h × IsPast self.old.rows.items self.old.current h × MayFollow t h event }
        ensures { OnOk result ((t : SiteTable) (h : List Event) → IsPortHistory t h → IsPast self.old.rows.items self.old.current h → MayFollow t h event → IsPast self.new.rows.items self.new.current (event ∷ h)) }
    {
        match event {
            Event::Call {
                act,
                parent,
                callee,
                ..
            } => {
                self.rows.push(Row {
                    parent,
                    procedure: callee,
                    exited: false,
                })?;
                self.current = Some(act);
            }
            Event::Exit { act } => self.leave(act, true),
            Event::Redo { act } => {
                self.rows[act as usize].exited = false;
                self.current = Some(act);
            }
            Event::Fail { act } => self.leave(act, false),
            Event::Excp { act } => self.leave(act, false),
            Event::Alloc { .. } => {}
        }
        Ok(())
    }

    /// The activation is left, and its parent runs.
    fn leave(&mut self, act: u32, exited: bool)
        requires { act < length self.old.rows.items }
        ensures rows { IfSome (slice_get self.old.rows.items act) (λ row. self.new.rows.items ≡ slice_set self.old.rows.items act (record row { exited = exited })) }
        ensures current { IfSome (slice_get self.old.rows.items act) (λ row. self.new.current ≡ row.parent) }
    {
        let row = &mut self.rows[act as usize];
        row.exited = exited;
        self.current = row.parent;
    }
}

/// Whether this procedure has the call site, and may call `callee` there.
fn may_call_at(statics: &Statics, owner: ProcId, site: SiteId, callee: ProcId) -> bool
    ensures { IsTrue result ↔ Sited statics.now owner site callee }
{
    match statics.sites().get(site.number() as usize) {
        Some(site) => {
            owner == site.owner
                && match site.kind {
                    SiteKind::Plain(q) => callee == q,
                    SiteKind::HigherOrder => (callee.number() as usize) < statics.procs().len(),
                }
        }
        None => false,
    }
}

/// Whether the two are one number, or both are none.
fn same(a: Option<u32>, b: Option<u32>) -> bool
    ensures { IsTrue result ↔ (a ≡ b) }
{
    match (a, b) {
        (None, None) => true,
        (Some(a), Some(b)) => a == b,
        _ => false,
    }
}
