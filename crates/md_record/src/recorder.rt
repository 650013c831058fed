// The recorder, one port after the other.
ghost use Rattle.std.specs.Prelude.{ℕ, ◌≡◌, ◌≤◌, ◌<◌, ◌+◌, List, ◌∷◌, length, IfOk, OnOk, OnErr, IfSome, Some, None};

use crate::leads::{known, lead};
use crate::saved::Saved;
use md_base::{CsdId, Measure, NoMemory, PdId, ProcId, SiteId, Steps};
use md_dynamic::{Profile, Tables};
use md_static::Statics;
use std::alloc::Global;
use std::marker::Model;
use std::sync::ledger::Ledger;

/// Keeps the contexts and links of the events so far, and the links of the current chain.
#[derive(Drop)]
pub struct Recorder {
    tables: Tables,
    /// The link of each activation of the current chain, with the context to which it leads; the latest is last.
    chain: Vec<(CsdId, PdId)>,
}

impl Model for Recorder {
    ghost use Rattle.std.specs.Prelude.{vec_capacity};
    ghost use Rattle.md_record.specs.Kept.{Kept};

    ghost Value = { Kept };

    ghost view = { λ r. record { rows = r.tables; chain = r.chain.items; room = vec_capacity r.chain } };
}

impl Recorder {
    ghost use Rattle.std.specs.Prelude.{ℕ, ◌≡◌, ◌≤◌, ◌<◌, ◌+◌, ◌-◌, slice_get, List, [], ◌∷◌, length, IfOk, OnOk, OnErr, IfSome, Some, None};
    ghost use Rattle.std.specs.Option.{option_map};
    ghost use Rattle.md_trace.specs.declared.event.Event.{Event};
    ghost use Rattle.md_trace.specs.declared.event.Event.TheVariants.{Exit, Redo, Fail, Excp};
    ghost use Rattle.md_trace.specs.Sinks.{CanTake, CanTakeMarked, Takes, TakesMarked, MarksNewest, StandsAsBefore, next_call, next_alloc};
    ghost use Rattle.md_static.specs.Sound.{IsSound};
    ghost use Rattle.md_static.specs.Tables.{site_table};
    ghost use Rattle.md_record.specs.Kept.{Kept, Stands, IsAsBefore};
    ghost use Rattle.md_record.specs.Belongs.{Belongs};
    ghost use Rattle.md_record.specs.Costs.{CallCost, SiteCost, RefusedCost};
    ghost use Rattle.md_record.specs.Memory.{TakesMemory};
    ghost use Rattle.md_dynamic.specs.OfHistory.{IsProfileOf};
    ghost use Rattle.md_dynamic.specs.Valid.{IsValid};
    ghost use Rattle.md_trace.specs.PortHistory.{SiteTable};

    /// A recorder of a run that has not begun: it stands for the empty history over the site table of its statics and
    /// the main procedure. Context 0 and link 0 are there.
    pub fn new(alloc: Global, statics: Statics, main: ProcId) -> Result<Recorder, NoMemory>
        requires sound { IsSound statics }
        requires main_there { main < length statics.procs }
        ensures stands { IfOk result (λ recorder. Stands recorder (site_table statics main) []) }
        ensures statics { IfOk result (λ recorder. recorder.rows.statics ≡ statics) }
    {
        let tables = Tables::new(alloc, statics, main)?;
        Ok(Recorder {
            tables,
            chain: Vec::new(alloc),
        })
    }

    /// The profile of the events so far: for each history for which the recorder stands it has that history's contexts
    /// and links with their own counts. It is valid. Takes no memory.
    pub fn into_profile(self, finished: bool) -> Profile
        ensures exact { (t : SiteTable) (h : List Event) → Stands self t h → IsProfileOf self.rows.statics t.main h finished result }
        ensures valid { (t : SiteTable) (h : List Event) → Stands self t h → IsValid result }
    {
        let Recorder { tables, chain: _ } = self;
        tables.freeze(finished)
    }

    /// The current activation calls `callee` at `site`, or the run begins with the main procedure's call, at no site.
    /// Memory is taken first, room for the chain included; where it is refused, tables and chain are as before. None is
    /// taken where the link is there already and an earlier chain was as long as the new one.
    pub fn call<L: Ledger>(
        &mut self,
        site: Option<SiteId>,
        callee: ProcId,
        steps: &mut Steps<L>,
    ) -> Result<Saved, NoMemory>
        requires { CanTake (Stands self.old) (next_call site callee) }
        ensures taken { OnOk result (Takes (Stands self.old) (Stands self.new) (next_call site callee)) }
        ensures marked { IfOk result (λ saved. MarksNewest (Stands self.old) (Belongs saved) (next_call site callee)) }
        ensures refused { OnErr result (StandsAsBefore (Stands self.old) (Stands self.new)) }
        ensures as_before { OnErr result (IsAsBefore self.old self.new) }
        ensures statics { self.new.rows.statics ≡ self.old.rows.statics }
        ensures needed { OnErr result (TakesMemory (Stands self.old) site callee) }
        ensures cost { OnOk result (CallCost self.old self.new site callee steps.old steps.new) }
        ensures cost_refused { OnErr result (RefusedCost self.old site callee steps.old steps.new) }
    {
        match site {
            None => self.call_main(callee, steps),
            Some(site) => self.call_at(site, callee, steps),
        }
    }

    /// The first call, that of the main procedure: it is counted on the root link. Four table steps.
    fn call_main<L: Ledger>(
        &mut self,
        callee: ProcId,
        steps: &mut Steps<L>,
    ) -> Result<Saved, NoMemory>
        requires { CanTake (Stands self.old) (next_call None callee) }
        ensures taken { OnOk result (Takes (Stands self.old) (Stands self.new) (next_call None callee)) }
        ensures marked { IfOk result (λ saved. MarksNewest (Stands self.old) (Belongs saved) (next_call None callee)) }
        ensures refused { OnErr result (StandsAsBefore (Stands self.old) (Stands self.new)) }
        ensures as_before { OnErr result (IsAsBefore self.old self.new) }
        ensures statics { self.new.rows.statics ≡ self.old.rows.statics }
        ensures needed { OnErr result (TakesMemory (Stands self.old) None callee) }
        ensures cost { steps.new ≤ steps.old + 4 }
        ensures cost_refused { OnErr result (steps.new ≡ steps.old) }
    {
        let root = CsdId::new(0);
        self.chain.reserve(1)?;
        self.tables.count(root, Measure::Calls, 1, steps);
        let end = self.tables.end_of(root, steps);
        self.tables.set_active(callee, Some(end), steps);
        self.chain.push_reserved((root, end));
        Ok(Saved {
            top: end,
            middle: root,
            old: None,
        })
    }

    /// A call by the current activation at a site.
    #[inline(always)]
    fn call_at<L: Ledger>(
        &mut self,
        site: SiteId,
        callee: ProcId,
        steps: &mut Steps<L>,
    ) -> Result<Saved, NoMemory>
        requires { CanTake (Stands self.old) (next_call (Some site) callee) }
        ensures taken { OnOk result (Takes (Stands self.old) (Stands self.new) (next_call (Some site) callee)) }
        ensures marked { IfOk result (λ saved. MarksNewest (Stands self.old) (Belongs saved) (next_call (Some site) callee)) }
        ensures refused { OnErr result (StandsAsBefore (Stands self.old) (Stands self.new)) }
        ensures as_before { OnErr result (IsAsBefore self.old self.new) }
        ensures statics { self.new.rows.statics ≡ self.old.rows.statics }
        ensures needed { OnErr result (TakesMemory (Stands self.old) (Some site) callee) }
        ensures cost { OnOk result (SiteCost self.old self.new site callee steps.old steps.new) }
        ensures cost_refused { OnErr result (RefusedCost self.old (Some site) callee steps.old steps.new) }
    {
        let node = self.current();
        self.chain.reserve(1)?;
        let old = self.tables.active(callee, steps); // due again when it is left
        let link = match known(&self.tables, node, site, steps) {
            Some(link) => {
                self.tables.count(link, Measure::Calls, 1, steps);
                link
            }
            None => lead(&mut self.tables, node, site, callee, &old, steps)?,
        };
        let end = self.tables.end_of(link, steps);
        self.tables.set_active(callee, Some(end), steps);
        self.chain.push_reserved((link, end));
        Ok(Saved {
            top: end,
            middle: link,
            old,
        })
    }

    /// The activation with this mark returns with a solution: an exit on its link, and the pointer of its procedure
    /// goes back to what it was before the call. Four table steps.
    pub fn exit<L: Ledger>(&mut self, saved: &Saved, steps: &mut Steps<L>)
        requires { CanTakeMarked (Stands self.old) (Belongs saved.now) Exit }
        ensures taken { TakesMarked (Stands self.old) (Stands self.new) (Belongs saved.now) Exit }
        ensures statics { self.new.rows.statics ≡ self.old.rows.statics }
        ensures cost { steps.new ≡ steps.old + 4 }
    {
        let proc = self.tables.proc_of(saved.top, steps);
        self.tables.count(saved.middle, Measure::Exits, 1, steps);
        self.tables.set_active(proc, saved.old, steps); // as before the call
        self.chain.pop();
    }

    /// The activation with this mark has no further solution: a fail on its link, and the pointer of its procedure goes
    /// back to what it was before the call. Four table steps.
    pub fn fail<L: Ledger>(&mut self, saved: &Saved, steps: &mut Steps<L>)
        requires { CanTakeMarked (Stands self.old) (Belongs saved.now) Fail }
        ensures taken { TakesMarked (Stands self.old) (Stands self.new) (Belongs saved.now) Fail }
        ensures statics { self.new.rows.statics ≡ self.old.rows.statics }
        ensures cost { steps.new ≡ steps.old + 4 }
    {
        let proc = self.tables.proc_of(saved.top, steps);
        self.tables.count(saved.middle, Measure::Fails, 1, steps);
        self.tables.set_active(proc, saved.old, steps);
        self.chain.pop();
    }

    /// The activation with this mark is left by an exception: an excp on its link, and the pointer of its procedure goes
    /// back to what it was before the call. Four table steps.
    pub fn excp<L: Ledger>(&mut self, saved: &Saved, steps: &mut Steps<L>)
        requires { CanTakeMarked (Stands self.old) (Belongs saved.now) Excp }
        ensures taken { TakesMarked (Stands self.old) (Stands self.new) (Belongs saved.now) Excp }
        ensures statics { self.new.rows.statics ≡ self.old.rows.statics }
        ensures cost { steps.new ≡ steps.old + 4 }
    {
        let proc = self.tables.proc_of(saved.top, steps);
        self.tables.count(saved.middle, Measure::Excps, 1, steps);
        self.tables.set_active(proc, saved.old, steps); // the exception goes on in the caller
        self.chain.pop();
    }

    /// The activation with this mark is asked for a further solution: a redo on its link, and its context is active
    /// again. Four table steps.
    pub fn redo<L: Ledger>(&mut self, saved: &Saved, steps: &mut Steps<L>)
        requires { CanTakeMarked (Stands self.old) (Belongs saved.now) Redo }
        ensures taken { TakesMarked (Stands self.old) (Stands self.new) (Belongs saved.now) Redo }
        ensures statics { self.new.rows.statics ≡ self.old.rows.statics }
        ensures cost { steps.new ≡ steps.old + 4 }
    {
        let proc = self.tables.proc_of(saved.top, steps);
        self.tables.count(saved.middle, Measure::Redos, 1, steps);
        self.tables.set_active(proc, Some(saved.top), steps);
        self.chain.push_reserved((saved.middle, saved.top));
    }

    /// The current activation builds a term of this many words: an allocation and its words on its link. Four table
    /// steps.
    pub fn alloc<L: Ledger>(&mut self, words: u32, steps: &mut Steps<L>)
        requires { CanTake (Stands self.old) (next_alloc words) }
        ensures taken { Takes (Stands self.old) (Stands self.new) (next_alloc words) }
        ensures statics { self.new.rows.statics ≡ self.old.rows.statics }
        ensures cost { steps.new ≤ steps.old + 4 }
    {
        if let Some(latest) = self.latest() {
            self.tables.count(latest.0, Measure::Allocs, 1, steps);
            self.tables.count(latest.0, Measure::Words, words, steps);
        }
    }

    /// The context of the activation that runs.
    fn current(&self) -> PdId
        requires { 0 < length self.now.chain }
        ensures { option_map (λ e. e.1) (slice_get self.now.chain (length self.now.chain - 1)) ≡ Some result }
    {
        self.chain[self.chain.len() - 1].1
    }

    /// The link of the activation that runs, with its context.
    fn latest(&self) -> Option<(CsdId, PdId)>
        ensures { result ≡ slice_get self.now.chain (length self.now.chain - 1) }
    {
        self.chain.last().copied()
    }
}
