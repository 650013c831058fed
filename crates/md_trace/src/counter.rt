// The counter: own counts per procedure, without contexts.
ghost use Rattle.std.specs.Prelude.{◌≡◌, ◌<◌, ◌≤◌, ◌-◌, ◌∷◌, ◌++◌, [], List, ℕ, length, slice_get, slice_set, Some, IfSome, OnOk, OnErr, IfOk, replicate};

use crate::port_sink::PortSink;
use md_base::{Counts, Measure, NoMemory, ProcId, SiteId};
use std::alloc::Global;
use std::marker::Model;

/// Keeps the seven own counts of each procedure, and the procedures of the current activation's chain.
#[derive(Drop)]
pub struct Counter {
    own: Vec<Counts>,
    chain: Vec<ProcId>,
}

impl Model for Counter {
    ghost use Rattle.std.specs.Prelude.{vec_capacity};
    ghost use Rattle.md_trace.specs.Counted.{Counted};

    ghost Value = { Counted };

    ghost view = { λ c. record { own = c.own.items; chain = c.chain.items; room = vec_capacity c.chain } };
}

impl Counter {
    ghost use Rattle.md_base.specs.declared.measure.Counts.{Counts};
    ghost use Rattle.md_trace.specs.Count.{with_more};
    ghost use Rattle.md_trace.specs.PortHistory.{SiteTable, IsSiteTable};
    ghost use Rattle.md_trace.specs.Counted.{CountsFor, CountsUp, Enters, Leaves, AsBefore};

    /// A counter for this many procedures, with counts of 0.
    pub fn new(alloc: Global, procs: u32) -> Result<Counter, NoMemory>
        ensures own { IfOk result (λ counter. counter.own ≡ replicate procs (record { calls = 0; exits = 0; fails = 0; redos = 0; allocs = 0; words = 0; excps = 0 })) }
        ensures chain { IfOk result (λ counter. counter.chain ≡ []) }
        ensures stands { IfOk result (λ counter. (t : SiteTable) → IsSiteTable t → t.procedures ≡ procs → CountsFor counter t []) }
    {
        let own = vec![in alloc; Counts::default(); procs as usize]?;
        Ok(Counter {
            own,
            chain: Vec::new(alloc),
        })
    }

    /// The own counts of a procedure.
    pub fn own(&self, p: ProcId) -> Counts
        requires { p < length self.now.own }
        ensures { slice_get self.now.own p ≡ Some result }
    {
        self.own[p.number() as usize]
    }

    /// Adds to a measure of a procedure.
    fn count(&mut self, p: ProcId, measure: Measure, by: u32)
        requires { p < length self.old.own }
        ensures { CountsUp self.old self.new p measure by }
    {
        self.own[p.number() as usize].add(measure, by);
    }

    /// Puts a procedure at the end of the chain.
    fn enter(&mut self, p: ProcId) -> Result<(), NoMemory>
        ensures ok { OnOk result (Enters self.old self.new p) }
        ensures err { OnErr result (AsBefore self.old self.new) }
    {
        self.chain.push(p)?;
        Ok(())
    }

    /// The same, where there is room.
    fn enter_again(&mut self, p: ProcId)
        requires { length self.old.chain < self.old.room }
        ensures { Enters self.old self.new p }
    {
        self.chain.push_reserved(p);
    }

    /// The last procedure of the chain.
    fn top(&self) -> Option<ProcId>
        ensures { result ≡ slice_get self.now.chain (length self.now.chain - 1) }
    {
        self.chain.last().copied()
    }

    /// Takes the last procedure from the chain.
    fn leave(&mut self)
        ensures { Leaves self.old self.new }
    {
        self.chain.pop();
    }
}

impl PortSink for Counter {
    ghost use Rattle.std.specs.Prelude.{◌≡◌, Some};
    ghost use Rattle.md_trace.specs.Activation.{activations, procedure_of};
    ghost use Rattle.md_trace.specs.Counted.{CountsFor};
    ghost use Rattle.md_trace.specs.Laws.{procedure-stays};

    type Mark = ProcId;

    ghost stands_for = { λ s t h. CountsFor s t h };

    ghost belongs = { λ m t h a. procedure_of (activations h) a ≡ Some m };

    ghost alike = { λ s u. Unit {0} };

    fn call(&mut self, _site: Option<SiteId>, callee: ProcId) -> Result<ProcId, NoMemory> {
        self.enter(callee)?;
        self.count(callee, Measure::Calls, 1);
        Ok(callee)
    }

    fn exit(&mut self, mark: &ProcId) {
        self.count(*mark, Measure::Exits, 1);
        self.leave();
    }

    fn redo(&mut self, mark: &ProcId) {
        self.enter_again(*mark);
        self.count(*mark, Measure::Redos, 1);
    }

    fn fail(&mut self, mark: &ProcId) {
        self.count(*mark, Measure::Fails, 1);
        self.leave();
    }

    fn excp(&mut self, mark: &ProcId) {
        self.count(*mark, Measure::Excps, 1);
        self.leave();
    }

    fn alloc(&mut self, words: u32) {
        if let Some(p) = self.top() {
            self.count(p, Measure::Allocs, 1);
            self.count(p, Measure::Words, words);
        }
    }

    ghost is_history = { λ s t h p. p.history };

    ghost alike_self = { λ s. tt };

    ghost alike_on = { λ s t u p q. tt };

    ghost stays = { λ m t h e a is was. procedure-stays m t h e a is was };
}
