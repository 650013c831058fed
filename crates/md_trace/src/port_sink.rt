// A sink of port events, and what it stands for.
ghost use Rattle.std.specs.Prelude.{ℕ, List, ◌∷◌, OnOk, OnErr, IfOk};
ghost use Rattle.md_trace.specs.declared.event.Event.{Event};
ghost use Rattle.md_trace.specs.declared.event.Event.TheVariants.{Exit, Redo, Fail, Excp};
ghost use Rattle.md_trace.specs.PortHistory.{SiteTable, IsPortHistory};
ghost use Rattle.md_trace.specs.Sinks.{CanTake, CanTakeMarked, Takes, TakesMarked, MarksNewest, StandsAsBefore, next_call, next_alloc};

use md_base::{NoMemory, ProcId, SiteId};

/// Takes the events of a run, one after the other. Who calls, and who allocates, is the activation that runs after
/// the events so far. A mark belongs to the activation whose call gave it, and is handed back with each later port of
/// that activation.
///
/// What a sink keeps is said by the port histories for which it stands: after an event it stands for each of them
/// with that event at its end.
pub trait PortSink {
    type Mark: Copy + Drop;

    /// The sink stands for this history over these call sites.
    ghost stands_for: { Self → SiteTable → List Event → Type 0 };

    /// The mark belongs to this activation of the history.
    ghost belongs: { Self.Mark → SiteTable → List Event → ℕ → Type 0 };

    /// What no event changes: the second sink has it as the first.
    ghost alike: { Self → Self → Type 0 };

    /// The current activation calls `callee` at `site`; the first call is that of the main procedure, at no site.
    /// After want of memory the sink stands for what it stood for.
    fn call(&mut self, site: Option<SiteId>, callee: ProcId) -> Result<Self::Mark, NoMemory>
        requires { CanTake (stands_for self.old) (next_call site callee) }
        ensures taken { OnOk result (Takes (stands_for self.old) (stands_for self.new) (next_call site callee)) }
        ensures marked { IfOk result (λ mark. MarksNewest (stands_for self.old) (belongs mark) (next_call site callee)) }
        ensures refused { OnErr result (StandsAsBefore (stands_for self.old) (stands_for self.new)) }
        ensures alike { alike self.old self.new };

    /// The current activation, whose mark this is, returns with a solution.
    fn exit(&mut self, mark: &Self::Mark)
        requires { CanTakeMarked (stands_for self.old) (belongs mark.now) Exit }
        ensures taken { TakesMarked (stands_for self.old) (stands_for self.new) (belongs mark.now) Exit }
        ensures alike { alike self.old self.new };

    /// The activation with this mark, whose last port was an exit, is asked by its caller for a further solution.
    fn redo(&mut self, mark: &Self::Mark)
        requires { CanTakeMarked (stands_for self.old) (belongs mark.now) Redo }
        ensures taken { TakesMarked (stands_for self.old) (stands_for self.new) (belongs mark.now) Redo }
        ensures alike { alike self.old self.new };

    /// The current activation, whose mark this is, has no further solution.
    fn fail(&mut self, mark: &Self::Mark)
        requires { CanTakeMarked (stands_for self.old) (belongs mark.now) Fail }
        ensures taken { TakesMarked (stands_for self.old) (stands_for self.new) (belongs mark.now) Fail }
        ensures alike { alike self.old self.new };

    /// An exception leaves the current activation, whose mark this is.
    fn excp(&mut self, mark: &Self::Mark)
        requires { CanTakeMarked (stands_for self.old) (belongs mark.now) Excp }
        ensures taken { TakesMarked (stands_for self.old) (stands_for self.new) (belongs mark.now) Excp }
        ensures alike { alike self.old self.new };

    /// The current activation builds a term of this many words.
    fn alloc(&mut self, words: u32)
        requires { CanTake (stands_for self.old) (next_alloc words) }
        ensures taken { Takes (stands_for self.old) (stands_for self.new) (next_alloc words) }
        ensures alike { alike self.old self.new };

    /// A sink stands for port histories alone.
    ghost is_history: { (s : Self) (t : SiteTable) (h : List Event) → stands_for s t h → IsPortHistory t h };

    /// A sink is like itself, and what is alike stays alike from event to event.
    ghost alike_self: { (s : Self) → alike s s };

    ghost alike_on: { (s : Self) (t : Self) (u : Self) → alike s t → alike t u → alike s u };

    /// A mark belongs to its activation for ever.
    ghost stays: { (m : Self.Mark) (t : SiteTable) (h : List Event) (e : Event) (a : ℕ) → IsPortHistory t (e ∷ h) → belongs m t h a → belongs m t (e ∷ h) a };
}
