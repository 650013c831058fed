// The recorder as a sink of port events: its calls, each with a fresh ledger. How many table steps a call of the trait takes is said by
// the recorder's call of the same name, for any ledger (clauses `cost` and `cost_refused`). No clause here names the count: a
// ledger under a name that is picked for it can't be handed to a caller, and is let go.
ghost use Rattle.std.specs.Prelude.{ℕ, ◌≡◌, ◌<◌, List, ◌∷◌, IfOk, OnOk, OnErr};
ghost use Rattle.md_trace.specs.declared.event.Event.{Event};
ghost use Rattle.md_trace.specs.declared.event.Event.TheVariants.{Exit, Redo, Fail, Excp};
ghost use Rattle.md_trace.specs.Sinks.{CanTake, CanTakeMarked, Takes, TakesMarked, MarksNewest, StandsAsBefore, next_call, next_alloc};
ghost use Rattle.md_record.specs.Kept.{Stands};
ghost use Rattle.md_record.specs.Belongs.{Belongs};

use crate::recorder::Recorder;
use crate::saved::Saved;
use md_base::{NoMemory, ProcId, SiteId, Steps};
use md_trace::PortSink;
use std::marker::Brand;
use std::sync::ledger::{Blank, Ledger};

impl PortSink for Recorder {
    ghost use Rattle.std.specs.Prelude.{◌≡◌};
    ghost use Rattle.md_record.specs.Kept.{Stands};
    ghost use Rattle.md_record.specs.Belongs.{Belongs};
    ghost use Rattle.md_record.specs.Laws.{stands-history, belongs-stays, same-tables, tables-on};

    type Mark = Saved;

    ghost stands_for = { λ s t h. Stands s t h };

    ghost belongs = { λ m t h a. Belongs m t h a };

    ghost alike = { λ s u. u.rows.statics ≡ s.rows.statics };

    fn call(&mut self, site: Option<SiteId>, callee: ProcId) -> Result<Saved, NoMemory> {
        call_counted::<Brand>(self, site, callee, Blank::new(1))
    }

    fn exit(&mut self, mark: &Saved) {
        exit_counted::<Brand>(self, mark, Blank::new(1));
    }

    fn redo(&mut self, mark: &Saved) {
        redo_counted::<Brand>(self, mark, Blank::new(1));
    }

    fn fail(&mut self, mark: &Saved) {
        fail_counted::<Brand>(self, mark, Blank::new(1));
    }

    fn excp(&mut self, mark: &Saved) {
        excp_counted::<Brand>(self, mark, Blank::new(1));
    }

    fn alloc(&mut self, words: u32) {
        alloc_counted::<Brand>(self, words, Blank::new(1));
    }

    ghost is_history = { λ s t h st. stands-history s t h st };

    ghost alike_self = { λ s. same-tables s };

    ghost alike_on = { λ s t u p q. tables-on s t u p q };

    ghost stays = { λ m t h e a is was. belongs-stays m t h e a is was };
}

/// The same, with a fresh ledger.
fn call_counted<L: Ledger>(
    recorder: &mut Recorder,
    site: Option<SiteId>,
    callee: ProcId,
    blank: Blank,
) -> Result<Saved, NoMemory>
    requires name { blank.name ≡ L.name }
    requires parts { blank.parts ≡ L.parts }
    requires some { 0 < blank.parts }
    requires can { CanTake (Stands recorder.old) (next_call site callee) }
    ensures taken { OnOk result (Takes (Stands recorder.old) (Stands recorder.new) (next_call site callee)) }
    ensures marked { IfOk result (λ saved. MarksNewest (Stands recorder.old) (Belongs saved) (next_call site callee)) }
    ensures refused { OnErr result (StandsAsBefore (Stands recorder.old) (Stands recorder.new)) }
    ensures alike { recorder.new.rows.statics ≡ recorder.old.rows.statics }
{
    let mut steps = Steps::<L>::open(blank);
    recorder.call(site, callee, &mut steps)
}

/// The same, with a fresh ledger.
fn exit_counted<L: Ledger>(recorder: &mut Recorder, mark: &Saved, blank: Blank)
    requires name { blank.name ≡ L.name }
    requires parts { blank.parts ≡ L.parts }
    requires some { 0 < blank.parts }
    requires can { CanTakeMarked (Stands recorder.old) (Belongs mark.now) Exit }
    ensures taken { TakesMarked (Stands recorder.old) (Stands recorder.new) (Belongs mark.now) Exit }
    ensures alike { recorder.new.rows.statics ≡ recorder.old.rows.statics }
{
    let mut steps = Steps::<L>::open(blank);
    recorder.exit(mark, &mut steps);
}

/// The same, with a fresh ledger.
fn redo_counted<L: Ledger>(recorder: &mut Recorder, mark: &Saved, blank: Blank)
    requires name { blank.name ≡ L.name }
    requires parts { blank.parts ≡ L.parts }
    requires some { 0 < blank.parts }
    requires can { CanTakeMarked (Stands recorder.old) (Belongs mark.now) Redo }
    ensures taken { TakesMarked (Stands recorder.old) (Stands recorder.new) (Belongs mark.now) Redo }
    ensures alike { recorder.new.rows.statics ≡ recorder.old.rows.statics }
{
    let mut steps = Steps::<L>::open(blank);
    recorder.redo(mark, &mut steps);
}

/// The same, with a fresh ledger.
fn fail_counted<L: Ledger>(recorder: &mut Recorder, mark: &Saved, blank: Blank)
    requires name { blank.name ≡ L.name }
    requires parts { blank.parts ≡ L.parts }
    requires some { 0 < blank.parts }
    requires can { CanTakeMarked (Stands recorder.old) (Belongs mark.now) Fail }
    ensures taken { TakesMarked (Stands recorder.old) (Stands recorder.new) (Belongs mark.now) Fail }
    ensures alike { recorder.new.rows.statics ≡ recorder.old.rows.statics }
{
    let mut steps = Steps::<L>::open(blank);
    recorder.fail(mark, &mut steps);
}

/// The same, with a fresh ledger.
fn excp_counted<L: Ledger>(recorder: &mut Recorder, mark: &Saved, blank: Blank)
    requires name { blank.name ≡ L.name }
    requires parts { blank.parts ≡ L.parts }
    requires some { 0 < blank.parts }
    requires can { CanTakeMarked (Stands recorder.old) (Belongs mark.now) Excp }
    ensures taken { TakesMarked (Stands recorder.old) (Stands recorder.new) (Belongs mark.now) Excp }
    ensures alike { recorder.new.rows.statics ≡ recorder.old.rows.statics }
{
    let mut steps = Steps::<L>::open(blank);
    recorder.excp(mark, &mut steps);
}

/// The same, with a fresh ledger.
fn alloc_counted<L: Ledger>(recorder: &mut Recorder, words: u32, blank: Blank)
    requires name { blank.name ≡ L.name }
    requires parts { blank.parts ≡ L.parts }
    requires some { 0 < blank.parts }
    requires can { CanTake (Stands recorder.old) (next_alloc words) }
    ensures taken { Takes (Stands recorder.old) (Stands recorder.new) (next_alloc words) }
    ensures alike { recorder.new.rows.statics ≡ recorder.old.rows.statics }
{
    let mut steps = Steps::<L>::open(blank);
    recorder.alloc(words, &mut steps);
}
