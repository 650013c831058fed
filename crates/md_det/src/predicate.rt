// The judgement of a predicate: its declaration and its clause.
ghost use Rattle.std.specs.Prelude.{◌≡◌, ◌≢◌, ◌<◌, ◌+◌, ◌++◌, None, Some, length, OnOk, IfErr};
ghost use Rattle.md_hlds.specs.HldsGoal.{goal_size};
ghost use Rattle.md_hlds.specs.Hlds.{hlds_of, procedure_of};
ghost use Rattle.md_modes.specs.Notes.{program_notes};
ghost use Rattle.md_det.specs.declared.fault.DetFault.TheVariants.{NoMemory};
ghost use Rattle.md_det.specs.Judge as spec;

use crate::context::Context;
use crate::fault::DetFault;
use crate::finding::Finding;
use crate::judge::judge;
use crate::main_predicate::has_io;
use crate::pair::Pair;
use md_hlds::{Det, Pred};
use md_modes::Moded;
use std::alloc::Global;

/// Judges a predicate, whose body's number is the number of goals so far: adds what is found at the goals of its clause, or
/// answers its first fault.
pub fn judge_predicate(
    alloc: Global,
    moded: &Moded,
    pred: &Pred,
    findings: &mut Vec<Finding>,
) -> Result<(), DetFault>
    requires few { length findings.old.items + goal_size (procedure_of pred.now).body < 4294967295 }
    ensures sound { OnOk result ((spec.judge_procedure (hlds_of moded.now) (program_notes (hlds_of moded.now)) (length findings.old.items) (procedure_of pred.now)).fault ≡ None) }
    ensures found { OnOk result (findings.new.items ≡ findings.old.items
        ++ (spec.judge_procedure (hlds_of moded.now) (program_notes (hlds_of moded.now)) (length findings.old.items) (procedure_of pred.now)).findings) }
    ensures refused { IfErr result (λ fault. fault ≢ NoMemory
        → (spec.judge_procedure (hlds_of moded.now) (program_notes (hlds_of moded.now)) (length findings.old.items) (procedure_of pred.now)).fault ≡ Some fault) }
{
    let context = Context { alloc, moded };
    let judged = judge(&context, &pred.body, None, false, findings)?;
    let declared = declared_fault(pred, judged.pair);
    match state_fault(pred).or(judged.fault.or(declared)) {
        None => Ok(()),
        Some(fault) => Err(fault),
    }
}

/// An io state in a predicate that isn't `det`.
fn state_fault(pred: &Pred) -> Option<DetFault>
    ensures { result ≡ spec.state_fault (procedure_of pred.now) }
{
    if has_io(pred.args.as_slice()) && pred.det != Det::Det {
        Some(DetFault::IoInBacktracking(pred.line))
    } else {
        None
    }
}

/// A body with this pair that does more than its declaration says.
fn declared_fault(pred: &Pred, body: Pair) -> Option<DetFault>
    ensures { result ≡ spec.declared_fault (procedure_of pred.now) body }
{
    if Pair::of(pred.det).allows(body) {
        return None;
    }
    Some(DetFault::Declared {
        line: pred.line,
        declared: pred.det,
        inferred: body.det(),
    })
}
