// The determinism checks of a whole program.
ghost use Rattle.std.specs.Prelude.{◌≡◌, ◌≢◌, None, Some, IfOk, IfErr};
ghost use Rattle.md_hlds.specs.Hlds.{hlds_of};
ghost use Rattle.md_det.specs.declared.fault.DetFault.TheVariants.{NoMemory};
ghost use Rattle.md_det.specs.Faults.{det_fault};
ghost use Rattle.md_det.specs.Findings.{program_findings};

use crate::checked::Checked;
use crate::fault::DetFault;
use crate::finding::Finding;
use crate::main_predicate::main_of;
use crate::predicate::judge_predicate;
use md_modes::Moded;
use std::alloc::Global;

/// Checks the determinism of a program: answers its first fault, in text order, or the same program with what was found at
/// its goals (Mercury Language Reference Manual, "Determinism", in this project's profile). Takes time near linear in the
/// program.
///
/// # Errors
///
/// `Declared` where a body may fail or succeed more often than its declaration says, `ManyInCondition` at an if-then-else
/// whose condition may have many solutions and binds a variable that occurs outside it, `IoInBacktracking` where an io state
/// stands where a run may come back, `NoMemory` only where memory was refused.
pub fn check_det(alloc: Global, moded: Moded) -> Result<Checked, DetFault>
    ensures same { IfOk result (λ checked. checked ≡ moded) }
    ensures accepted { IfOk result (λ checked. det_fault (hlds_of checked) ≡ None) }
    ensures refused { IfErr result (λ fault. fault ≢ NoMemory → det_fault (hlds_of moded) ≡ Some fault) }
{
    let findings = judge_all(alloc, &moded)?;
    let main = main_of(moded.program());
    Ok(Checked::new(moded, findings, main))
}

/// What is found at all goals, or the first fault.
fn judge_all(alloc: Global, moded: &Moded) -> Result<Vec<Finding>, DetFault>
    ensures accepted { IfOk result (λ findings. det_fault (hlds_of moded.now) ≡ None) }
    ensures found { IfOk result (λ findings. findings.items ≡ program_findings (hlds_of moded.now)) }
    ensures refused { IfErr result (λ fault. fault ≢ NoMemory → det_fault (hlds_of moded.now) ≡ Some fault) }
{
    let program = moded.program();
    let mut findings = Vec::new(alloc);
    for pred in program.preds.as_slice() {
        judge_predicate(alloc, moded, pred, &mut findings)?;
    }
    Ok(findings)
}
