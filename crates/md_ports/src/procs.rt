// The procedures of a program.
ghost use Rattle.std.specs.Prelude.{◌≡◌, IfOk, length, map};
ghost use Rattle.md_hlds.specs.Hlds.{hlds_of, procedure_of, procedures_of, args_of};
ghost use Rattle.md_ports.specs.Modules.{modules_of};
ghost use Rattle.md_ports.specs.Ports.{arity_of, proc_of};

use crate::modules::{Modules, module_of};
use md_base::NoMemory;
use md_hlds::{Mode, Pred, Program, Ty};
use md_static::Proc;
use std::alloc::Global;

/// The procedures of this program, which has these modules.
pub(crate) fn procs_of(
    alloc: Global,
    program: &Program,
    modules: &Modules<'_>,
) -> Result<Vec<Proc>, NoMemory>
    requires { modules.now ≡ modules_of (hlds_of program.now) }
    ensures { IfOk result (λ procs. procs.items ≡ map (proc_of (hlds_of program.now)) (procedures_of program.now.preds.items)) }
{
    let mut procs = Vec::new(alloc);
    for pred in &program.preds {
        procs.push(proc_of(alloc, program, modules, pred)?)?;
    }
    Ok(procs)
}

fn proc_of(
    alloc: Global,
    program: &Program,
    modules: &Modules<'_>,
    pred: &Pred,
) -> Result<Proc, NoMemory>
    requires { modules.now ≡ modules_of (hlds_of program.now) }
    ensures { IfOk result (λ found. found ≡ proc_of (hlds_of program.now) (procedure_of pred.now)) }
{
    let name = pred.name.copy(alloc)?;
    Ok(Proc {
        module: modules.number_of(module_of(program, pred)),
        name,
        arity: arity_of(&pred.args),
    })
}

/// How many arguments there are, up to 255.
#[tactic(auto, using(crate::proofs::Lists::length_args_of))]
fn arity_of(args: &[(Ty, Mode)]) -> u8
    ensures { result ≡ arity_of (length (args_of args.now)) }
{
    args.len().min(255) as u8
}
