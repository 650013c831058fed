// The tables of a program.
ghost use Rattle.std.specs.Prelude.{◌≡◌, IfOk};
ghost use Rattle.md_hlds.specs.Hlds.{hlds_of};
ghost use Rattle.md_ports.specs.Ports.{statics_of};

use crate::modules::Modules;
use crate::procs::procs_of;
use crate::sites::sites_of;
use md_base::NoMemory;
use md_modes::Moded;
use md_static::Statics;
use std::alloc::Global;

/// The modules, procedures and call sites of a program. Module 0 is the file's; the others follow in the order in which
/// a predicate of theirs is first declared. Procedures are the predicates in text order, and call sites are those of
/// their clauses in text order, plain and higher-order. It takes time near linear in the program, and looks up no name but
/// those of modules.
///
/// # Errors
///
/// `NoMemory` only where memory was refused.
pub fn statics(alloc: Global, moded: &Moded) -> Result<Statics, NoMemory>
    ensures { IfOk result (λ tables. tables ≡ statics_of (hlds_of moded.now)) }
{
    let program = moded.program();
    let modules = Modules::of(alloc, program)?;
    let procs = procs_of(alloc, program, &modules)?;
    let sites = sites_of(alloc, moded)?;
    Ok(Statics::from_parts(modules.into_names(), procs, sites))
}
