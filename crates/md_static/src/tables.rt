// The tables of a program, which contracts see as three lists.
ghost use Rattle.std.specs.Prelude.{◌≡◌, IfOk};

use crate::{Proc, Site};
use md_base::{Name, NoMemory};
use std::alloc::Global;
use std::marker::Model;

/// The modules, procedures and call sites of a program. Module 0 is the file's; the others follow in the order in
/// which a predicate of theirs is first declared. Procedures and call sites are in text order.
#[derive(Drop)]
pub struct Statics {
    modules: Vec<Name>,
    procs: Vec<Proc>,
    sites: Vec<Site>,
}

impl Model for Statics {
    ghost use Rattle.md_static.specs.Tables.{Static};

    ghost Value = { Static };

    ghost view = { λ s. record { modules = s.modules.items; procs = s.procs.items; sites = s.sites.items } };
}

impl Statics {
    /// These modules, procedures and call sites. Takes no memory.
    pub fn from_parts(modules: Vec<Name>, procs: Vec<Proc>, sites: Vec<Site>) -> Statics
        ensures modules { result.modules ≡ modules.items }
        ensures procs { result.procs ≡ procs.items }
        ensures sites { result.sites ≡ sites.items }
    {
        Statics {
            modules,
            procs,
            sites,
        }
    }

    /// The modules' names, by number.
    pub fn modules(&self) -> &[Name]
        ensures { result.now ≡ self.now.modules }
    {
        self.modules.as_slice()
    }

    /// The procedures, by number.
    pub fn procs(&self) -> &[Proc]
        ensures { result.now ≡ self.now.procs }
    {
        self.procs.as_slice()
    }

    /// The call sites, by number.
    pub fn sites(&self) -> &[Site]
        ensures { result.now ≡ self.now.sites }
    {
        self.sites.as_slice()
    }

    /// The same tables once more.
    pub fn copy(&self) -> Result<Statics, NoMemory>
        ensures { IfOk result (λ copy. copy ≡ self.now) }
    {
        let alloc: Global = *self.modules.allocator();
        let modules = copy_names(alloc, &self.modules)?;
        let procs = copy_procs(alloc, &self.procs)?;
        let sites = Vec::from_slice(alloc, &self.sites)?;
        Ok(Statics {
            modules,
            procs,
            sites,
        })
    }
}

fn copy_names(alloc: Global, names: &[Name]) -> Result<Vec<Name>, NoMemory>
    ensures { IfOk result (λ copies. copies.items ≡ names.now) }
{
    let mut copies = Vec::with_capacity(alloc, names.len())?;
    for name in names {
        copies.push(name.copy(alloc)?)?;
    }
    Ok(copies)
}

fn copy_procs(alloc: Global, procs: &[Proc]) -> Result<Vec<Proc>, NoMemory>
    ensures { IfOk result (λ copies. copies.items ≡ procs.now) }
{
    let mut copies = Vec::with_capacity(alloc, procs.len())?;
    for proc in procs {
        let name = proc.name.copy(alloc)?;
        copies.push(Proc {
            module: proc.module,
            name,
            arity: proc.arity,
        })?;
    }
    Ok(copies)
}
