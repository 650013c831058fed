// The tables of a program: modules, procedures and call sites.
use crate::fault::Fault;
use crate::words::readable;
use md_base::Name;
use md_modes::Moded;
use md_ports::statics;
use md_static::{Proc, Site};
use std::alloc::Global;

/// Adds the rows of a program's tables.
pub fn tables(alloc: Global, moded: &Moded, found: &mut String) -> Result<(), Fault> {
    let tables = statics(alloc, moded)?;
    modules(tables.modules(), found)?;
    procedures(tables.procs(), found)?;
    sites(tables.sites(), found)
}

/// Adds the names of these modules.
fn modules(modules: &[Name], found: &mut String) -> Result<(), Fault> {
    for module in modules {
        let module = readable(module.as_bytes());
        writeln!(found, "module {module}")?;
    }
    Ok(())
}

/// Adds these procedures.
fn procedures(procedures: &[Proc], found: &mut String) -> Result<(), Fault> {
    for called in procedures {
        let module = called.module;
        let name = readable(called.name.as_bytes());
        let arity = called.arity;
        writeln!(found, "procedure {name}/{arity} of module {module}")?;
    }
    Ok(())
}

/// Adds these call sites.
fn sites(sites: &[Site], found: &mut String) -> Result<(), Fault> {
    for site in sites {
        writeln!(found, "{site:?}")?;
    }
    Ok(())
}
