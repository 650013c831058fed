// The tables of a program that is made for its call sites alone.
use md_base::{Name, NoMemory, ProcId};
use md_static::{Proc, Site, SiteKind, Statics};
use std::alloc::Global;

/// A call site: the procedure that has it, and the one that it calls, or none where it is higher-order.
pub type Call = (u32, Option<u32>);

/// The tables of so many procedures with these call sites, or none where a name has no room.
pub fn statics_of(alloc: Global, procs: u32, calls: &[Call]) -> Result<Option<Statics>, NoMemory> {
    let Some(module) = Name::from_bytes(alloc, b"bench")? else {
        return Ok(None);
    };
    let modules = vec![in alloc; module]?;
    let Some(procs) = procs_of(alloc, procs)? else {
        return Ok(None);
    };
    let sites = sites_of(alloc, calls)?;
    Ok(Some(Statics::from_parts(modules, procs, sites)))
}

/// So many procedures: `p0`, `p1` and so on.
fn procs_of(alloc: Global, count: u32) -> Result<Option<Vec<Proc>>, NoMemory> {
    let mut procs = Vec::new(alloc);
    for number in 0..count {
        let text = format!(in alloc; "p{number}")?;
        let Some(name) = Name::from_bytes(alloc, text.as_bytes())? else {
            return Ok(None);
        };
        procs.push(Proc {
            module: 0,
            name,
            arity: 0,
        })?;
    }
    Ok(Some(procs))
}

fn sites_of(alloc: Global, calls: &[Call]) -> Result<Vec<Site>, NoMemory> {
    let mut sites = Vec::new(alloc);
    for (owner, callee) in calls {
        sites.push(Site {
            owner: ProcId::new(*owner),
            line: 1,
            kind: kind_of(*callee),
        })?;
    }
    Ok(sites)
}

fn kind_of(callee: Option<u32>) -> SiteKind {
    match callee {
        Some(callee) => SiteKind::Plain(ProcId::new(callee)),
        None => SiteKind::HigherOrder,
    }
}
