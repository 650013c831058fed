// The tables of a program, as lines `module NAME`, `proc MODULE NAME ARITY` and `site OWNER LINE CALLEE`; a higher-order site
// has `-` for its callee.
ghost use Rattle.std.specs.Prelude.{IfOk, IfSome};
ghost use Rattle.md_static.specs.Sound.{IsSound};

use crate::words::{OrDash, number, number_or_zero};
use md_base::{Name, NoMemory, ProcId};
use md_static::{Proc, Site, SiteKind, Statics, is_sound};
use std::alloc::Global;
use test_cases::Case;

/// Whether the tables are sound.
pub fn show_soundness(alloc: Global, case: &Case, found: &mut String) -> Result<(), NoMemory> {
    let said = match sound_tables(alloc, case)? {
        Some(_) => "sound",
        None => "not sound",
    };
    writeln!(found, "{said}")?;
    Ok(())
}

/// The lines of a copy of the tables.
pub fn show_copy(alloc: Global, case: &Case, found: &mut String) -> Result<(), NoMemory> {
    let statics = tables(alloc, case)?;
    let copy = statics.copy()?;
    show_modules(alloc, copy.modules(), found)?;
    show_procs(alloc, copy.procs(), found)?;
    show_sites(copy.sites(), found)
}

fn show_modules(alloc: Global, modules: &[Name], found: &mut String) -> Result<(), NoMemory> {
    for module in modules {
        let name = String::from_utf8_lossy(alloc, module.as_bytes())?;
        let name = name.as_str();
        writeln!(found, "module {name}")?;
    }
    Ok(())
}

fn show_procs(alloc: Global, procs: &[Proc], found: &mut String) -> Result<(), NoMemory> {
    for proc in procs {
        let name = String::from_utf8_lossy(alloc, proc.name.as_bytes())?;
        let name = name.as_str();
        writeln!(found, "proc {} {name} {}", proc.module, proc.arity)?;
    }
    Ok(())
}

fn show_sites(sites: &[Site], found: &mut String) -> Result<(), NoMemory> {
    for site in sites {
        let owner = site.owner.number();
        let callee = OrDash(callee_of(site.kind));
        writeln!(found, "site {owner} {} {callee}", site.line)?;
    }
    Ok(())
}

/// The procedure that a plain site calls.
fn callee_of(kind: SiteKind) -> Option<u32> {
    match kind {
        SiteKind::Plain(callee) => Some(callee.number()),
        SiteKind::HigherOrder => None,
    }
}

/// The case's tables, where they are sound.
pub fn sound_tables(alloc: Global, case: &Case) -> Result<Option<Statics>, NoMemory>
    ensures { IfOk result (λ found. IfSome found IsSound) }
{
    let statics = tables(alloc, case)?;
    if is_sound(alloc, &statics)? {
        Ok(Some(statics))
    } else {
        Ok(None)
    }
}

/// The case's tables.
pub fn tables(alloc: Global, case: &Case) -> Result<Statics, NoMemory> {
    let modules = modules(alloc, case)?;
    let procs = procs(alloc, case)?;
    Ok(Statics::from_parts(modules, procs, sites(alloc, case)?))
}

/// The modules. A line without a name gives none.
fn modules(alloc: Global, case: &Case) -> Result<Vec<Name>, NoMemory> {
    let mut modules = Vec::new(alloc);
    for field in case.fields() {
        if field.key.as_str() == "module" {
            if let Some(name) = Name::from_bytes(alloc, field.text.as_bytes())? {
                modules.push(name)?;
            }
        }
    }
    Ok(modules)
}

/// The procedures. A line without a name gives none.
fn procs(alloc: Global, case: &Case) -> Result<Vec<Proc>, NoMemory> {
    let mut procs = Vec::new(alloc);
    for field in case.fields() {
        if field.key.as_str() == "proc" {
            if let Some(proc) = proc_of(alloc, field.text.as_str())? {
                procs.push(proc)?;
            }
        }
    }
    Ok(procs)
}

fn proc_of(alloc: Global, text: &str) -> Result<Option<Proc>, NoMemory> {
    let mut words = text.split(' ');
    let module = number_or_zero(words.next());
    let name = words.next().unwrap_or("");
    let arity = u8::try_from(number_or_zero(words.next())).unwrap_or(0);
    match Name::from_bytes(alloc, name.as_bytes())? {
        Some(name) => Ok(Some(Proc {
            module,
            name,
            arity,
        })),
        None => Ok(None),
    }
}

/// The call sites.
fn sites(alloc: Global, case: &Case) -> Result<Vec<Site>, NoMemory> {
    let mut sites = Vec::new(alloc);
    for field in case.fields() {
        if field.key.as_str() == "site" {
            let (owner, line, kind) = site_of(field.text.as_str());
            sites.push(Site { owner, line, kind })?;
        }
    }
    Ok(sites)
}

/// The owner, the line and the kind of a call site.
fn site_of(text: &str) -> (ProcId, u32, SiteKind) {
    let mut words = text.split(' ');
    let owner = ProcId::new(number_or_zero(words.next()));
    let line = number_or_zero(words.next());
    let kind = match number(words.next()) {
        Some(callee) => SiteKind::Plain(ProcId::new(callee)),
        None => SiteKind::HigherOrder,
    };
    (owner, line, kind)
}
