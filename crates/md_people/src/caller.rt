// The callers of a procedure.
ghost use Rattle.std.specs.Prelude.{◌≡◌, ◌<◌, ◌++◌, codes, length, slice_index_or, unwrap_or, IfOk, IfSome, OnOk};
ghost use Rattle.md_dynamic.specs.declared.link.LinkRow.{LinkRow};
ghost use Rattle.md_cost.specs.FileView.{IsFileView};
ghost use Rattle.md_cost.specs.View.{View};
ghost use Rattle.md_people.specs.Callers.{caller_rows, callers_table};
ghost use Rattle.md_people.specs.Gathered.{HasSmallTotal, caller_slot, row_of};
ghost use Rattle.md_people.specs.Words.{caller_words};

use crate::costs::whole_of;
use crate::gathered::{Gathered, Slots, gathered_by};
use crate::led::{line_at, owner_at};
use crate::name::{add_full_name, add_number};
use crate::order::in_order;
use crate::ports::{PortsRow, ports_table};
use md_base::{CsdId, Measure, NoMemory, ProcId, SiteId};
use md_cost::Loaded;
use md_static::Statics;
use md_table::Table;
use std::alloc::{AllocError, Global};

/// The table of the sites, and the root, from which links lead to contexts of a procedure, with the sums of these links.
pub fn callers_table(
    alloc: Global,
    loaded: &Loaded,
    by: Measure,
    id: ProcId,
) -> Result<Table, NoMemory>
    ensures { IfOk result (λ table. (v : View) → IsFileView loaded.now.profile v → table ≡ callers_table v by id) }
{
    let whole = whole_of(loaded, by);
    let rows = caller_rows(alloc, loaded, by, id)?;
    let sorted = in_order(alloc, &rows)?;
    let table = ports_table(alloc, whole, b"caller", &sorted)?;
    Ok(table)
}

/// The rows of the callers: that of the root, and those of the sites in rising order.
fn caller_rows(
    alloc: Global,
    loaded: &Loaded,
    by: Measure,
    id: ProcId,
) -> Result<Vec<PortsRow>, NoMemory>
    ensures { IfOk result (λ rows. (v : View) → IsFileView loaded.now.profile v → rows.items ≡ caller_rows v by id) }
{
    let statics = loaded.profile().statics();
    let sites = statics.sites().len();
    let found = gathered_by(alloc, loaded, by, &Slots::Callers(id), sites + 1)?;
    let mut rows = Vec::new(alloc);
    push_root(&mut rows, found[sites])?;
    for site in 0..sites {
        push_caller(&mut rows, statics, site as u32, found[site])?;
    }
    Ok(rows)
}

/// The slot of a link, if it leads to a context of the procedure.
pub(crate) fn caller_slot(loaded: &Loaded, id: ProcId, link: CsdId) -> Option<u32>
    requires there { link < length loaded.now.profile.links }
    ensures { (row : LinkRow) → row ≡ slice_index_or loaded.now.profile.links link row → result ≡ caller_slot loaded.now.profile id row }
{
    let profile = loaded.profile();
    let row = profile.links()[link.number() as usize];
    let proc = profile.nodes()[row.callee.number() as usize];
    if proc.number() == id.number() {
        Some(slot_of(row.site, profile.statics().sites().len() as u32))
    } else {
        None
    }
}

fn slot_of(site: Option<SiteId>, root: u32) -> u32
    ensures { result ≡ unwrap_or site root }
{
    match site {
        Some(site) => site.number(),
        None => root,
    }
}

/// Adds the row of the root, where it calls.
fn push_root(rows: &mut Vec<PortsRow>, sum: Option<Gathered>) -> Result<(), NoMemory>
    requires { IfSome sum HasSmallTotal }
    ensures { OnOk result (rows.new.items ≡ rows.old.items ++ row_of sum (codes "root")) }
{
    if let Some(sum) = sum {
        let last = Vec::from_slice(*rows.allocator(), b"root")?;
        rows.push(PortsRow::from_parts(sum.total, sum.own, last))?;
    }
    Ok(())
}

/// Adds the row of a site, where it calls.
fn push_caller(
    rows: &mut Vec<PortsRow>,
    statics: &Statics,
    site: u32,
    sum: Option<Gathered>,
) -> Result<(), NoMemory>
    requires { IfSome sum HasSmallTotal }
    ensures { OnOk result (rows.new.items ≡ rows.old.items ++ row_of sum (caller_words statics.now site)) }
{
    if let Some(sum) = sum {
        let mut words = Vec::new(*rows.allocator());
        add_caller(&mut words, statics, site)?;
        rows.push(PortsRow::from_parts(sum.total, sum.own, words))?;
    }
    Ok(())
}

/// Adds a site's owner, its line and its number.
fn add_caller(out: &mut Vec<u8>, statics: &Statics, site: u32) -> Result<(), AllocError>
    ensures { OnOk result (out.new.items ≡ out.old.items ++ caller_words statics.now site) }
{
    add_full_name(out, statics, owner_at(statics, site))?;
    add_number(out, b" line ", line_at(statics, site))?;
    add_number(out, b" site ", site)
}
