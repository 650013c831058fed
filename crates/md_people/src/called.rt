// What a procedure calls.
ghost use Rattle.std.specs.Prelude.{◌≡◌, ◌<◌, ◌++◌, Some, length, slice_index_or, IfOk, IfSome, OnOk};
ghost use Rattle.std.specs.List.{flat_map, range_with_len};
ghost use Rattle.md_trace.specs.Context.{same_option};
ghost use Rattle.md_dynamic.specs.declared.link.LinkRow.{LinkRow};
ghost use Rattle.md_cost.specs.FileView.{IsFileView};
ghost use Rattle.md_cost.specs.View.{View};
ghost use Rattle.md_people.specs.Callers.{called_table, callee_rows, callee_rows_at};
ghost use Rattle.md_people.specs.Gathered.{HasSmallTotal, callee_slot, gathered_of, links_at, row_of};
ghost use Rattle.md_people.specs.Words.{called_words};

use crate::costs::whole_of;
use crate::gathered::{Gathered, Slots, gathered_by};
use crate::led::add_from;
use crate::name::add_full_name;
use crate::order::in_order;
use crate::ports::{PortsRow, ports_table};
use md_base::{CsdId, Measure, NoMemory, ProcId, SiteId};
use md_cost::Loaded;
use md_static::{SiteKind, Statics};
use md_table::Table;
use std::alloc::{AllocError, Global};

/// The table of the procedures to which links at the sites of a procedure lead, site by site, with the sums of these links. All links are
/// looked at once, and once more for each higher-order site of the procedure.
pub fn called_table(
    alloc: Global,
    loaded: &Loaded,
    by: Measure,
    id: ProcId,
) -> Result<Table, NoMemory>
    ensures { IfOk result (λ table. (v : View) → IsFileView loaded.now.profile v → table ≡ called_table v by id) }
{
    let whole = whole_of(loaded, by);
    let rows = callee_rows(alloc, loaded, by, id)?;
    let sorted = in_order(alloc, &rows)?;
    let table = ports_table(alloc, whole, b"callee", &sorted)?;
    Ok(table)
}

/// The rows of the callees, by site and then by procedure.
fn callee_rows(
    alloc: Global,
    loaded: &Loaded,
    by: Measure,
    id: ProcId,
) -> Result<Vec<PortsRow>, NoMemory>
    ensures { IfOk result (λ rows. (v : View) → IsFileView loaded.now.profile v → rows.items ≡ callee_rows v by id) }
{
    let sites = loaded.profile().statics().sites();
    let found = gathered_by(alloc, loaded, by, &Slots::Sites, sites.len())?;
    let mut rows = Vec::new(alloc);
    for site in 0..sites.len() {
        if sites[site].owner.number() == id.number() {
            push_site(&mut rows, loaded, by, site as u32, found[site])?;
        }
    }
    Ok(rows)
}

/// Adds the rows of the procedures that are called at a site, of whose links these are the sums: a site that is not higher-order calls one.
fn push_site(
    rows: &mut Vec<PortsRow>,
    loaded: &Loaded,
    by: Measure,
    site: u32,
    sum: Option<Gathered>,
) -> Result<(), NoMemory>
    requires there { site < length loaded.now.profile.statics.sites }
    requires small { IfSome sum HasSmallTotal }
    requires sum { (v : View) → IsFileView loaded.now.profile v → sum ≡ gathered_of v by (links_at v site) }
    ensures { (v : View) → IsFileView loaded.now.profile v → OnOk result (rows.new.items ≡ rows.old.items ++ flat_map (callee_rows_at v by site) (range_with_len 0 (length v.statics.procs))) }
{
    let statics = loaded.profile().statics();
    match statics.sites()[site as usize].kind {
        SiteKind::Plain(callee) => push_callee(rows, statics, site, callee.number(), sum)?,
        SiteKind::HigherOrder => push_callees(rows, loaded, by, site)?,
    }
    Ok(())
}

/// Adds the rows of the procedures that are called at a site, by a look at all links.
fn push_callees(
    rows: &mut Vec<PortsRow>,
    loaded: &Loaded,
    by: Measure,
    site: u32,
) -> Result<(), NoMemory>
    ensures { (v : View) → IsFileView loaded.now.profile v → OnOk result (rows.new.items ≡ rows.old.items ++ flat_map (callee_rows_at v by site) (range_with_len 0 (length v.statics.procs))) }
{
    let alloc: Global = *rows.allocator();
    let statics = loaded.profile().statics();
    let procs = statics.procs().len();
    let slots = Slots::Callees(SiteId::new(site));
    let found = gathered_by(alloc, loaded, by, &slots, procs)?;
    for proc in 0..procs {
        push_callee(rows, statics, site, proc as u32, found[proc])?;
    }
    Ok(())
}

/// The slot of a link, if it is at the site.
pub(crate) fn callee_slot(loaded: &Loaded, site: SiteId, link: CsdId) -> Option<u32>
    requires there { link < length loaded.now.profile.links }
    ensures { (row : LinkRow) → row ≡ slice_index_or loaded.now.profile.links link row → result ≡ callee_slot loaded.now.profile site row }
{
    let profile = loaded.profile();
    let row = profile.links()[link.number() as usize];
    let proc = profile.nodes()[row.callee.number() as usize];
    if is_at(row.site, site) {
        Some(proc.number())
    } else {
        None
    }
}

fn is_at(at: Option<SiteId>, site: SiteId) -> bool
    ensures { result ≡ same_option at (Some site) }
{
    match at {
        Some(at) => at.number() == site.number(),
        None => false,
    }
}

/// Adds the row of a procedure that is called at a site, where it is.
fn push_callee(
    rows: &mut Vec<PortsRow>,
    statics: &Statics,
    site: u32,
    proc: u32,
    sum: Option<Gathered>,
) -> Result<(), NoMemory>
    requires { IfSome sum HasSmallTotal }
    ensures { OnOk result (rows.new.items ≡ rows.old.items ++ row_of sum (called_words statics.now site proc)) }
{
    if let Some(sum) = sum {
        let mut words = Vec::new(*rows.allocator());
        add_called(&mut words, statics, site, proc)?;
        rows.push(PortsRow::from_parts(sum.total, sum.own, words))?;
    }
    Ok(())
}

/// Adds a procedure's name, and from where it is called.
fn add_called(out: &mut Vec<u8>, statics: &Statics, site: u32, proc: u32) -> Result<(), AllocError>
    ensures { OnOk result (out.new.items ≡ out.old.items ++ called_words statics.now site proc) }
{
    add_full_name(out, statics, proc)?;
    add_from(out, statics, site)
}
