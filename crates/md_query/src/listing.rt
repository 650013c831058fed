// Rows for lists of procedures, contexts, call sites, links and modules.
ghost use Rattle.std.specs.Prelude.{◌≡◌, ◌<◌, ◌++◌, ◌==◌, All, OnOk, length, map};
ghost use Rattle.std.specs.List.{range_with_len};
ghost use Rattle.md_clique.specs.Places.{places};
ghost use Rattle.md_cost.specs.FileView.{IsFileView};
ghost use Rattle.md_cost.specs.View.{View};
ghost use Rattle.md_query.specs.PageOf.{proc_row, of_row, site_row, link_row, context_rows, module_row};

use crate::lists::sizes_of_modules;
use crate::row::Row;
use crate::rows::{context_row, link_row, of_row, proc_row, site_row};
use md_base::{CsdId, NoMemory, PdId, ProcId, SiteId};
use md_cost::Loaded;
use std::alloc::Global;

/// Adds the rows of these procedures.
pub fn push_procs(rows: &mut Vec<Row>, loaded: &Loaded, ids: &[u32]) -> Result<(), NoMemory>
    requires { All (λ id. id < length loaded.now.profile.statics.procs) ids.now }
    ensures { (v : View) → IsFileView loaded.now.profile v → OnOk result (rows.new.items ≡ rows.old.items ++ map (proc_row v) ids.now) }
{
    for id in ids {
        rows.push(proc_row(loaded, ProcId::new(*id)))?;
    }
    Ok(())
}

/// Adds the rows of these contexts of a procedure.
pub fn push_contexts(rows: &mut Vec<Row>, loaded: &Loaded, nodes: &[u32]) -> Result<(), NoMemory>
    requires { All (λ node. node < length loaded.now.profile.nodes) nodes.now }
    ensures { (v : View) → IsFileView loaded.now.profile v → OnOk result (rows.new.items ≡ rows.old.items ++ map (of_row v) nodes.now) }
{
    for node in nodes {
        rows.push(of_row(loaded, PdId::new(*node)))?;
    }
    Ok(())
}

/// Adds the rows of these call sites.
pub fn push_sites(rows: &mut Vec<Row>, loaded: &Loaded, ids: &[u32]) -> Result<(), NoMemory>
    requires { All (λ id. id < length loaded.now.profile.statics.sites) ids.now }
    ensures { (v : View) → IsFileView loaded.now.profile v → OnOk result (rows.new.items ≡ rows.old.items ++ map (site_row v) ids.now) }
{
    for id in ids {
        rows.push(site_row(loaded, SiteId::new(*id)))?;
    }
    Ok(())
}

/// Adds the rows of a context of a clique: its own, and those of the links that start there.
pub fn push_context(rows: &mut Vec<Row>, loaded: &Loaded, node: u32) -> Result<(), NoMemory>
    requires { node < length loaded.now.profile.nodes }
    ensures { (v : View) → IsFileView loaded.now.profile v → OnOk result (rows.new.items ≡ rows.old.items ++ context_rows v node) }
{
    let node = PdId::new(node);
    rows.push(context_row(loaded, node))?;
    push_links(rows, loaded, loaded.links_from(node))
}

/// Adds the row of each module.
pub fn push_modules(alloc: Global, rows: &mut Vec<Row>, loaded: &Loaded) -> Result<(), NoMemory>
    ensures { (v : View) → IsFileView loaded.now.profile v → OnOk result (rows.new.items ≡ rows.old.items ++ map (module_row v) (range_with_len 0 (length loaded.now.profile.statics.modules))) }
{
    let statics = loaded.profile().statics();
    let count = statics.modules().len();
    let sizes = sizes_of_modules(alloc, statics.procs(), count)?;
    for id in 0..count {
        rows.push(module_row(loaded, id as u32, sizes[id]))?;
    }
    Ok(())
}

/// Adds the rows of these links from a context.
fn push_links(rows: &mut Vec<Row>, loaded: &Loaded, links: &[u32]) -> Result<(), NoMemory>
    requires { All (λ link. link < length loaded.now.profile.links) links.now }
    ensures { (v : View) → IsFileView loaded.now.profile v → OnOk result (rows.new.items ≡ rows.old.items ++ map (link_row v) links.now) }
{
    for link in links {
        rows.push(link_row(loaded, CsdId::new(*link)))?;
    }
    Ok(())
}

/// The row of a module with so many procedures.
fn module_row(loaded: &Loaded, id: u32, procs: u32) -> Row
    requires there { id < length loaded.now.profile.statics.modules }
    requires procs { procs ≡ length (places (λ p. p.«module» == id) loaded.now.profile.statics.procs) }
    ensures { (v : View) → IsFileView loaded.now.profile v → result ≡ module_row v id }
{
    let own = loaded.module_own(id);
    let total = loaded.module_total(id);
    Row::Module {
        id,
        procs,
        own,
        total,
    }
}
