// The page of each kind.
ghost use Rattle.std.specs.Prelude.{◌≡◌, ◌<◌, IfOk, length, map};
ghost use Rattle.md_clique.specs.Cliques.{clique_count};
ghost use Rattle.md_cost.specs.FileView.{IsFileView};
ghost use Rattle.md_cost.specs.View.{View};
ghost use Rattle.md_query.specs.declared.row.Title.TheVariants as title;
ghost use Rattle.md_query.specs.PageOf.{page_with, menu_rows, clique_page, proc_row, proc_rows, module_row, module_page, all_procs, all_modules, top_procs};

use crate::listing::{push_context, push_contexts, push_modules, push_procs, push_sites};
use crate::lists::{numbers_below, procs_of_module, sites_of};
use crate::row::{Page, Row, Title, What};
use crate::rows::entered_row;
use md_base::{Measure, NoMemory, ProcId};
use md_cost::Loaded;
use md_people::{Sort, ranked_procs};
use std::alloc::Global;

/// What the profile is of, and how much it holds.
pub fn menu_page(alloc: Global, loaded: &Loaded) -> Result<Page, NoMemory>
    ensures { IfOk result (λ page. (v : View) → IsFileView loaded.now.profile v → page ≡ page_with title.Menu (menu_rows v)) }
{
    let profile = loaded.profile();
    let total = loaded.clique_total(0);
    let mut rows = Vec::from_array(
        alloc,
        [
            Row::Main { module: 0 },
            Row::Finished(profile.finished()),
            number(What::Contexts, profile.nodes().len() as u64),
            number(What::Links, profile.links().len() as u64),
            number(What::Cliques, u64::from(loaded.clique_count())),
            number(What::Calls, total.calls),
            number(What::Exits, total.exits),
            number(What::Fails, total.fails),
            number(What::Redos, total.redos),
            number(What::Allocs, total.allocs),
            number(What::Words, total.words),
        ],
    )?;
    if total.excps != 0 {
        rows.push(number(What::Excps, total.excps))?;
    }
    Ok(Page::from_parts(Title::Menu, rows))
}

/// A clique: the link that enters it, its total, and its contexts with the links that start there.
pub fn clique_page(alloc: Global, loaded: &Loaded, id: u32) -> Result<Page, NoMemory>
    requires { id < clique_count loaded.now.cliques }
    ensures { IfOk result (λ page. (v : View) → IsFileView loaded.now.profile v → page ≡ clique_page v id) }
{
    // it is valid and has a view, which `profile` says
    let _profile = loaded.profile();
    let mut rows = Vec::new(alloc);
    rows.push(entered_row(loaded, id))?;
    rows.push(Row::Total(loaded.clique_total(id)))?;
    for node in loaded.members(id) {
        push_context(&mut rows, loaded, *node)?;
    }
    Ok(Page::from_parts(Title::Clique(id), rows))
}

/// Each procedure.
pub fn procs_page(alloc: Global, loaded: &Loaded) -> Result<Page, NoMemory>
    ensures { IfOk result (λ page. (v : View) → IsFileView loaded.now.profile v → page ≡ page_with title.Procs (map (proc_row v) (all_procs v))) }
{
    let ids = numbers_below(alloc, loaded.profile().statics().procs().len() as u32)?;
    let mut rows = Vec::with_capacity(alloc, ids.len())?;
    push_procs(&mut rows, loaded, &ids)?;
    Ok(Page::from_parts(Title::Procs, rows))
}

/// The first procedures by their own counts of a measure.
pub fn top_page(alloc: Global, loaded: &Loaded, by: Measure, n: u32) -> Result<Page, NoMemory>
    ensures { IfOk result (λ page. (v : View) → IsFileView loaded.now.profile v → page ≡ page_with (title.Top by n) (map (proc_row v) (top_procs v by n))) }
{
    // it is valid and has a view, which `profile` says
    let _profile = loaded.profile();
    let ids = ranked_procs(alloc, loaded, by, Sort::Own)?;
    let shown = ids.len().min(n as usize);
    let mut rows = Vec::with_capacity(alloc, shown)?;
    push_procs(&mut rows, loaded, &ids[..shown])?;
    Ok(Page::from_parts(Title::Top { by, n }, rows))
}

/// A procedure: its counts, its contexts and its call sites.
pub fn proc_page(alloc: Global, loaded: &Loaded, id: ProcId) -> Result<Page, NoMemory>
    requires { id < length loaded.now.profile.statics.procs }
    ensures { IfOk result (λ page. (v : View) → IsFileView loaded.now.profile v → page ≡ page_with (title.Proc id) (proc_rows v id)) }
{
    let sites = sites_of(alloc, loaded.profile().statics().sites(), id)?;
    let mut rows = Vec::new(alloc);
    rows.push(Row::Own(loaded.proc_own(id)))?;
    rows.push(Row::Total(loaded.proc_total(id)))?;
    push_contexts(&mut rows, loaded, loaded.contexts_of(id))?;
    push_sites(&mut rows, loaded, &sites)?;
    Ok(Page::from_parts(Title::Proc(id.number()), rows))
}

/// Each module.
pub fn modules_page(alloc: Global, loaded: &Loaded) -> Result<Page, NoMemory>
    ensures { IfOk result (λ page. (v : View) → IsFileView loaded.now.profile v → page ≡ page_with title.Modules (map (module_row v) (all_modules v))) }
{
    let mut rows = Vec::new(alloc);
    push_modules(alloc, &mut rows, loaded)?;
    Ok(Page::from_parts(Title::Modules, rows))
}

/// A module: its counts and its procedures.
pub fn module_page(alloc: Global, loaded: &Loaded, id: u32) -> Result<Page, NoMemory>
    requires { id < length loaded.now.profile.statics.modules }
    ensures { IfOk result (λ page. (v : View) → IsFileView loaded.now.profile v → page ≡ module_page v id) }
{
    let ids = procs_of_module(alloc, loaded.profile().statics().procs(), id)?;
    let mut rows = Vec::new(alloc);
    rows.push(Row::Own(loaded.module_own(id)))?;
    rows.push(Row::Total(loaded.module_total(id)))?;
    push_procs(&mut rows, loaded, &ids)?;
    Ok(Page::from_parts(Title::Module(id), rows))
}

/// How much there is of something.
fn number(what: What, n: u64) -> Row
    ensures { result ≡ Row.Number what n }
{
    Row::Number { what, n }
}
