// Pages of tables.
ghost use Rattle.std.specs.Prelude.{◌≡◌, ◌<◌, [], ◌∷◌, length, IfOk};
ghost use Rattle.md_cost.specs.FileView.{IsFileView};
ghost use Rattle.md_cost.specs.View.{View};
ghost use Rattle.md_query.specs.declared.row.Title.TheVariants as title;
ghost use Rattle.md_people.specs.Callers.{called_table, callers_table};
ghost use Rattle.md_people.specs.Context.{callees_table, stations_table};
ghost use Rattle.md_query.specs.PageOf.{page_with, callers_page, context_page, find_rows, hot_rows, table_rows, tree_rows};

use crate::row::{Page, Row, Title};
use md_base::{Measure, NoMemory, PdId, ProcId, Text};
use md_cost::Loaded;
use md_people::{
    Sort, called_table, callees_table, callers_table, found_modules_table, found_procs_table,
    hot_table, stations_table, whole_of,
};
use md_tree::tree_table;
use std::alloc::Global;

/// The first procedures by their totals or own counts of a measure, with their shares.
pub fn hot_page(
    alloc: Global,
    loaded: &Loaded,
    by: Measure,
    n: u32,
    sort: Sort,
) -> Result<Page, NoMemory>
    ensures { IfOk result (λ page. (v : View) → IsFileView loaded.now.profile v → page ≡ page_with (title.Hot by n sort) (hot_rows v by n sort)) }
{
    let table = hot_table(alloc, loaded, by, n, sort)?;
    let mut rows = first_rows(alloc, loaded, by)?;
    rows.push(Row::Table(table))?;
    Ok(Page::from_parts(Title::Hot { by, n, sort }, rows))
}

/// The cliques as a tree, those whose totals are at least so many thousandths of the whole.
pub fn tree_page(alloc: Global, loaded: &Loaded, by: Measure, least: u32) -> Result<Page, NoMemory>
    ensures { IfOk result (λ page. (v : View) → IsFileView loaded.now.profile v → page ≡ page_with (title.Tree by least) (tree_rows v by least)) }
{
    let table = tree_table(alloc, loaded, by, least)?;
    let mut rows = first_rows(alloc, loaded, by)?;
    rows.push(Row::Table(table))?;
    Ok(Page::from_parts(Title::Tree { by, least }, rows))
}

/// A flame graph, which has no rows. Takes no memory.
pub fn flame_page(alloc: Global, by: Measure, least: u32) -> Page
    ensures { result ≡ page_with (title.Flame by least) [] }
{
    Page::from_parts(Title::Flame { by, least }, Vec::new(alloc))
}

/// The procedures and the modules in whose name the text is, with their shares of a measure.
pub fn find_page(alloc: Global, loaded: &Loaded, by: Measure, text: &Text) -> Result<Page, NoMemory>
    ensures { IfOk result (λ page. (v : View) → IsFileView loaded.now.profile v → page ≡ page_with (title.Find by text.now) (find_rows v by text.now)) }
{
    let rows = find_rows(alloc, loaded, by, text.as_bytes())?;
    let text = text.copy(alloc)?;
    Ok(Page::from_parts(Title::Find { by, text }, rows))
}

fn find_rows(alloc: Global, loaded: &Loaded, by: Measure, text: &[u8]) -> Result<Vec<Row>, NoMemory>
    ensures { IfOk result (λ rows. (v : View) → IsFileView loaded.now.profile v → rows.items ≡ find_rows v by text.now) }
{
    let mut rows = first_rows(alloc, loaded, by)?;
    let procs = found_procs_table(alloc, loaded, by, text)?;
    rows.push(Row::Table(procs))?;
    let modules = found_modules_table(alloc, loaded, by, text)?;
    rows.push(Row::Table(modules))?;
    Ok(rows)
}

/// A context: its stations, and the links that start there.
pub fn context_page(alloc: Global, loaded: &Loaded, by: Measure, id: PdId) -> Result<Page, NoMemory>
    requires there { id < length loaded.now.profile.nodes }
    ensures { IfOk result (λ page. (v : View) → IsFileView loaded.now.profile v → page ≡ context_page v by id) }
{
    let proc = loaded.profile().nodes()[id.number() as usize];
    let rows = context_rows(alloc, loaded, by, id)?;
    let title = Title::Context {
        by,
        node: id.number(),
        proc: proc.number(),
    };
    Ok(Page::from_parts(title, rows))
}

fn context_rows(alloc: Global, loaded: &Loaded, by: Measure, id: PdId) -> Result<Vec<Row>, NoMemory>
    requires there { id < length loaded.now.profile.nodes }
    ensures { IfOk result (λ rows. (v : View) → IsFileView loaded.now.profile v → rows.items ≡ table_rows v by (stations_table v by id ∷ callees_table v by id ∷ [])) }
{
    let mut rows = first_rows(alloc, loaded, by)?;
    let stations = stations_table(alloc, loaded, by, id)?;
    rows.push(Row::Table(stations))?;
    let callees = callees_table(alloc, loaded, by, id)?;
    rows.push(Row::Table(callees))?;
    Ok(rows)
}

/// The callers of a procedure, and what it calls.
pub fn callers_page(
    alloc: Global,
    loaded: &Loaded,
    by: Measure,
    id: ProcId,
) -> Result<Page, NoMemory>
    ensures { IfOk result (λ page. (v : View) → IsFileView loaded.now.profile v → page ≡ callers_page v by id) }
{
    let rows = callers_rows(alloc, loaded, by, id)?;
    let title = Title::Callers {
        by,
        id: id.number(),
    };
    Ok(Page::from_parts(title, rows))
}

fn callers_rows(
    alloc: Global,
    loaded: &Loaded,
    by: Measure,
    id: ProcId,
) -> Result<Vec<Row>, NoMemory>
    ensures { IfOk result (λ rows. (v : View) → IsFileView loaded.now.profile v → rows.items ≡ table_rows v by (callers_table v by id ∷ called_table v by id ∷ [])) }
{
    let mut rows = first_rows(alloc, loaded, by)?;
    let callers = callers_table(alloc, loaded, by, id)?;
    rows.push(Row::Table(callers))?;
    let called = called_table(alloc, loaded, by, id)?;
    rows.push(Row::Table(called))?;
    Ok(rows)
}

/// Whether the run was finished, and the whole of the measure.
fn first_rows(alloc: Global, loaded: &Loaded, by: Measure) -> Result<Vec<Row>, NoMemory>
    ensures { IfOk result (λ rows. (v : View) → IsFileView loaded.now.profile v → rows.items ≡ table_rows v by []) }
{
    let finished = loaded.profile().finished();
    let whole = whole_of(loaded, by);
    let mut rows = Vec::new(alloc);
    rows.push(Row::Finished(finished))?;
    rows.push(Row::Whole { by, whole })?;
    Ok(rows)
}
