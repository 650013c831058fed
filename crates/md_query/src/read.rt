// Which path and pairs are a query.
ghost use Rattle.std.specs.Prelude.{◌≡◌, ◌||◌, [], Some, None, true, codes, IfOk, IfErr, IsOk, Err};
ghost use Rattle.std.specs.Str.{bytes_eq};
ghost use Rattle.md_query.specs.declared.query.QueryFault.TheVariants as fault;
ghost use Rattle.md_query.specs.Asked.{query_of, table_of, takes_pairs, keeps_text, clique_by, top_of, proc_by, module_of, hot_of, tree_of, flame_of, find_of, context_of, callers_by};
ghost use Rattle.md_query.specs.Pair.{ArePlain, value_of, id_in, measure_in, count_in, measure_asked, count_asked, sort_asked, least_asked};
ghost use Rattle.md_query.specs.Told.{asked, asked_told};

use crate::pair::{
    count_asked, least_asked, measure_asked, measure_in, number_in, number_within, sort_asked,
    text_in, value_of,
};
use crate::query::{Query, QueryFault};
use md_base::{Measure, NoMemory, Text};
use md_people::Sort;
use std::alloc::Global;

/// The most procedures that `top` lists.
const MOST_LISTED: u32 = 1000;

/// The query that path and pairs spell. `BadQuery` exactly where they are none. `NoMemory` only where the path is one
/// that takes pairs, and where nothing of these is to be decoded, only at a query that keeps a text.
pub fn read_query(alloc: Global, path: &[u8], pairs: &[u8]) -> Result<Query, QueryFault>
    ensures query { IfOk result (λ query. query_of path.now pairs.now ≡ Some (asked query)) }
    ensures bad { result ≡ Err fault.BadQuery → query_of path.now pairs.now ≡ None }
    ensures memory { result ≡ Err fault.NoMemory → takes_pairs path.now ≡ true }
    ensures plain { result ≡ Err fault.NoMemory → ArePlain pairs.now → keeps_text (query_of path.now pairs.now) ≡ true }
{
    match found(alloc, path, pairs)? {
        Some(query) => Ok(query),
        None => Err(QueryFault::BadQuery),
    }
}

/// The query that path and pairs spell, or `None` exactly where they are none.
#[tactic(auto, unfolding(crate::specs::Asked::query_of))]
fn found(alloc: Global, path: &[u8], pairs: &[u8]) -> Result<Option<Query>, NoMemory>
    ensures query { IfOk result (λ found. asked_told found ≡ query_of path.now pairs.now) }
    ensures memory { IfErr result (λ _. takes_pairs path.now ≡ true) }
    ensures plain { IfErr result (λ _. ArePlain pairs.now → keeps_text (query_of path.now pairs.now) ≡ true) }
{
    if is_menu(path) {
        Ok(Some(Query::Menu))
    } else if path == b"root".as_slice() {
        Ok(Some(Query::Root))
    } else if path == b"clique".as_slice() {
        clique_query(alloc, pairs)
    } else if path == b"procs".as_slice() {
        Ok(Some(Query::Procs))
    } else if path == b"top".as_slice() {
        top_query(alloc, pairs)
    } else if path == b"proc".as_slice() {
        proc_query(alloc, pairs)
    } else if path == b"modules".as_slice() {
        Ok(Some(Query::Modules))
    } else if path == b"module".as_slice() {
        module_query(alloc, pairs)
    } else {
        found_table(alloc, path, pairs)
    }
}

/// The query for a page of tables, or `None` exactly where path and pairs are none.
#[tactic(auto, unfolding(crate::specs::Asked::table_of))]
fn found_table(alloc: Global, path: &[u8], pairs: &[u8]) -> Result<Option<Query>, NoMemory>
    ensures query { IfOk result (λ found. asked_told found ≡ table_of path.now pairs.now) }
    ensures memory { IfErr result (λ _. takes_pairs path.now ≡ true) }
    ensures plain { IfErr result (λ _. ArePlain pairs.now → keeps_text (table_of path.now pairs.now) ≡ true) }
{
    if path == b"hot".as_slice() {
        hot_query(alloc, pairs)
    } else if path == b"find".as_slice() {
        find_query(alloc, pairs)
    } else if path == b"context".as_slice() {
        context_query(alloc, pairs)
    } else if path == b"callers".as_slice() {
        callers_query(alloc, pairs)
    } else if path == b"tree".as_slice() {
        tree_query(alloc, pairs)
    } else if path == b"flame".as_slice() {
        flame_query(alloc, pairs)
    } else {
        Ok(None)
    }
}

/// Whether a path is that of the menu.
fn is_menu(path: &[u8]) -> bool
    ensures { result ≡ (bytes_eq path.now [] || bytes_eq path.now (codes "menu")) }
{
    path.is_empty() || path == b"menu".as_slice()
}

/// The query for a clique, by its pairs.
fn clique_query(alloc: Global, pairs: &[u8]) -> Result<Option<Query>, NoMemory>
    ensures query { IfOk result (λ found. asked_told found ≡ clique_by (value_of (codes "id") pairs.now) (value_of (codes "name") pairs.now)) }
    ensures plain { ArePlain pairs.now → IfErr result (λ _. keeps_text (clique_by (value_of (codes "id") pairs.now) (value_of (codes "name") pairs.now)) ≡ true) }
{
    if let Some(id) = value_of(alloc, "id", pairs)? {
        return match number_within(0, u32::MAX, id.as_bytes()) {
            Some(id) => Ok(Some(Query::Clique(id))),
            None => Ok(None),
        };
    }
    match text_in(alloc, "name", pairs)? {
        Some(name) => Ok(Some(Query::CliqueNamed(name))),
        None => Ok(None),
    }
}

/// The query for the first procedures, by its pairs.
fn top_query(alloc: Global, pairs: &[u8]) -> Result<Option<Query>, NoMemory>
    ensures query { IfOk result (λ found. asked_told found ≡ top_of (measure_in pairs.now) (count_in pairs.now)) }
    ensures plain { ArePlain pairs.now → IsOk result }
{
    let Some(by) = measure_in(alloc, pairs)? else {
        return Ok(None);
    };
    match number_in(alloc, "n", 1, MOST_LISTED, pairs)? {
        Some(n) => Ok(Some(Query::Top { by, n })),
        None => Ok(None),
    }
}

/// The query for a procedure, by its pairs.
fn proc_query(alloc: Global, pairs: &[u8]) -> Result<Option<Query>, NoMemory>
    ensures query { IfOk result (λ found. asked_told found ≡ proc_by (value_of (codes "id") pairs.now) (value_of (codes "name") pairs.now)) }
    ensures plain { ArePlain pairs.now → IfErr result (λ _. keeps_text (proc_by (value_of (codes "id") pairs.now) (value_of (codes "name") pairs.now)) ≡ true) }
{
    if let Some(id) = value_of(alloc, "id", pairs)? {
        return match number_within(0, u32::MAX, id.as_bytes()) {
            Some(id) => Ok(Some(Query::Proc(id))),
            None => Ok(None),
        };
    }
    match text_in(alloc, "name", pairs)? {
        Some(name) => Ok(Some(Query::ProcNamed(name))),
        None => Ok(None),
    }
}

/// The query for a module, by its pairs.
fn module_query(alloc: Global, pairs: &[u8]) -> Result<Option<Query>, NoMemory>
    ensures query { IfOk result (λ found. asked_told found ≡ module_of (value_of (codes "name") pairs.now)) }
    ensures plain { ArePlain pairs.now → IfErr result (λ _. keeps_text (module_of (value_of (codes "name") pairs.now)) ≡ true) }
{
    match text_in(alloc, "name", pairs)? {
        Some(name) => Ok(Some(Query::Module(name))),
        None => Ok(None),
    }
}

/// The query for the procedures that cost most, by its pairs.
fn hot_query(alloc: Global, pairs: &[u8]) -> Result<Option<Query>, NoMemory>
    ensures query { IfOk result (λ found. asked_told found ≡ hot_of (measure_asked pairs.now) (count_asked pairs.now) (sort_asked pairs.now)) }
    ensures plain { ArePlain pairs.now → IsOk result }
{
    let by = measure_asked(alloc, pairs)?;
    let n = count_asked(alloc, pairs)?;
    let sort = sort_asked(alloc, pairs)?;
    Ok(hot_with(by, n, sort))
}

/// The query for the procedures that cost most, where each of its pairs has a value.
fn hot_with(by: Option<Measure>, n: Option<u32>, sort: Option<Sort>) -> Option<Query>
    ensures { asked_told result ≡ hot_of by n sort }
{
    Some(Query::Hot {
        by: by?,
        n: n?,
        sort: sort?,
    })
}

/// The query for the cliques as a tree, by its pairs.
fn tree_query(alloc: Global, pairs: &[u8]) -> Result<Option<Query>, NoMemory>
    ensures query { IfOk result (λ found. asked_told found ≡ tree_of (measure_asked pairs.now) (least_asked 5 pairs.now)) }
    ensures plain { ArePlain pairs.now → IsOk result }
{
    let by = measure_asked(alloc, pairs)?;
    let least = least_asked(alloc, 5, pairs)?;
    Ok(tree_with(by, least))
}

/// The query for the cliques as a tree, where each of its pairs has a value.
fn tree_with(by: Option<Measure>, least: Option<u32>) -> Option<Query>
    ensures { asked_told result ≡ tree_of by least }
{
    Some(Query::Tree {
        by: by?,
        least: least?,
    })
}

/// The query for a flame graph, by its pairs.
fn flame_query(alloc: Global, pairs: &[u8]) -> Result<Option<Query>, NoMemory>
    ensures query { IfOk result (λ found. asked_told found ≡ flame_of (measure_asked pairs.now) (least_asked 1 pairs.now)) }
    ensures plain { ArePlain pairs.now → IsOk result }
{
    let by = measure_asked(alloc, pairs)?;
    let least = least_asked(alloc, 1, pairs)?;
    Ok(flame_with(by, least))
}

/// The query for a flame graph, where each of its pairs has a value.
fn flame_with(by: Option<Measure>, least: Option<u32>) -> Option<Query>
    ensures { asked_told result ≡ flame_of by least }
{
    Some(Query::Flame {
        by: by?,
        least: least?,
    })
}

/// The query for what has a text in its name, by its pairs. A text of no bytes asks for nothing.
fn find_query(alloc: Global, pairs: &[u8]) -> Result<Option<Query>, NoMemory>
    ensures query { IfOk result (λ found. asked_told found ≡ find_of (measure_asked pairs.now) (value_of (codes "name") pairs.now)) }
    ensures plain { ArePlain pairs.now → IfErr result (λ _. keeps_text (find_of (measure_asked pairs.now) (value_of (codes "name") pairs.now)) ≡ true) }
{
    let Some(by) = measure_asked(alloc, pairs)? else {
        return Ok(None);
    };
    let Some(text) = value_of(alloc, "name", pairs)? else {
        return Ok(None);
    };
    if text.as_bytes().is_empty() {
        return Ok(None);
    }
    let text = Text::from_bytes(alloc, text.as_bytes())?;
    Ok(Some(Query::Find { by, text }))
}

/// The query for a context, by its pairs.
fn context_query(alloc: Global, pairs: &[u8]) -> Result<Option<Query>, NoMemory>
    ensures query { IfOk result (λ found. asked_told found ≡ context_of (measure_asked pairs.now) (id_in pairs.now)) }
    ensures plain { ArePlain pairs.now → IsOk result }
{
    let Some(by) = measure_asked(alloc, pairs)? else {
        return Ok(None);
    };
    match number_in(alloc, "id", 0, u32::MAX, pairs)? {
        Some(id) => Ok(Some(Query::Context { by, id })),
        None => Ok(None),
    }
}

/// The query for the callers of a procedure, by its pairs.
fn callers_query(alloc: Global, pairs: &[u8]) -> Result<Option<Query>, NoMemory>
    ensures query { IfOk result (λ found. asked_told found ≡ callers_by (measure_asked pairs.now) (value_of (codes "id") pairs.now) (value_of (codes "name") pairs.now)) }
    ensures plain { ArePlain pairs.now → IfErr result (λ _. keeps_text (callers_by (measure_asked pairs.now) (value_of (codes "id") pairs.now) (value_of (codes "name") pairs.now)) ≡ true) }
{
    let Some(by) = measure_asked(alloc, pairs)? else {
        return Ok(None);
    };
    if let Some(id) = value_of(alloc, "id", pairs)? {
        return match number_within(0, u32::MAX, id.as_bytes()) {
            Some(id) => Ok(Some(Query::Callers { by, id })),
            None => Ok(None),
        };
    }
    match text_in(alloc, "name", pairs)? {
        Some(name) => Ok(Some(Query::CallersNamed { by, name })),
        None => Ok(None),
    }
}
