// The page that a query asks for.
ghost use Rattle.std.specs.Prelude.{◌≡◌, ◌<◌, length, Err, Some, None, IfOk};
ghost use Rattle.std.specs.Option.{option_map};
ghost use Rattle.md_cost.specs.FileView.{IsFileView};
ghost use Rattle.md_cost.specs.View.{View};
ghost use Rattle.md_query.specs.declared.answer.PageFault.TheVariants as fault;
ghost use Rattle.md_query.specs.Asked.{Root, Clique, Proc, Module, Context, Callers, CallersNamed, ProcNamed, CliqueNamed};
ghost use Rattle.md_query.specs.Page.{IsWithin};
ghost use Rattle.md_query.specs.PageOf.{page_of, clique_page, first_clique};
ghost use Rattle.md_query.specs.Told.{asked};

use crate::lists::{first_context, module_named};
use crate::pages::{
    clique_page, menu_page, module_page, modules_page, proc_page, procs_page, top_page,
};
use crate::query::Query;
use crate::row::Page;
use crate::tables::{callers_page, context_page, find_page, flame_page, hot_page, tree_page};
use md_base::{Measure, NoMemory, PdId, ProcId};
use md_cost::Loaded;
use md_people::proc_named;
use std::alloc::Global;
use std::error::Error;
use std::fmt;

/// Why there is no page.
#[derive(Clone, Copy, Debug, PartialEq, Eq)]
pub enum PageFault {
    /// The clique, the context, the procedure or the module isn't in the profile.
    NoSuchPage,
    NoMemory,
}

impl fmt::Display for PageFault {
    fn fmt<W: fmt::Write>(&self, f: &mut fmt::Formatter<W>) -> fmt::Result {
        match self {
            PageFault::NoSuchPage => write!(f, "no such page"),
            PageFault::NoMemory => write!(f, "want of memory"),
        }
    }
}

impl Error for PageFault {}

impl From<NoMemory> for PageFault {
    ghost from_gives = { λ _ e. e ≡ fault.NoMemory };

    fn from(_: NoMemory) -> PageFault {
        PageFault::NoMemory
    }
}

/// The page that a query asks for, whose numbers are those of the view of the profile. `NoSuchPage` exactly where the
/// query's clique, context, procedure or module isn't in the profile.
pub fn page(alloc: Global, loaded: &Loaded, query: &Query) -> Result<Page, PageFault>
    ensures page { (v : View) → IsFileView loaded.now.profile v → IfOk result (λ page. page_of v (asked query.now) ≡ Some page) }
    ensures none { result ≡ Err fault.NoSuchPage → (v : View) → IsFileView loaded.now.profile v → page_of v (asked query.now) ≡ None }
    ensures within { IfOk result (λ page. IsWithin loaded.now.profile page) }
{
    // it is valid and has a view, which `profile` says
    let _profile = loaded.profile();
    match found_page(alloc, loaded, query)? {
        Some(page) => Ok(page),
        None => Err(PageFault::NoSuchPage),
    }
}

/// The page that a query asks for, or `None` exactly where there is none.
fn found_page(alloc: Global, loaded: &Loaded, query: &Query) -> Result<Option<Page>, NoMemory>
    ensures { IfOk result (λ found. (v : View) → IsFileView loaded.now.profile v → found ≡ page_of v (asked query.now)) }
{
    match query {
        Query::Menu => Ok(Some(menu_page(alloc, loaded)?)),
        Query::Root => root_page(alloc, loaded),
        Query::Clique(id) => find_clique(alloc, loaded, *id),
        Query::Procs => Ok(Some(procs_page(alloc, loaded)?)),
        Query::Top { by, n } => Ok(Some(top_page(alloc, loaded, *by, *n)?)),
        Query::Proc(id) => find_proc(alloc, loaded, *id),
        Query::Modules => Ok(Some(modules_page(alloc, loaded)?)),
        Query::Module(name) => find_module(alloc, loaded, name.as_bytes()),
        Query::Hot { by, n, sort } => Ok(Some(hot_page(alloc, loaded, *by, *n, *sort)?)),
        Query::Tree { by, least } => Ok(Some(tree_page(alloc, loaded, *by, *least)?)),
        Query::Flame { by, least } => Ok(Some(flame_page(alloc, *by, *least))),
        Query::Find { by, text } => Ok(Some(find_page(alloc, loaded, *by, text)?)),
        Query::Context { by, id } => find_context(alloc, loaded, *by, *id),
        Query::Callers { by, id } => find_callers(alloc, loaded, *by, *id),
        Query::CallersNamed { by, name } => {
            find_callers_named(alloc, loaded, *by, name.as_bytes())
        }
        Query::ProcNamed(name) => find_proc_named(alloc, loaded, name.as_bytes()),
        Query::CliqueNamed(name) => find_clique_named(alloc, loaded, name.as_bytes()),
    }
}

/// The page of the clique where the run began.
fn root_page(alloc: Global, loaded: &Loaded) -> Result<Option<Page>, NoMemory>
    ensures { IfOk result (λ found. (v : View) → IsFileView loaded.now.profile v → found ≡ page_of v Root) }
{
    // it is valid and has a view, which `profile` says
    let _profile = loaded.profile();
    let page = clique_page(alloc, loaded, 0)?;
    Ok(Some(page))
}

/// The page of a clique, if it is there.
fn find_clique(alloc: Global, loaded: &Loaded, id: u32) -> Result<Option<Page>, NoMemory>
    ensures { IfOk result (λ found. (v : View) → IsFileView loaded.now.profile v → found ≡ page_of v (Clique id)) }
{
    if id >= loaded.clique_count() {
        return Ok(None);
    }
    let page = clique_page(alloc, loaded, id)?;
    Ok(Some(page))
}

/// The page of a procedure, if it is there.
fn find_proc(alloc: Global, loaded: &Loaded, id: u32) -> Result<Option<Page>, NoMemory>
    ensures { IfOk result (λ found. (v : View) → IsFileView loaded.now.profile v → found ≡ page_of v (Proc id)) }
{
    if id as usize >= loaded.profile().statics().procs().len() {
        return Ok(None);
    }
    let page = proc_page(alloc, loaded, ProcId::new(id))?;
    Ok(Some(page))
}

/// The page of the module of a name, if it is there.
fn find_module(alloc: Global, loaded: &Loaded, name: &[u8]) -> Result<Option<Page>, NoMemory>
    ensures { IfOk result (λ found. (v : View) → IsFileView loaded.now.profile v → found ≡ page_of v (Module name.now)) }
{
    match module_named(loaded.profile().statics().modules(), name) {
        Some(id) => {
            let page = module_page(alloc, loaded, id)?;
            Ok(Some(page))
        }
        None => Ok(None),
    }
}

/// The page of a context, if it is there.
fn find_context(
    alloc: Global,
    loaded: &Loaded,
    by: Measure,
    id: u32,
) -> Result<Option<Page>, NoMemory>
    ensures { IfOk result (λ found. (v : View) → IsFileView loaded.now.profile v → found ≡ page_of v (Context by id)) }
{
    if id as usize >= loaded.profile().nodes().len() {
        return Ok(None);
    }
    let page = context_page(alloc, loaded, by, PdId::new(id))?;
    Ok(Some(page))
}

/// The page of a procedure's callers, if it is there.
fn find_callers(
    alloc: Global,
    loaded: &Loaded,
    by: Measure,
    id: u32,
) -> Result<Option<Page>, NoMemory>
    ensures { IfOk result (λ found. (v : View) → IsFileView loaded.now.profile v → found ≡ page_of v (Callers by id)) }
{
    if id as usize >= loaded.profile().statics().procs().len() {
        return Ok(None);
    }
    let page = callers_page(alloc, loaded, by, ProcId::new(id))?;
    Ok(Some(page))
}

/// The page of the callers of the procedure of a full name, if it is there.
fn find_callers_named(
    alloc: Global,
    loaded: &Loaded,
    by: Measure,
    name: &[u8],
) -> Result<Option<Page>, NoMemory>
    ensures { IfOk result (λ found. (v : View) → IsFileView loaded.now.profile v → found ≡ page_of v (CallersNamed by name.now)) }
{
    match proc_named(alloc, loaded.profile().statics(), name)? {
        Some(id) => {
            let page = callers_page(alloc, loaded, by, id)?;
            Ok(Some(page))
        }
        None => Ok(None),
    }
}

/// The page of the procedure of a full name, if it is there.
fn find_proc_named(alloc: Global, loaded: &Loaded, name: &[u8]) -> Result<Option<Page>, NoMemory>
    ensures { IfOk result (λ found. (v : View) → IsFileView loaded.now.profile v → found ≡ page_of v (ProcNamed name.now)) }
{
    match proc_named(alloc, loaded.profile().statics(), name)? {
        Some(id) => {
            let page = proc_page(alloc, loaded, id)?;
            Ok(Some(page))
        }
        None => Ok(None),
    }
}

/// The page of the clique of the first context of the procedure of a full name, if it is there.
fn find_clique_named(alloc: Global, loaded: &Loaded, name: &[u8]) -> Result<Option<Page>, NoMemory>
    ensures { IfOk result (λ found. (v : View) → IsFileView loaded.now.profile v → found ≡ page_of v (CliqueNamed name.now)) }
{
    match proc_named(alloc, loaded.profile().statics(), name)? {
        Some(id) => find_first_clique(alloc, loaded, id),
        None => Ok(None),
    }
}

/// The page of the clique of a procedure's first context, if it has one.
fn find_first_clique(alloc: Global, loaded: &Loaded, id: ProcId) -> Result<Option<Page>, NoMemory>
    requires { id < length loaded.now.profile.statics.procs }
    ensures { IfOk result (λ found. (v : View) → IsFileView loaded.now.profile v → found ≡ option_map (clique_page v) (first_clique v id)) }
{
    // it is valid and has a view, which `profile` says
    let _profile = loaded.profile();
    match first_context(loaded, id) {
        Some(node) => {
            let page = clique_page(alloc, loaded, loaded.clique_of(node))?;
            Ok(Some(page))
        }
        None => Ok(None),
    }
}
