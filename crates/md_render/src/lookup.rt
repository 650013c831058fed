// Where the words on a page are looked up. A number that isn't there stands for 0 or for no name.
ghost use Rattle.std.specs.Prelude.{◌≡◌, slice_get};
ghost use Rattle.md_render.specs.Kept.{names_in};
ghost use Rattle.md_render.specs.Names.{module_name, proc_at, clique_at, caller_at, site_at, callee_at};

use md_base::{CsdId, PdId, SiteId};
use md_cost::Loaded;
use md_static::{Site, Statics};

/// The name of a module.
pub(crate) fn module_name(statics: &Statics, id: u32) -> &[u8]
    ensures { result.now ≡ module_name statics.now id }
{
    match statics.modules().get(id as usize) {
        Some(name) => name.as_bytes(),
        None => b"",
    }
}

/// A call site.
pub(crate) fn site_of(statics: &Statics, id: SiteId) -> Option<Site>
    ensures { result ≡ slice_get statics.now.sites id }
{
    match statics.sites().get(id.number() as usize) {
        Some(site) => Some(*site),
        None => None,
    }
}

/// The procedure of a context.
pub(crate) fn proc_at(loaded: &Loaded, node: PdId) -> u32
    ensures { result ≡ proc_at (names_in loaded.now) node }
{
    match loaded.profile().nodes().get(node.number() as usize) {
        Some(proc) => proc.number(),
        None => 0,
    }
}

/// The clique of a context.
pub(crate) fn clique_at(loaded: &Loaded, node: PdId) -> u32
    ensures { result ≡ clique_at (names_in loaded.now) node }
{
    let nodes = loaded.profile().nodes();
    if (node.number() as usize) < nodes.len() {
        loaded.clique_of(node)
    } else {
        0
    }
}

/// Where a link begins.
pub(crate) fn caller_at(loaded: &Loaded, link: CsdId) -> Option<PdId>
    ensures { result ≡ caller_at (names_in loaded.now) link }
{
    match loaded.profile().links().get(link.number() as usize) {
        Some(row) => row.caller,
        None => None,
    }
}

/// The call site of a link.
pub(crate) fn site_at(loaded: &Loaded, link: CsdId) -> u32
    ensures { result ≡ site_at (names_in loaded.now) link }
{
    match loaded.profile().links().get(link.number() as usize) {
        Some(row) => match row.site {
            Some(site) => site.number(),
            None => 0,
        },
        None => 0,
    }
}

/// The context to which a link leads.
pub(crate) fn callee_at(loaded: &Loaded, link: CsdId) -> PdId
    ensures { result ≡ callee_at (names_in loaded.now) link }
{
    match loaded.profile().links().get(link.number() as usize) {
        Some(row) => row.callee,
        None => PdId::new(0),
    }
}
