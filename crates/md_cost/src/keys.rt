// The keys by which counts are summed: procedures, their modules, and call sites.
ghost use Rattle.std.specs.Prelude.{◌≡◌, ◌<◌, length};
ghost use Rattle.md_dynamic.specs.Valid.{IsValid};
ghost use Rattle.md_cost.specs.FileView.{module_at, procedure_at, site_above};
ghost use Rattle.md_cost.specs.Tree.{IsTree};

use crate::tree::Tree;
use md_base::SiteId;
use md_dynamic::Profile;

/// The keys of a context or link, one of each kind, where it has them.
#[derive(Clone, Copy)]
pub struct Keys {
    pub procedures: Option<u32>,
    pub modules: Option<u32>,
    pub sites: Option<u32>,
}

/// The keys of a context: its procedure, the module of that, and the call site at which its clique is entered.
pub fn keys_of(profile: &Profile, tree: &Tree, node: u32) -> Keys
    requires valid { IsValid profile.now }
    requires tree { IsTree (length profile.now.nodes) profile.now.links tree.now.cliques tree.now.entries.items }
    requires there { node < length profile.now.nodes }
    ensures procedures { result.procedures ≡ procedure_at profile.now node }
    ensures modules { result.modules ≡ module_at profile.now node }
    ensures sites { result.sites ≡ site_above profile.now tree.now.cliques tree.now.entries.items node }
{
    Keys {
        procedures: procedure_of(profile, node),
        modules: module_of(profile, node),
        sites: site_of_entry(profile, tree, node),
    }
}

/// The procedure of a context.
pub fn procedure_of(profile: &Profile, node: u32) -> Option<u32>
    requires { node < length profile.now.nodes }
    ensures { result ≡ procedure_at profile.now node }
{
    let nodes = profile.nodes();
    Some(nodes[node as usize].number())
}

/// The module of a context's procedure.
pub fn module_of(profile: &Profile, node: u32) -> Option<u32>
    requires valid { IsValid profile.now }
    requires there { node < length profile.now.nodes }
    ensures { result ≡ module_at profile.now node }
{
    let nodes = profile.nodes();
    let procs = profile.statics().procs();
    Some(procs[nodes[node as usize].number() as usize].module)
}

/// The call site at which the clique of a context is entered, if it has one.
fn site_of_entry(profile: &Profile, tree: &Tree, node: u32) -> Option<u32>
    requires tree { IsTree (length profile.now.nodes) profile.now.links tree.now.cliques tree.now.entries.items }
    requires there { node < length profile.now.nodes }
    ensures { result ≡ site_above profile.now tree.now.cliques tree.now.entries.items node }
{
    let entry = tree.entries[tree.cliques.of(node) as usize];
    let links = profile.links();
    number_of(links[entry as usize].site)
}

/// The number of a call site, where there is one.
pub fn number_of(site: Option<SiteId>) -> Option<u32>
    ensures { result ≡ site }
{
    match site {
        Some(site) => Some(site.number()),
        None => None,
    }
}
