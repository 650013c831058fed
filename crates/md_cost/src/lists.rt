// The links by the contexts where they start, and the contexts by their procedures.
ghost use Rattle.std.specs.Prelude.{◌≡◌, ◌<◌, ◌+◌, ◌^◌, ℕ, All, IfOk, IfSome, length, slice_index, unwrap_or};
ghost use Rattle.md_clique.specs.Members.{AreLaidOut};
ghost use Rattle.md_dynamic.specs.Valid.{IsValid};
ghost use Rattle.md_cost.specs.Lists.{AreByStart, starts_of};

use md_base::{NoMemory, PdId};
use md_clique::{Layout, lay_out};
use md_dynamic::{LinkRow, Profile};
use std::alloc::Global;

/// The links of each context that start there, and the contexts of each procedure.
#[derive(Drop)]
pub struct Lists {
    /// By context; past the last one are those that start nowhere.
    pub links: Layout,
    /// By procedure.
    pub contexts: Layout,
}

/// The links of a valid profile, by the contexts where they start.
pub fn list_links(alloc: Global, profile: &Profile) -> Result<Layout, NoMemory>
    requires { IsValid profile.now }
    ensures { IfOk result (λ found. AreByStart (length profile.now.nodes) profile.now.links found) }
{
    let nodes = profile.nodes().len() as u32;
    links_by_start(alloc, profile.links(), nodes)
}

/// The links, by the contexts where they start.
fn links_by_start(alloc: Global, links: &[LinkRow], nodes: u32) -> Result<Layout, NoMemory>
    requires callers { All (λ r. IfSome r.caller (λ c. c < nodes)) links.now }
    requires few { length links.now < 2 ^ 32 }
    ensures { IfOk result (λ found. AreByStart nodes links.now found) }
{
    let mut starts = Vec::with_capacity(alloc, links.len())?;
    for link in links {
        starts.push(start_of(link.caller, nodes))?;
    }
    lay_out(alloc, &starts, nodes as usize + 1)
}

/// Where a link starts, or the number past the last context.
fn start_of(caller: Option<PdId>, nodes: u32) -> u32
    ensures { result ≡ unwrap_or caller nodes }
{
    match caller {
        Some(caller) => caller.number(),
        None => nodes,
    }
}

/// The contexts of a valid profile, by their procedures.
pub fn contexts_by_procedure(alloc: Global, profile: &Profile) -> Result<Layout, NoMemory>
    requires { IsValid profile.now }
    ensures laid { IfOk result (λ found. AreLaidOut profile.now.nodes found.order.items found.starts.items (length profile.now.statics.procs)) }
    ensures each { IfOk result (λ found. length found.starts.items ≡ length profile.now.statics.procs + 1) }
{
    let nodes = profile.nodes();
    let mut procedures = Vec::with_capacity(alloc, nodes.len())?;
    for node in nodes {
        procedures.push(node.number())?;
    }
    lay_out(alloc, &procedures, profile.statics().procs().len())
}
