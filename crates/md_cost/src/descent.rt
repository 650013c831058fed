// The tree of contexts: what is above each on its path, and the contexts right below each.
ghost use Rattle.std.specs.Prelude.{◌≡◌, ◌<◌, ◌≤◌, IfOk, length, map};
ghost use Rattle.md_clique.specs.Cliques.{clique_count};
ghost use Rattle.md_cost.specs.Paths.{EntriesRise, start_of};
ghost use Rattle.md_cost.specs.Walking.{AreThreaded, AreUps, above, at_bound};

use crate::totals::start_of_entry;
use crate::tree::Tree;
use md_base::NoMemory;
use md_dynamic::LinkRow;
use std::alloc::Global;

/// The contexts right below each, threaded, and what is right above each. Below the number past the last context are
/// those of clique 0. A bound is one more than a context's number, or 0 where there is no such context.
#[derive(Drop)]
pub struct Children {
    /// For each context a bound of the first one below it.
    pub first: Vec<u32>,
    /// For each context a bound of the next one below the same.
    pub next: Vec<u32>,
    /// What is right above each context.
    pub up: Vec<u32>,
}

/// The contexts right below each of so many contexts, and what is right above each.
#[inline(never)]
pub fn descend(
    alloc: Global,
    tree: &Tree,
    links: &[LinkRow],
    nodes: u32,
) -> Result<Children, NoMemory>
    requires nodes { nodes ≡ length tree.now.cliques }
    requires entries { length tree.now.entries.items ≡ clique_count tree.now.cliques }
    requires rise { EntriesRise tree.now.cliques tree.now.entries.items links.now }
    ensures threads { IfOk result (λ found. AreThreaded nodes (above tree.now.cliques (start_of links.now tree.now.entries.items)) (map at_bound found.first.items) (map at_bound found.next.items)) }
    ensures up { IfOk result (λ found. AreUps nodes (above tree.now.cliques (start_of links.now tree.now.entries.items)) found.up.items) }
{
    let mut first = vec![in alloc; 0u32; nodes as usize + 1]?;
    let mut next = vec![in alloc; 0u32; nodes as usize]?;
    let mut up = vec![in alloc; 0u32; nodes as usize]?;
    for node in (0..nodes).rev() {
        let parent = above(tree, links, nodes, node);
        up[node as usize] = parent;
        next[node as usize] = first[parent as usize];
        first[parent as usize] = node + 1;
    }
    Ok(Children { first, next, up })
}

/// The context of which this is a bound, if there is one.
pub fn below(bound: u32) -> Option<u32>
    ensures { result ≡ at_bound bound }
{
    if bound == 0 { None } else { Some(bound - 1) }
}

/// What is right above a context on its path: where the link that enters its clique starts. Above a context of clique 0
/// is the number past the last context.
pub fn above(tree: &Tree, links: &[LinkRow], nodes: u32, node: u32) -> u32
    requires nodes { nodes ≡ length tree.now.cliques }
    requires entries { length tree.now.entries.items ≡ clique_count tree.now.cliques }
    requires rise { EntriesRise tree.now.cliques tree.now.entries.items links.now }
    requires there { node < nodes }
    ensures is { result ≡ above tree.now.cliques (start_of links.now tree.now.entries.items) node }
    ensures within { result ≤ nodes }
{
    let clique = tree.cliques.of(node);
    if clique == 0 {
        nodes
    } else {
        start_of_entry(&tree.entries, links, clique)
    }
}
