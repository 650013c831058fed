// The cliques of a profile, and the link that enters each.
ghost use Rattle.std.specs.Prelude.{◌≡◌, ◌<◌, ℕ, All, IfOk, IfErr, IsTrue, length, slice_index, true};
ghost use Rattle.md_trace.specs.Cliques.{AreCliques};
ghost use Rattle.md_clique.specs.Entries.{AreEntries, edges_of};
ghost use Rattle.md_cost.specs.Lists.{AreByStart, end_at};
ghost use Rattle.md_cost.specs.Paths.{ends, leads_up, EntriesRise};
ghost use Rattle.md_cost.specs.Sound.{AreSound};
ghost use Rattle.md_cost.specs.Tree.{IsTree, MayRefuse};

use md_base::NoMemory;
use md_clique::{
    Adjacency, Cliques, EnterFault, Entrances, Layout, listed_cliques, single_cliques,
};
use md_dynamic::LinkRow;
use std::alloc::Global;

/// Cliques with the place of the link that enters each.
#[derive(Drop)]
pub struct Tree {
    pub cliques: Cliques,
    pub entries: Vec<u32>,
}

/// The cliques of so many contexts with these links, which are listed by where they start, and the links that enter them.
pub fn find_tree(
    alloc: Global,
    nodes: u32,
    links: &[LinkRow],
    by_start: &Layout,
) -> Result<Tree, EnterFault>
    requires sound { AreSound nodes links.now }
    requires listed { AreByStart nodes links.now by_start.now }
    ensures tree { IfOk result (λ tree. IsTree nodes links.now tree.cliques tree.entries.items) }
    ensures rise { IfOk result (λ tree. EntriesRise tree.cliques tree.entries.items links.now) }
    ensures none { IfErr result (λ fault. MayRefuse nodes links.now fault) }
{
    let cliques = cliques_of(alloc, nodes, links, by_start)?;
    let entries = entries_of(alloc, nodes, links, &cliques)?;
    Ok(Tree { cliques, entries })
}

/// The cliques of so many contexts with these links. Where no link leads to an older context, as none does in a run
/// without recursion, each context is one by itself.
fn cliques_of(
    alloc: Global,
    nodes: u32,
    links: &[LinkRow],
    by_start: &Layout,
) -> Result<Cliques, NoMemory>
    requires sound { AreSound nodes links.now }
    requires listed { AreByStart nodes links.now by_start.now }
    ensures { IfOk result (λ found. AreCliques nodes (edges_of (ends links.now)) found) }
{
    if lead_up(links) {
        return single_cliques(alloc, nodes);
    }
    let ends = ends_in_order(alloc, links, &by_start.order)?;
    let lists = Adjacency::of_layout(alloc, by_start, ends)?;
    listed_cliques(alloc, nodes, lists)
}

/// Whether no link leads to an older context.
fn lead_up(links: &[LinkRow]) -> bool
    ensures { IsTrue result → All (λ r. leads_up r.caller r.callee ≡ true) links.now }
{
    links.iter().all(|link| leads_up(link))
}

/// Whether a link leads to no older context than the one where it starts, if it starts in one.
fn leads_up(link: &LinkRow) -> bool
    ensures { result ≡ leads_up link.now.caller link.now.callee }
{
    match link.caller {
        Some(caller) => caller.number() <= link.callee.number(),
        None => true,
    }
}

/// The links that enter the cliques of so many contexts.
fn entries_of(
    alloc: Global,
    nodes: u32,
    links: &[LinkRow],
    cliques: &Cliques,
) -> Result<Vec<u32>, EnterFault>
    requires sound { AreSound nodes links.now }
    requires cliques { AreCliques nodes (edges_of (ends links.now)) cliques.now }
    ensures one { IfOk result (λ found. AreEntries cliques.now (ends links.now) found.items) }
    ensures two { IfErr result (λ fault. MayRefuse nodes links.now fault) }
{
    let mut found = Entrances::new(alloc, cliques)?;
    for (place, link) in links.iter().enumerate() {
        found.add(cliques, place as u32, start_of(link), link.callee.number());
    }
    found.into_places()
}

/// Where the links end that stand at these places.
fn ends_in_order(alloc: Global, links: &[LinkRow], order: &[u32]) -> Result<Vec<u32>, NoMemory>
    requires { (p : ℕ) → p < length order.now → slice_index order.now p < length links.now }
    ensures each { IfOk result (λ ends. length ends.items ≡ length order.now) }
    ensures ends { IfOk result (λ ends. (p : ℕ) → p < length order.now → slice_index ends.items p ≡ end_at links.now (slice_index order.now p)) }
{
    let mut ends = Vec::with_capacity(alloc, order.len())?;
    for place in order {
        ends.push(links[*place as usize].callee.number())?;
    }
    Ok(ends)
}

/// Where a link starts, if it does.
fn start_of(link: &LinkRow) -> Option<u32>
    ensures { result ≡ link.now.caller }
{
    match link.caller {
        Some(caller) => Some(caller.number()),
        None => None,
    }
}
