// The cliques of a graph that is given by its links.
ghost use Rattle.std.specs.Prelude.{◌<◌, ◌≤◌, ◌≡◌, ◌^◌, ℕ, List, All, IfOk, IsTrue};
ghost use Rattle.std.specs.List.{range_with_len};
ghost use Rattle.md_trace.specs.Cliques.{AreCliques};
ghost use Rattle.md_clique.specs.Links.{AreLists, links_of};

use crate::adjacency::{Adjacency, list_links};
use crate::clique::Cliques;
use crate::members::{Layout, lay_out};
use crate::numbering::{Numbering, number_classes};
use crate::search::{Classes, find_classes};
use md_base::NoMemory;
use std::alloc::Global;

/// The cliques of the graph of these nodes and links, each link a pair of the node where it starts and the one where
/// it ends: two nodes are in one clique where each reaches the other over zero or more links. Cliques are numbered
/// from 0 in the order of their least nodes. It takes time and memory that grow with nodes and links together: where no
/// link leads to a lower node, each node is a clique by itself; other graphs are searched by paths (Gabow 2000), with a
/// stack of its own.
pub fn cliques(alloc: Global, nodes: u32, links: &[(u32, u32)]) -> Result<Cliques, NoMemory>
    requires { All (λ link. (link.0 < nodes) × (link.1 < nodes)) links.now }
    ensures { IfOk result (λ cliques. AreCliques nodes links.now cliques) }
{
    if lead_up(links) {
        return single_cliques(alloc, nodes);
    }
    let lists = list_links(alloc, nodes, links)?;
    listed_cliques(alloc, nodes, lists)
}

/// The cliques of the graph of these nodes whose links are listed so, numbered from 0 in the order of their least nodes. The
/// lists are given up.
pub fn listed_cliques(alloc: Global, nodes: u32, lists: Adjacency) -> Result<Cliques, NoMemory>
    requires { AreLists nodes lists.starts.items lists.ends.items }
    ensures { IfOk result (λ cliques. AreCliques nodes (links_of nodes lists.starts.items lists.ends.items) cliques) }
{
    let Classes { states, count } = find_classes(alloc, nodes, &lists)?;
    drop(lists);
    let Numbering { numbers, count } = number_classes(alloc, &states, count)?;
    drop(states);
    let Layout { order, starts } = lay_out(alloc, &numbers, count as usize)?;
    Ok(Cliques::from_parts(numbers, count, order, starts))
}

/// The cliques of a graph of so many nodes where no link leads to a lower node: each node is one by itself.
pub fn single_cliques(alloc: Global, nodes: u32) -> Result<Cliques, NoMemory>
    ensures { (links : List (ℕ × ℕ)) → All (λ link. link.0 ≤ link.1) links → IfOk result (λ cliques. AreCliques nodes links cliques) }
{
    let numbers = numbers_below(alloc, nodes as usize)?;
    let order = numbers_below(alloc, nodes as usize)?;
    let starts = numbers_below(alloc, nodes as usize + 1)?;
    Ok(Cliques::from_parts(numbers, nodes, order, starts))
}

/// The numbers below `count`.
fn numbers_below(alloc: Global, count: usize) -> Result<Vec<u32>, NoMemory>
    requires { count ≤ 2 ^ 32 }
    ensures { IfOk result (λ numbers. numbers.items ≡ range_with_len 0 count) }
{
    let mut numbers = Vec::with_capacity(alloc, count)?;
    for number in 0..count {
        numbers.push(number as u32)?;
    }
    Ok(numbers)
}

/// Whether no link leads to a lower node.
fn lead_up(links: &[(u32, u32)]) -> bool
    ensures { IsTrue result → All (λ link. link.0 ≤ link.1) links.now }
{
    links.iter().all(|link| link.0 <= link.1)
}
