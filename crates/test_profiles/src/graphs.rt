// The cliques of graphs.
ghost use Rattle.std.specs.Prelude.{◌≡◌, length};

use crate::lines::{add_line, small_number};
use crate::shapes::{links_in, links_of, small_graph};
use md_base::NoMemory;
use md_clique::{Cliques, cliques};
use std::alloc::{AllocError, Global};
use test_cases::Case;

/// The members of each clique of a graph, which has so many `nodes` and these `links`.
pub fn graph(alloc: Global, case: &Case, out: &mut String) -> Result<(), AllocError> {
    let nodes = small_number(case.text("nodes"));
    let links = links_in(alloc, case.text("links"), nodes)?;
    match cliques(alloc, nodes, &links) {
        Ok(found) => add_members(alloc, &found, out),
        Err(NoMemory) => add_line(out, "want of memory"),
    }
}

/// Adds a line for each clique, with its members.
fn add_members(alloc: Global, found: &Cliques, out: &mut String) -> Result<(), AllocError> {
    for clique in 0..found.count() {
        out.push_str(format!(in alloc; "clique {clique}:")?.as_str())?;
        add_nodes(alloc, found.members(clique), out)?;
        add_line(out, "")?;
    }
    Ok(())
}

/// Adds these nodes, a space before each.
fn add_nodes(alloc: Global, nodes: &[u32], out: &mut String) -> Result<(), AllocError> {
    for node in nodes {
        out.push_str(format!(in alloc; " {node}")?.as_str())?;
    }
    Ok(())
}

/// How many of all graphs of four nodes have so many cliques, and a number that tells the cliques of all of them apart from
/// most others.
pub fn small_graphs(alloc: Global, out: &mut String) -> Result<(), AllocError> {
    let mut graphs = [0u32; 5];
    let mut sum = 0u32;
    for bits in 0..65_536 {
        let links = small_graph(alloc, bits)?;
        let Ok(found) = cliques(alloc, 4, &links) else {
            return add_line(out, "want of memory");
        };
        let count = (found.count() as usize).min(4);
        graphs[count] = graphs[count].wrapping_add(1);
        sum = digest(sum, &found, 4);
    }
    add_counts(alloc, &graphs, out)?;
    add_line(out, format!(in alloc; "digest {sum}")?.as_str())
}

/// Adds how many graphs have so many cliques, for each number of cliques from 1.
fn add_counts(alloc: Global, graphs: &[u32], out: &mut String) -> Result<(), AllocError> {
    for (cliques, count) in graphs.iter().enumerate().skip(1) {
        add_line(out, format!(in alloc; "{count} have {cliques}")?.as_str())?;
    }
    Ok(())
}

/// A number that goes on from another by the clique of each node.
fn digest(start: u32, found: &Cliques, nodes: u32) -> u32
    requires { nodes ≡ length found.now }
{
    let mut sum = start;
    for node in 0..nodes {
        sum = sum.wrapping_mul(31).wrapping_add(found.of(node));
    }
    sum
}

/// The cliques of a graph of a `shape`, which has so many `nodes` and, if they lie at random, so many links: their number, how
/// many members the first one has, the clique of the last node, and a number that tells the cliques of all nodes apart from
/// most others.
pub fn shape(alloc: Global, case: &Case, out: &mut String) -> Result<(), AllocError> {
    let nodes = small_number(case.text("nodes"));
    if nodes == 0 {
        return add_line(out, "no nodes");
    }
    let count = small_number(case.text("count"));
    let links = links_of(alloc, case.text("shape"), nodes, count)?;
    let Ok(found) = cliques(alloc, nodes, &links) else {
        return add_line(out, "want of memory");
    };
    let last = found.of(nodes - 1);
    let sum = digest(0, &found, nodes);
    let members = members_of_first(&found);
    let count = found.count();
    let line = format!(in alloc;
        "cliques {count}, members of the first {members}, last {last}, digest {sum}"
    )?;
    add_line(out, line.as_str())
}

fn members_of_first(found: &Cliques) -> usize {
    if found.count() == 0 {
        return 0;
    }
    found.members(0).len()
}
