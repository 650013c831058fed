// Graphs that are made: links that a line has, links at random, rings and paths.
ghost use Rattle.std.specs.Prelude.{◌<◌, All, IfOk};

use std::alloc::{AllocError, Global};

/// The links of a line, as in `0-1 1-2`, between so many nodes.
pub fn links_in(alloc: Global, text: &str, nodes: u32) -> Result<Vec<(u32, u32)>, AllocError>
    ensures { IfOk result (λ links. All (λ link. (link.0 < nodes) × (link.1 < nodes)) links.items) }
{
    let mut links = Vec::new(alloc);
    for word in text.split(' ') {
        let (from, to) = ends(word);
        if from < nodes && to < nodes {
            links.push((from, to))?;
        }
    }
    Ok(links)
}

/// The two numbers of a word such as `0-1`, each of them the greatest one where there is none.
fn ends(word: &str) -> (u32, u32) {
    match word.split_once('-') {
        Some((from, to)) => (node(from), node(to)),
        None => (u32::MAX, u32::MAX),
    }
}

fn node(word: &str) -> u32 {
    match word.parse() {
        Ok(node) => node,
        Err(_) => u32::MAX,
    }
}

/// The links of a graph of four nodes: one bit for each pair of nodes.
pub fn small_graph(alloc: Global, bits: u32) -> Result<Vec<(u32, u32)>, AllocError>
    ensures { IfOk result (λ links. All (λ link. (link.0 < 4) × (link.1 < 4)) links.items) }
{
    let mut links = Vec::new(alloc);
    for from in 0..4 {
        for to in 0..4 {
            if bits >> (4 * from + to) & 1 == 1 {
                links.push((from, to))?;
            }
        }
    }
    Ok(links)
}

/// The links of a graph by its shape: `random` with so many links, `ring`, `path`, and none for any other.
pub fn links_of(
    alloc: Global,
    shape: &str,
    nodes: u32,
    count: u32,
) -> Result<Vec<(u32, u32)>, AllocError>
    requires { 0 < nodes }
    ensures { IfOk result (λ links. All (λ link. (link.0 < nodes) × (link.1 < nodes)) links.items) }
{
    match shape {
        "random" => random(alloc, nodes, count),
        "ring" => ring(alloc, nodes),
        "path" => path(alloc, nodes),
        _ => Ok(Vec::new(alloc)),
    }
}

/// So many links at random, from a fixed seed.
fn random(alloc: Global, nodes: u32, count: u32) -> Result<Vec<(u32, u32)>, AllocError>
    requires { 0 < nodes }
    ensures { IfOk result (λ links. All (λ link. (link.0 < nodes) × (link.1 < nodes)) links.items) }
{
    let mut links = Vec::with_capacity(alloc, count as usize)?;
    let mut state = 7u32;
    for _ in 0..count {
        state = following(state);
        let from = drawn(state, nodes);
        state = following(state);
        links.push((from, drawn(state, nodes)))?;
    }
    Ok(links)
}

/// The next state of a linear congruential generator.
fn following(state: u32) -> u32 {
    state.wrapping_mul(1_664_525).wrapping_add(1_013_904_223)
}

/// The node that a state draws.
fn drawn(state: u32, nodes: u32) -> u32
    requires { 0 < nodes }
    ensures { result < nodes }
{
    (state >> 8) % nodes
}

/// Each node has a link to the next one, and the last one to the first.
fn ring(alloc: Global, nodes: u32) -> Result<Vec<(u32, u32)>, AllocError>
    ensures { IfOk result (λ links. All (λ link. (link.0 < nodes) × (link.1 < nodes)) links.items) }
{
    let mut links = Vec::with_capacity(alloc, nodes as usize)?;
    for node in 0..nodes {
        let next = if node + 1 < nodes { node + 1 } else { 0 };
        links.push((node, next))?;
    }
    Ok(links)
}

/// Each node but the last one has a link to the next.
fn path(alloc: Global, nodes: u32) -> Result<Vec<(u32, u32)>, AllocError>
    ensures { IfOk result (λ links. All (λ link. (link.0 < nodes) × (link.1 < nodes)) links.items) }
{
    let mut links = Vec::with_capacity(alloc, nodes as usize)?;
    for node in 1..nodes {
        links.push((node - 1, node))?;
    }
    Ok(links)
}
