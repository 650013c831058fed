// Graphs of a given shape and size.
ghost use Rattle.std.specs.Prelude.{◌<◌, All, IfOk};

use std::alloc::{AllocError, Global};

/// How the links of a graph lie.
#[derive(Clone, Copy, Debug)]
pub enum Shape {
    /// From a node drawn at random to another.
    Random,
    /// From each node to the next one, round and round, but for the link that would close the ring.
    Path,
    /// From each node to the next one, and from the last to the first, round and round.
    Cycle,
    /// All from node 0 to the last one.
    Parallel,
    /// From each node to itself, round and round.
    Selves,
}

impl Shape {
    /// The shape of this name, if there is one.
    pub fn named(name: &str) -> Option<Shape> {
        match name {
            "random" => Some(Shape::Random),
            "path" => Some(Shape::Path),
            "cycle" => Some(Shape::Cycle),
            "parallel" => Some(Shape::Parallel),
            "selves" => Some(Shape::Selves),
            _ => None,
        }
    }
}

/// So many links of this shape between so many nodes, each a pair of the node where it starts and the one where it
/// ends.
pub fn links_of(
    alloc: Global,
    shape: Shape,
    nodes: u32,
    count: u32,
) -> Result<Vec<(u32, u32)>, AllocError>
    requires { 0 < nodes }
    ensures { IfOk result (λ links. All (λ link. (link.0 < nodes) × (link.1 < nodes)) links.items) }
{
    let mut links = Vec::with_capacity(alloc, count as usize)?;
    let mut state = 1;
    for place in 0..count {
        state = following(state);
        let at = place % nodes;
        let next = if at + 1 < nodes { at + 1 } else { 0 };
        let link = match shape {
            Shape::Random => {
                let from = drawn(state, nodes);
                state = following(state);
                (from, drawn(state, nodes))
            }
            Shape::Path => (at, if next == 0 { at } else { next }),
            Shape::Cycle => (at, next),
            Shape::Parallel => (0, nodes - 1),
            Shape::Selves => (at, at),
        };
        links.push(link)?;
    }
    Ok(links)
}

/// The next state of a linear congruential generator (Knuth, *The Art of Computer Programming*, volume 2, section 3.3.4).
fn following(state: u64) -> u64 {
    state
        .wrapping_mul(6_364_136_223_846_793_005)
        .wrapping_add(1_442_695_040_888_963_407)
}

/// The node that a state of the generator draws.
fn drawn(state: u64, nodes: u32) -> u32
    requires { 0 < nodes }
    ensures { result < nodes }
{
    ((state >> 33) % nodes as u64) as u32
}
