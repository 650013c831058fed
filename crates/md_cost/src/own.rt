// Own counts of contexts: those of the links that lead there.
ghost use Rattle.std.specs.Prelude.{◌≡◌, ◌<◌, ◌^◌, ℕ, List, IfOk, length};
ghost use Rattle.md_cost.specs.Climbing.{AreOwn, AreSmall};
ghost use Rattle.md_cost.specs.Incoming.{AreIncoming};

use crate::Sums;
use crate::incoming::{Incoming, own_sum};
use md_base::NoMemory;
use md_dynamic::LinkRow;
use std::alloc::Global;

/// The own counts of each of so many contexts.
#[inline(never)]
pub fn own_sums(
    alloc: Global,
    nodes: u32,
    incoming: &Incoming,
    links: &[LinkRow],
) -> Result<Vec<Sums>, NoMemory>
    requires nodes { nodes ≡ length incoming.now.last.items }
    requires incoming { AreIncoming (length incoming.now.last.items) links.now incoming.now.last.items incoming.now.before.items }
    requires few { length links.now < 2 ^ 32 }
    requires small { AreSmall links.now }
    ensures { (cliques : List ℕ) → length cliques ≡ nodes → IfOk result (λ own. AreOwn cliques links.now own.items) }
{
    let mut sums = Vec::with_capacity(alloc, nodes as usize)?;
    for node in 0..nodes {
        sums.push(own_sum(incoming, links, node))?;
    }
    Ok(sums)
}
