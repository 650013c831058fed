// The links that lead to each context, and its own counts, which are those of these links.
ghost use Rattle.std.specs.Prelude.{◌≡◌, ◌<◌, ◌^◌, All, IfOk, length};
ghost use Rattle.md_base.specs.declared.measure.Measure.{Measure};
ghost use Rattle.md_cost.specs.Climbing.{AreSmall};
ghost use Rattle.md_cost.specs.Incoming.{AreIncoming};
ghost use Rattle.md_cost.specs.SumOf.{sum_of};
ghost use Rattle.md_cost.specs.Totals.{context_own};

use crate::Sums;
use md_base::NoMemory;
use md_dynamic::LinkRow;
use std::alloc::Global;

/// The links that lead to each context. A bound is one more than the place of a link, or 0 where there is no such link.
#[derive(Drop)]
pub struct Incoming {
    /// For each context a bound on the links that lead to it: the last of them is right below.
    pub last: Vec<u32>,
    /// For each link a bound on the links before it that lead where it leads.
    pub before: Vec<u32>,
}

/// Threads the links that lead to each of so many contexts, in one pass.
pub fn thread_incoming(alloc: Global, nodes: u32, links: &[LinkRow]) -> Result<Incoming, NoMemory>
    requires ends { All (λ link. link.callee < nodes) links.now }
    requires few { length links.now < 2 ^ 32 }
    ensures { IfOk result (λ incoming. AreIncoming nodes links.now incoming.last.items incoming.before.items) }
{
    let mut before = Vec::with_capacity(alloc, links.len())?;
    let mut last = vec![in alloc; 0u32; nodes as usize]?;
    for (place, link) in links.iter().enumerate() {
        let callee = link.callee.number() as usize;
        before.push(last[callee])?;
        last[callee] = place as u32 + 1;
    }
    Ok(Incoming { last, before })
}

/// The own counts of a context, added up over the links that lead to it. Takes no memory.
pub fn own_sum(incoming: &Incoming, links: &[LinkRow], node: u32) -> Sums
    requires there { node < length incoming.now.last.items }
    requires incoming { AreIncoming (length incoming.now.last.items) links.now incoming.now.last.items incoming.now.before.items }
    requires few { length links.now < 2 ^ 32 }
    requires small { AreSmall links.now }
    ensures { (m : Measure) → sum_of result m ≡ context_own links.now node m }
{
    let mut sum = Sums::ZERO;
    let mut bound = incoming.last[node as usize];
    while bound > 0 {
        let place = bound as usize - 1;
        sum = sum.plus(Sums::from_counts(links[place].own));
        bound = incoming.before[place];
    }
    sum
}
