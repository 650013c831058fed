// The sums of a profile: own counts and totals of each kind of row.
ghost use Rattle.std.specs.Prelude.{IfOk, length};
ghost use Rattle.md_dynamic.specs.Valid.{IsValid};
ghost use Rattle.md_cost.specs.Climbing.{AreSmall, AreTotals};
ghost use Rattle.md_cost.specs.Costs.{AreCosts};
ghost use Rattle.md_cost.specs.Incoming.{AreIncoming};
ghost use Rattle.md_cost.specs.Outermost.{AreOutermost};
ghost use Rattle.md_cost.specs.Paths.{EntriesRise};
ghost use Rattle.md_cost.specs.Tree.{IsTree};

use crate::Sums;
use crate::incoming::{Incoming, thread_incoming};
use crate::kinds::{Kinds, own_by_kind, totals_by_kind};
use crate::outermost::Outermost;
use crate::own::own_sums;
use crate::totals::climb;
use crate::tree::Tree;
use md_base::NoMemory;
use md_dynamic::Profile;
use std::alloc::Global;

/// The links that lead to each context, the totals of contexts, and own counts and totals of procedures, modules and call
/// sites.
#[derive(Drop)]
pub struct Costs {
    pub incoming: Incoming,
    pub contexts: Vec<Sums>,
    pub own: Kinds,
    pub totals: Kinds,
}

/// Sums the counts of a valid profile, whose cliques are each entered by one link, in time and memory linear in
/// contexts, links, procedures, modules and call sites. The outermost contexts tell what counts for which total.
pub fn sum_costs(
    alloc: Global,
    profile: &Profile,
    tree: &Tree,
    outermost: &Outermost,
) -> Result<Costs, NoMemory>
    requires valid { IsValid profile.now }
    requires tree { IsTree (length profile.now.nodes) profile.now.links tree.now.cliques tree.now.entries.items }
    requires rise { EntriesRise tree.now.cliques tree.now.entries.items profile.now.links }
    requires outermost { AreOutermost profile.now tree.now.cliques tree.now.entries.items outermost.now }
    ensures { IfOk result (λ costs. AreCosts profile.now tree.now.cliques tree.now.entries.items costs) }
{
    let nodes = profile.nodes().len() as u32;
    // Each pass is a function that isn't put inline, so that where its vectors begin stays in registers.
    let own = own_by_kind(alloc, profile)?;
    let incoming = thread_incoming(alloc, nodes, profile.links())?;
    let contexts = context_totals(alloc, profile, tree, &incoming)?;
    let totals = totals_by_kind(alloc, profile, tree, outermost, &contexts)?;
    Ok(Costs {
        incoming,
        contexts,
        own,
        totals,
    })
}

/// The totals of contexts, which begin as own counts.
fn context_totals(
    alloc: Global,
    profile: &Profile,
    tree: &Tree,
    incoming: &Incoming,
) -> Result<Vec<Sums>, NoMemory>
    requires valid { IsValid profile.now }
    requires tree { IsTree (length profile.now.nodes) profile.now.links tree.now.cliques tree.now.entries.items }
    requires rise { EntriesRise tree.now.cliques tree.now.entries.items profile.now.links }
    requires incoming { AreIncoming (length profile.now.nodes) profile.now.links incoming.now.last.items incoming.now.before.items }
    requires small { AreSmall profile.now.links }
    ensures { IfOk result (λ sums. AreTotals tree.now.cliques tree.now.entries.items profile.now.links sums.items) }
{
    let nodes = profile.nodes().len() as u32;
    let mut totals = own_sums(alloc, nodes, incoming, profile.links())?;
    climb(&tree.cliques, &tree.entries, profile.links(), &mut totals);
    Ok(totals)
}
