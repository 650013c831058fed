// Loading a profile.
ghost use Rattle.std.specs.Prelude.{◌≡◌, ◌+◌, IfOk, IfErr, length};
ghost use Rattle.md_dynamic.specs.Valid.{IsValid};
ghost use Rattle.md_cost.specs.Costs.{AreCosts};
ghost use Rattle.md_clique.specs.Members.{AreLaidOut};
ghost use Rattle.md_cost.specs.Lists.{AreByStart};
ghost use Rattle.md_cost.specs.Loading.{IsLoadedOf};
ghost use Rattle.md_cost.specs.Tree.{IsTree, MayRefuse};

use crate::costs::{Costs, sum_costs};
use crate::lists::{Lists, contexts_by_procedure, list_links};
use crate::loaded::Loaded;
use crate::outermost::find_outermost;
use crate::tree::{Tree, find_tree};
use md_clique::{EnterFault, Layout};
use md_dynamic::Profile;
use std::alloc::Global;

/// Why a profile has no totals: a clique is entered by two links, or memory was refused.
pub type CostFault = EnterFault;

/// Loads a valid profile: finds its cliques and the links that enter them, and sums its counts, in time and memory
/// linear in its contexts, links, procedures, modules and call sites. The profile is given up on a fault. The answer is
/// `TwoEntries` exactly where some clique is entered by two links; it names the lowest such clique and the first two
/// links that enter it.
pub fn propagate(alloc: Global, profile: Profile) -> Result<Loaded, CostFault>
    requires { IsValid profile }
    ensures loaded { IfOk result (λ loaded. IsLoadedOf profile loaded) }
    ensures two { IfErr result (λ fault. MayRefuse (length profile.nodes) profile.links fault) }
{
    let links = list_links(alloc, &profile)?;
    let (tree, costs, contexts) = tree_and_costs(alloc, &profile, &links)?;
    Ok(Loaded::from_parts(profile, tree, costs, Lists { links, contexts }))
}

/// The cliques of a valid profile with the links that enter them, its sums, and its contexts by their procedures. The links
/// are listed by where they start. The walk for outermost contexts comes first, so that what it gives back is there for the
/// vectors that stay.
fn tree_and_costs(
    alloc: Global,
    profile: &Profile,
    by_start: &Layout,
) -> Result<(Tree, Costs, Layout), CostFault>
    requires valid { IsValid profile.now }
    requires listed { AreByStart (length profile.now.nodes) profile.now.links by_start.now }
    ensures tree { IfOk result (λ found. IsTree (length profile.now.nodes) profile.now.links found.0.cliques found.0.entries.items) }
    ensures costs { IfOk result (λ found. AreCosts profile.now found.0.cliques found.0.entries.items found.1) }
    ensures contexts { IfOk result (λ found. AreLaidOut profile.now.nodes found.2.order.items found.2.starts.items (length profile.now.statics.procs)) }
    ensures context_starts { IfOk result (λ found. length found.2.starts.items ≡ length profile.now.statics.procs + 1) }
    ensures two { IfErr result (λ fault. MayRefuse (length profile.now.nodes) profile.now.links fault) }
{
    let nodes = profile.nodes().len() as u32;
    let tree = find_tree(alloc, nodes, profile.links(), by_start)?;
    let outermost = find_outermost(alloc, profile, &tree)?;
    let contexts = contexts_by_procedure(alloc, profile)?;
    let costs = sum_costs(alloc, profile, &tree, &outermost)?;
    Ok((tree, costs, contexts))
}
