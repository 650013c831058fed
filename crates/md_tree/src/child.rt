// The children of all cliques.
ghost use Rattle.std.specs.Prelude.{◌≡◌, ◌<◌, ◌-◌, ◌^◌, All, IfOk, map};
ghost use Rattle.std.specs.List.{range_with_len};
ghost use Rattle.md_clique.specs.Cliques.{clique_count};
ghost use Rattle.md_cost.specs.FileView.{IsFileView};
ghost use Rattle.md_cost.specs.View.{View};
ghost use Rattle.md_people.specs.Tree.{clique_total, parent_of};
ghost use Rattle.md_tree.specs.Children.{AreChildren, AreChildrenOf};

use md_base::{Measure, NoMemory};
use md_cost::Loaded;
use md_people::entered_from;
use std::alloc::Global;
use std::cmp::Reverse;

/// The parent of a clique, its total, before which a greater one stands, and the clique.
pub(crate) type Child = (u32, Reverse<u64>, u32);

/// The children of all cliques by their parents, and those of one parent in the order of the tree.
pub(crate) fn children_of(
    alloc: Global,
    loaded: &Loaded,
    by: Measure,
) -> Result<Vec<Child>, NoMemory>
    ensures children { IfOk result (λ children. AreChildren (clique_count loaded.now.cliques) children.items) }
    ensures view { IfOk result (λ children. (v : View) → IsFileView loaded.now.profile v → AreChildrenOf v by children.items) }
{
    // it is valid and has a tree, which `profile` says
    let _profile = loaded.profile();
    let mut children = counted(alloc, loaded, by)?;
    children.sort_unstable();
    Ok(children)
}

/// Each clique but clique 0 with its parent and its total.
fn counted(alloc: Global, loaded: &Loaded, by: Measure) -> Result<Vec<Child>, NoMemory>
    ensures few { clique_count loaded.now.cliques < 2 ^ 32 }
    ensures cliques { IfOk result (λ children. map (λ c. c.2) children.items ≡ range_with_len 1 (clique_count loaded.now.cliques - 1)) }
    ensures lower { IfOk result (λ children. All (λ c. (c.0 < c.2) × (c.2 < clique_count loaded.now.cliques)) children.items) }
    ensures view { IfOk result (λ children. (v : View) → IsFileView loaded.now.profile v → All (λ c. (c.0 ≡ parent_of v c.2) × (c.1.0 ≡ clique_total v by c.2)) children.items) }
{
    // it is valid and has a tree, which `profile` says
    let _profile = loaded.profile();
    let mut children = Vec::new(alloc);
    for clique in 1..loaded.clique_count() {
        let parent = parent_of(loaded, clique);
        let total = loaded.clique_total(clique).of(by);
        children.push((parent, Reverse(total), clique))?;
    }
    Ok(children)
}

/// The clique of the start of the link that enters a clique.
fn parent_of(loaded: &Loaded, clique: u32) -> u32
    requires some { 0 < clique }
    requires there { clique < clique_count loaded.now.cliques }
    ensures lower { result < clique }
    ensures view { (v : View) → IsFileView loaded.now.profile v → result ≡ parent_of v clique }
{
    // it is valid and has a tree, which `profile` says
    let _profile = loaded.profile();
    loaded.clique_of(entered_from(loaded, clique))
}
