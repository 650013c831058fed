// The table of the cliques as a tree.
ghost use Rattle.std.specs.Prelude.{◌≡◌, ◌<◌, ◌+◌, ◌++◌, All, IfOk, OnOk};
ghost use Rattle.md_clique.specs.Cliques.{clique_count};
ghost use Rattle.md_cost.specs.FileView.{IsFileView};
ghost use Rattle.md_cost.specs.View.{View};
ghost use Rattle.md_people.specs.Counts.{whole_of};
ghost use Rattle.md_people.specs.Tree.{rows_from, tree_table};
ghost use Rattle.md_tree.specs.Branches.{IsBranch, branch_rows, open_rows, open_work};
ghost use Rattle.md_tree.specs.Children.{AreChildren, AreChildrenOf};
ghost use Rattle.md_tree.specs.Rests.{rest_work};

use crate::branch::{Branch, branch_below, past_hidden, past_shown};
use crate::child::{Child, children_of};
use crate::rest::next_child;
use crate::row::{is_shown, push_clique, push_heading, push_more};
use crate::scale::{Scale, scale_of};
use md_base::{Measure, NoMemory};
use md_cost::Loaded;
use md_table::{Lines, Table};
use std::alloc::Global;

/// The table of the cliques as a tree: depth first, with a row for clique 0, for each other clique whose total is at least so many
/// thousandths of the whole and, unless all are asked for by 0, at least 1, and behind the rows of a clique's children one for those
/// that have none. Takes O(C log C) steps for C cliques, beside one for each context, each link and each byte of the rows, and a stack
/// of its own, however deep the tree.
pub fn tree_table(
    alloc: Global,
    loaded: &Loaded,
    by: Measure,
    least: u32,
) -> Result<Table, NoMemory>
    ensures { IfOk result (λ table. (v : View) → IsFileView loaded.now.profile v → table ≡ tree_table v by least) }
{
    let children = children_of(alloc, loaded, by)?;
    let mut rows = Lines::new(alloc);
    push_heading(&mut rows)?;
    push_rows(
        alloc,
        &mut rows,
        loaded,
        scale_of(loaded, by, least),
        &children,
    )?;
    Ok(Table::from_lines(rows))
}

/// Adds the rows of the tree.
fn push_rows(
    alloc: Global,
    rows: &mut Lines,
    loaded: &Loaded,
    scale: Scale,
    children: &[Child],
) -> Result<(), NoMemory>
    requires whole { (v : View) → IsFileView loaded.now.profile v → scale.whole ≡ whole_of v scale.by }
    requires children { AreChildren (clique_count loaded.now.cliques) children.now }
    requires view { (v : View) → IsFileView loaded.now.profile v → AreChildrenOf v scale.by children.now }
    ensures { (v : View) → IsFileView loaded.now.profile v → OnOk result (rows.new.ended ≡ rows.old.ended ++ rows_from v scale.by scale.least (clique_count v.cliques) 0 0) }
{
    // it is valid and has a tree, which `profile` says
    let _profile = loaded.profile();
    let mut branches = Vec::new(alloc);
    let mut words = Vec::new(alloc);
    push_clique(rows, &mut words, loaded, scale, 0, 0)?;
    branches.push(branch_below(children, 0, 1))?;
    while let Some(branch) = branches.pop() {
        go_on(
            rows,
            &mut words,
            &mut branches,
            loaded,
            scale,
            children,
            branch,
        )?;
    }
    Ok(())
}

/// Goes on in a branch: by the row of its next child and a branch below that, past a child that has no row, or by the row of those that
/// have none.
fn go_on(
    rows: &mut Lines,
    words: &mut Vec<u8>,
    branches: &mut Vec<Branch>,
    loaded: &Loaded,
    scale: Scale,
    children: &[Child],
    branch: Branch,
) -> Result<(), NoMemory>
    requires whole { (v : View) → IsFileView loaded.now.profile v → scale.whole ≡ whole_of v scale.by }
    requires children { AreChildren (clique_count loaded.now.cliques) children.now }
    requires view { (v : View) → IsFileView loaded.now.profile v → AreChildrenOf v scale.by children.now }
    requires branch { IsBranch (clique_count loaded.now.cliques) children.now branch }
    requires branches { All (IsBranch (clique_count loaded.now.cliques) children.now) branches.old.items }
    ensures rows { (v : View) → IsFileView loaded.now.profile v → OnOk result (rows.new.ended ++ open_rows v scale.by scale.least children.now branches.new.items ≡ rows.old.ended ++ (branch_rows v scale.by scale.least children.now branch ++ open_rows v scale.by scale.least children.now branches.old.items)) }
    ensures branches { OnOk result (All (IsBranch (clique_count loaded.now.cliques) children.now) branches.new.items) }
    ensures work { OnOk result (open_work children.now (clique_count loaded.now.cliques) branches.new.items < rest_work children.now (clique_count loaded.now.cliques) branch.rest + open_work children.now (clique_count loaded.now.cliques) branches.old.items) }
{
    // it is valid and has a tree, which `profile` says
    let _profile = loaded.profile();
    let Some((_parent, total, clique)) = next_child(children, branch.rest) else {
        return push_more(rows, words, scale, branch.level, branch.hidden, branch.sum);
    };
    if is_shown(scale, total.0) {
        push_clique(rows, words, loaded, scale, branch.level, clique)?;
        branches.push(past_shown(branch))?;
        branches.push(branch_below(children, clique, branch.level + 1))?;
    } else {
        branches.push(past_hidden(branch, total.0))?;
    }
    Ok(())
}
