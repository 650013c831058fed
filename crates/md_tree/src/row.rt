// The rows of the tree.
ghost use Rattle.std.specs.Prelude.{◌≡◌, ◌<◌, ◌++◌, ◌∷◌, [], ◌^◌, ℕ, codes, decimal, OnOk};
ghost use Rattle.md_clique.specs.Cliques.{clique_count};
ghost use Rattle.md_cost.specs.FileView.{IsFileView};
ghost use Rattle.md_cost.specs.View.{View};
ghost use Rattle.md_people.specs.Costs.{counted_cells, line_of};
ghost use Rattle.md_people.specs.Counts.{whole_of};
ghost use Rattle.md_people.specs.Tree.{clique_own, clique_row, clique_total, is_shown, tree_heading};
ghost use Rattle.md_tree.specs.Branches.{more_of};

use crate::entry::add_where;
use crate::scale::Scale;
use md_base::{Measure, NoMemory, PdId};
use md_cost::Loaded;
use md_people::{add_number, push_counted};
use md_table::{Lines, add_indent};
use std::alloc::AllocError;

/// Adds the heading of the tree.
pub(crate) fn push_heading(rows: &mut Lines) -> Result<(), NoMemory>
    ensures { OnOk result (rows.new.ended ≡ rows.old.ended ++ tree_heading ∷ []) }
{
    rows.begin();
    rows.add_words(b"total")?;
    rows.add_words(b"%")?;
    rows.add_words(b"own")?;
    rows.end(b"where")
}

/// Whether a clique of this total has a row.
pub(crate) fn is_shown(scale: Scale, total: u64) -> bool
    ensures { (v : View) (k : ℕ) → scale.whole ≡ whole_of v scale.by → total ≡ clique_total v scale.by k → result ≡ is_shown v scale.by scale.least k }
{
    scale.least as u128 * scale.whole as u128 <= 1000 * total as u128
        && (scale.least == 0 || total > 0)
}

/// Adds the row of a clique at this level. The words of its last column are made in `words`, of which nothing else is left.
pub(crate) fn push_clique(
    rows: &mut Lines,
    words: &mut Vec<u8>,
    loaded: &Loaded,
    scale: Scale,
    level: u32,
    clique: u32,
) -> Result<(), NoMemory>
    requires there { clique < clique_count loaded.now.cliques }
    requires whole { (v : View) → IsFileView loaded.now.profile v → scale.whole ≡ whole_of v scale.by }
    ensures { (v : View) → IsFileView loaded.now.profile v → OnOk result (rows.new.ended ≡ rows.old.ended ++ clique_row v scale.by level clique ∷ []) }
{
    let total = loaded.clique_total(clique).of(scale.by);
    let own = clique_own(loaded, scale.by, clique);
    words.clear();
    add_indent(words, level)?;
    add_where(words, loaded, clique)?;
    push_row(rows, scale.whole, total, own, words)
}

/// Adds a row with this total, own count and last cell.
fn push_row(
    rows: &mut Lines,
    whole: u64,
    total: u64,
    own: u128,
    last: &[u8],
) -> Result<(), NoMemory>
    ensures { OnOk result (rows.new.ended ≡ rows.old.ended ++ line_of (counted_cells total whole ++ decimal own ∷ []) last.now ∷ []) }
{
    rows.begin();
    push_counted(rows, total as u128, whole)?;
    rows.add_count(own)?;
    rows.end(last)
}

/// The sum of the own counts of a clique's contexts, and so many steps. Takes no memory.
pub fn clique_own(loaded: &Loaded, by: Measure, clique: u32) -> u128
    requires there { clique < clique_count loaded.now.cliques }
    ensures { (v : View) → IsFileView loaded.now.profile v → result ≡ clique_own v by clique }
{
    // it is valid and has a tree, which `profile` says
    let _profile = loaded.profile();
    let mut sum = 0;
    for node in loaded.members(clique) {
        sum += loaded.node_own(PdId::new(*node)).of(by) as u128;
    }
    sum
}

/// Adds the row of so many children that have none of their own, where there are any. The words of its last column are made in `words`,
/// of which nothing else is left.
pub(crate) fn push_more(
    rows: &mut Lines,
    words: &mut Vec<u8>,
    scale: Scale,
    level: u32,
    count: u32,
    sum: u128,
) -> Result<(), NoMemory>
    requires { sum < 2 ^ 118 }
    ensures { (v : View) → scale.whole ≡ whole_of v scale.by → OnOk result (rows.new.ended ≡ rows.old.ended ++ more_of v scale.by level count sum) }
{
    if count == 0 {
        return Ok(());
    }
    words.clear();
    add_indent(words, level)?;
    add_more(words, count)?;
    push_sum(rows, scale.whole, sum, words)
}

/// Adds a row with this sum of totals, no own count and this last cell.
fn push_sum(rows: &mut Lines, whole: u64, sum: u128, last: &[u8]) -> Result<(), NoMemory>
    requires { sum < 2 ^ 118 }
    ensures { OnOk result (rows.new.ended ≡ rows.old.ended ++ line_of (counted_cells sum whole ++ codes "-" ∷ []) last.now ∷ []) }
{
    rows.begin();
    push_counted(rows, sum, whole)?;
    rows.add_words(b"-")?;
    rows.end(last)
}

/// Adds how many children have no row.
fn add_more(out: &mut Vec<u8>, count: u32) -> Result<(), AllocError>
    ensures { OnOk result (out.new.items ≡ out.old.items ++ (decimal count ++ codes " more")) }
{
    add_number(out, b"", count)?;
    out.extend_from_slice(b" more")
}
