// Lines of the table.
ghost use Rattle.std.specs.Prelude.{◌≡◌, ◌++◌, ◌∷◌, [], OnOk};
ghost use Rattle.md_table.specs.Table.{with_cells};
ghost use Rattle.md_people.specs.Compare.{both_cells, compare_heading, compared_line, count_words};
ghost use Rattle.md_compare.specs.Cost.{own_in, total_in};

use crate::cost::{Cost, own_in, total_in};
use md_base::NoMemory;
use md_table::Lines;

/// Adds the heading of the table.
pub(crate) fn push_heading(rows: &mut Lines) -> Result<(), NoMemory>
    ensures { OnOk result (rows.new.ended ≡ rows.old.ended ++ compare_heading ∷ []) }
{
    rows.begin();
    rows.add_words(b"old own")?;
    rows.add_words(b"new own")?;
    rows.add_words(b"change")?;
    rows.add_words(b"old total")?;
    rows.add_words(b"new total")?;
    rows.add_words(b"change")?;
    rows.add_words(b"%")?;
    rows.end(b"procedure")
}

/// Adds the line of a name with what it costs in both profiles, and the share of the greater difference in the whole.
pub(crate) fn push_compared(
    rows: &mut Lines,
    whole: u64,
    difference: u64,
    old: Option<Cost>,
    new: Option<Cost>,
    name: &[u8],
) -> Result<(), NoMemory>
    ensures { OnOk result (rows.new.ended ≡ rows.old.ended ++ compared_line whole difference (own_in old) (own_in new) (total_in old) (total_in new) name.now ∷ []) }
{
    rows.begin();
    push_both(rows, own_in(old), own_in(new))?;
    push_both(rows, total_in(old), total_in(new))?;
    rows.add_share(difference as u128, whole)?;
    rows.end(name)
}

/// Adds two counts, and how much more is new than old, to the row that is begun.
fn push_both(rows: &mut Lines, old: Option<u64>, new: Option<u64>) -> Result<(), NoMemory>
    ensures { OnOk result (rows.new ≡ with_cells rows.old (both_cells old new)) }
{
    push_count(rows, old)?;
    push_count(rows, new)?;
    rows.add_change(old.unwrap_or(0), new.unwrap_or(0))
}

/// Adds a count, or that there is no such procedure, to the row that is begun.
fn push_count(rows: &mut Lines, count: Option<u64>) -> Result<(), NoMemory>
    ensures { OnOk result (rows.new ≡ with_cells rows.old (count_words count ∷ [])) }
{
    match count {
        Some(count) => rows.add_count(count as u128),
        None => rows.add_words(b"-"),
    }
}
