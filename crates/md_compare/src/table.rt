// The table of two profiles.
ghost use Rattle.std.specs.Prelude.{◌≡◌, ◌++◌, ◌∷◌, [], IfOk, OnOk, map};
ghost use Rattle.md_cost.specs.FileView.{IsFileView};
ghost use Rattle.md_cost.specs.View.{View};
ghost use Rattle.md_people.specs.Compare.{compare_table};
ghost use Rattle.md_compare.specs.Lines.{told_line, told_table, whole_line};

use crate::cost::{Cost, apart};
use crate::line::{push_compared, push_heading};
use crate::told::{Margin, Told, told_names};
use md_base::{Measure, NoMemory};
use md_cost::Loaded;
use md_people::whole_of;
use md_table::{Lines, Table};
use std::alloc::Global;

/// Two profiles by a measure: a row for the whole, and one for each name of a procedure whose own counts or totals are apart by at least
/// `least` thousandths of the old whole, and by at least 1; the greatest difference comes first. Takes time in the order of n log n
/// comparisons of names, for n procedures in both, and memory for the names of both. `NoMemory` where memory is refused.
pub fn compare_table(
    alloc: Global,
    old: &Loaded,
    new: &Loaded,
    by: Measure,
    least: u32,
) -> Result<Table, NoMemory>
    ensures { IfOk result (λ table. (v w : View) → IsFileView old.now.profile v → IsFileView new.now.profile w → table ≡ compare_table v w by least) }
{
    let whole = whole_of(old, by);
    let told = told_names(alloc, old, new, by, Margin { least, whole })?;
    told_table(alloc, whole, whole_of(new, by), &told)
}

/// The table of these names.
fn told_table(alloc: Global, old: u64, new: u64, told: &[Told]) -> Result<Table, NoMemory>
    ensures { IfOk result (λ table. table ≡ told_table old new told.now) }
{
    let mut rows = Lines::new(alloc);
    push_heading(&mut rows)?;
    push_whole(&mut rows, old, new)?;
    push_rows(&mut rows, old, told)?;
    Ok(Table::from_lines(rows))
}

/// Adds the line of the whole.
fn push_whole(rows: &mut Lines, old: u64, new: u64) -> Result<(), NoMemory>
    ensures { OnOk result (rows.new.ended ≡ rows.old.ended ++ whole_line old new ∷ []) }
{
    let difference = apart(Some(old), Some(new));
    let old_cost = Some(Cost {
        own: old,
        total: old,
    });
    let new_cost = Some(Cost {
        own: new,
        total: new,
    });
    push_compared(rows, old, difference, old_cost, new_cost, b"all")
}

/// Adds the lines of these names.
fn push_rows(rows: &mut Lines, whole: u64, told: &[Told]) -> Result<(), NoMemory>
    ensures { OnOk result (rows.new.ended ≡ rows.old.ended ++ map (told_line whole) told.now) }
{
    for name in told {
        push_told(rows, whole, name)?;
    }
    Ok(())
}

/// Adds the line of a name.
fn push_told(rows: &mut Lines, whole: u64, told: &Told) -> Result<(), NoMemory>
    ensures { OnOk result (rows.new.ended ≡ rows.old.ended ++ told_line whole told.now ∷ []) }
{
    let difference = told.difference.0;
    push_compared(rows, whole, difference, told.old, told.new, &told.name)
}
