// How wide the columns of a table are.
ghost use Rattle.std.specs.Prelude.{ℕ, ◌≡◌, ◌<◌, ◌≤◌, ◌∷◌, ◌==◌, length, max, if◌then◌else◌, IfOk, OnOk};
ghost use Rattle.md_table.specs.Table.{cell_at, lines_of, width_in, width_of};

use crate::row::Row;
use crate::table::Table;
use md_base::NoMemory;
use std::alloc::{AllocError, Global};

/// The widths of the columns but the last, by the number of the column. Past the end there is no cell that isn't empty.
pub(crate) fn widths_of(alloc: Global, table: &Table) -> Result<Vec<usize>, NoMemory>
    ensures { IfOk result (λ widths. (column : ℕ) → width_in widths.items column ≡ width_of (lines_of table.now) column) }
{
    let mut widths = Vec::new(alloc);
    widen(&mut widths, &table.heading())?;
    for place in 0..table.len() {
        widen(&mut widths, &table.row(place))?;
    }
    Ok(widths)
}

/// Makes columns as wide as the cells of a line, where they are not.
fn widen(widths: &mut Vec<usize>, line: &Row) -> Result<(), AllocError>
    ensures { OnOk result ((column : ℕ) → width_in widths.new.items column ≡ max (width_in widths.old.items column) (length (cell_at line.now column))) }
{
    for column in 0..line.len() {
        widen_column(widths, column, line.get(column).len())?;
    }
    Ok(())
}

/// Makes a column at least so wide.
fn widen_column(widths: &mut Vec<usize>, column: usize, width: usize) -> Result<(), AllocError>
    requires { column ≤ length widths.old.items }
    ensures next { OnOk result (column < length widths.new.items) }
    ensures wide { OnOk result ((other : ℕ) → width_in widths.new.items other ≡ (if other == column then max (width_in widths.old.items other) width else width_in widths.old.items other)) }
{
    if column < widths.len() {
        widths[column] = widths[column].max(width);
    } else {
        widths.push(width)?;
    }
    Ok(())
}
