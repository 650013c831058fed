// A table as text.
ghost use Rattle.std.specs.Prelude.{◌≡◌, ◌++◌, OnOk};
ghost use Rattle.std.specs.List.{flat_map};
ghost use Rattle.md_table.specs.Table.{text_of, line_words, cells_words, at_right, width_in};

use crate::add::{add, add_spaces};
use crate::row::Row;
use crate::table::Table;
use crate::width::widths_of;
use md_base::NoMemory;
use std::alloc::{AllocError, Global};

/// Adds an empty line, and the heading and the rows with their cells in columns.
pub fn add_text(out: &mut Vec<u8>, table: &Table) -> Result<(), NoMemory>
    ensures { OnOk result (out.new.items ≡ out.old.items ++ text_of table.now) }
{
    let alloc: Global = *out.allocator();
    let widths = widths_of(alloc, table)?;
    out.push(b'\n')?;
    add_line(out, &widths, &table.heading())?;
    add_rows(out, &widths, table)?;
    Ok(())
}

/// Adds the line of each row.
fn add_rows(out: &mut Vec<u8>, widths: &[usize], table: &Table) -> Result<(), AllocError>
    ensures { OnOk result (out.new.items ≡ out.old.items ++ flat_map (line_words (width_in widths.now)) table.now.rows) }
{
    for place in 0..table.len() {
        add_line(out, widths, &table.row(place))?;
    }
    Ok(())
}

/// Adds a line: each cell at the right of its column, the last one as it is.
fn add_line(out: &mut Vec<u8>, widths: &[usize], line: &Row) -> Result<(), AllocError>
    ensures { OnOk result (out.new.items ≡ out.old.items ++ line_words (width_in widths.now) line.now) }
{
    add_cells(out, widths, line)?;
    add(out, line.last())?;
    out.push(b'\n')?;
    Ok(())
}

/// Adds the cells of a line but the last, and two spaces behind each.
fn add_cells(out: &mut Vec<u8>, widths: &[usize], line: &Row) -> Result<(), AllocError>
    ensures { OnOk result (out.new.items ≡ out.old.items ++ cells_words (width_in widths.now) line.now.cells) }
{
    for column in 0..line.len() {
        add_at_right(out, width_at(widths, column), line.get(column))?;
        add(out, b"  ")?;
    }
    Ok(())
}

/// Adds a cell at the right of its column.
fn add_at_right(out: &mut Vec<u8>, width: usize, cell: &[u8]) -> Result<(), AllocError>
    ensures { OnOk result (out.new.items ≡ out.old.items ++ at_right width cell.now) }
{
    add_spaces(out, width.saturating_sub(cell.len()))?;
    add(out, cell)
}

/// The width of a column, which is 0 where there is none.
fn width_at(widths: &[usize], column: usize) -> usize
    ensures { result ≡ width_in widths.now column }
{
    match widths.get(column) {
        Some(width) => *width,
        None => 0,
    }
}
