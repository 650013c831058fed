// A line that is read.
use crate::cells::Cells;
use std::marker::Model;

/// A line of a table, to be read: some of many cells, and the one of the last column.
#[derive(Drop)]
pub(crate) struct Row<'a> {
    cells: &'a Cells,
    from: usize,
    to: usize,
    last: &'a [u8],
}

impl<'a> Model for Row<'a> {
    ghost use Rattle.std.specs.Prelude.{◌≤◌, length};
    ghost use Rattle.std.specs.List.{between};
    ghost use Rattle.md_table.specs.Table.{LineCells};

    ghost Value = { LineCells };

    ghost view = { λ row. record { cells = between row.from row.to row.cells.now; last = row.last.now } };

    ghost invariant = { λ row. (row.from ≤ row.to) × (row.to ≤ length row.cells.now) };
}

impl<'a> Row<'a> {
    ghost use Rattle.std.specs.Prelude.{◌≡◌, ◌<◌, ◌≤◌, [], length, slice_index_or};
    ghost use Rattle.std.specs.List.{between};

    /// The line with those of the cells that lie from one place up to another.
    pub(crate) fn new(cells: &'a Cells, from: usize, to: usize, last: &'a [u8]) -> Row<'a>
        requires rising { from ≤ to }
        requires inside { to ≤ length cells.now }
        ensures { result ≡ record { cells = between from to cells.now; last = last.now } }
    {
        Row {
            cells,
            from,
            to,
            last,
        }
    }

    /// How many cells there are but the last.
    pub(crate) fn len(&self) -> usize
        ensures { result ≡ length self.now.cells }
    {
        self.to - self.from
    }

    /// The bytes of the cell of a column but the last.
    pub(crate) fn get(&self, column: usize) -> &[u8]
        requires { column < length self.now.cells }
        ensures { result.now ≡ slice_index_or self.now.cells column [] }
    {
        self.cells.get(self.from + column)
    }

    /// The bytes of the cell of the last column.
    pub(crate) fn last(&self) -> &[u8]
        ensures { result.now ≡ self.now.last }
    {
        self.last
    }
}
