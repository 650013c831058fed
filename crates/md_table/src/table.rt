// A table.
use crate::lines::Lines;
use crate::row::Row;
use std::marker::Model;

/// A table: its heading, and its rows from top to bottom.
#[derive(Drop)]
pub struct Table {
    lines: Lines,
}

impl Model for Table {
    ghost use Rattle.std.specs.Prelude.{drop};
    ghost use Rattle.md_table.specs.Spans.{line_at};
    ghost use Rattle.md_table.specs.Table.{TableCells};

    ghost Value = { TableCells };

    ghost view = { λ table. record { heading = line_at table.lines.ended 0; rows = drop 1 table.lines.ended } };
}

impl Table {
    ghost use Rattle.std.specs.Prelude.{◌≡◌, ◌<◌, drop, length};
    ghost use Rattle.md_table.specs.Spans.{line_at};

    /// A table of the rows that are ended, of which the first is the heading. The heading is empty where there is none. Takes no memory.
    pub fn from_lines(lines: Lines) -> Table
        ensures { result ≡ record { heading = line_at lines.ended 0; rows = drop 1 lines.ended } }
    {
        Table { lines }
    }

    /// How many rows there are below the heading.
    pub fn len(&self) -> usize
        ensures { result ≡ length self.now.rows }
    {
        self.lines.len().saturating_sub(1)
    }

    /// The heading, to be read.
    pub(crate) fn heading(&self) -> Row<'_>
        ensures { result ≡ self.now.heading }
    {
        self.lines.row(0)
    }

    /// A row below the heading, to be read.
    pub(crate) fn row(&self, place: usize) -> Row<'_>
        requires { place < length self.now.rows }
        ensures { result ≡ line_at self.now.rows place }
    {
        // a place among the lines is a number of 64 bits
        let _lines = self.lines.len();
        self.lines.row(place + 1)
    }
}
