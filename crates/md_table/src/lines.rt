// Rows that are written in place.
use crate::cells::Cells;
use crate::row::Row;
use crate::span::Span;
use md_base::NoMemory;
use std::alloc::Global;
use std::marker::Model;

/// Rows from top to bottom, and one that may be begun behind them. The cells of all lie in one vector, that of the last column behind
/// the others of its row, so that no row takes memory of its own.
#[derive(Drop)]
pub struct Lines {
    cells: Cells,
    spans: Vec<Span>,
    /// Where the cells of the row begin that is begun.
    begun: usize,
}

impl Model for Lines {
    ghost use Rattle.std.specs.Prelude.{All, ◌≤◌, drop, length, map};
    ghost use Rattle.md_table.specs.Spans.{HasLast, line_in};
    ghost use Rattle.md_table.specs.Table.{RowsCells};

    ghost Value = { RowsCells };

    ghost view = { λ lines. record { ended = map (line_in lines.cells) lines.spans.items; begun = drop lines.begun lines.cells } };

    ghost invariant = { λ lines. (All (HasLast (length lines.cells)) lines.spans.items) × (lines.begun ≤ length lines.cells) };
}

impl Lines {
    ghost use Rattle.std.specs.Prelude.{◌≡◌, ◌<◌, ◌^◌, ◌∷◌, [], decimal, length, OnOk};
    ghost use Rattle.md_table.specs.Cells.{change_words, ratio_words, share_words};
    ghost use Rattle.md_table.specs.Spans.{line_at};
    ghost use Rattle.md_table.specs.Table.{with_cells, with_last};

    /// No rows yet. Takes no memory.
    pub fn new(alloc: Global) -> Lines
        ensures { result ≡ record { ended = []; begun = [] } }
    {
        Lines {
            cells: Cells::new(alloc),
            spans: Vec::new(alloc),
            begun: 0,
        }
    }

    /// How many rows are ended.
    pub(crate) fn len(&self) -> usize
        ensures { result ≡ length self.now.ended }
    {
        self.spans.len()
    }

    /// A row that is ended, to be read. It is empty where there is none.
    pub(crate) fn row(&self, place: usize) -> Row<'_>
        ensures { result ≡ line_at self.now.ended place }
    {
        match self.spans.get(place) {
            Some(span) => Row::new(&self.cells, span.from, span.to, self.cells.get(span.to)),
            None => Row::new(&self.cells, 0, 0, b""),
        }
    }

    /// Begins a row. Of one that was begun and not ended nothing is left.
    pub fn begin(&mut self)
        ensures { self.new ≡ record { ended = self.old.ended; begun = [] } }
    {
        self.begun = self.cells.len();
    }

    /// Adds a cell with these words.
    pub fn add_words(&mut self, words: &[u8]) -> Result<(), NoMemory>
        ensures { OnOk result (self.new ≡ with_cells self.old (words.now ∷ [])) }
    {
        self.cells.add_words(words)
    }

    /// Adds a cell with a number in decimal.
    pub fn add_count(&mut self, count: u128) -> Result<(), NoMemory>
        ensures { OnOk result (self.new ≡ with_cells self.old (decimal count ∷ [])) }
    {
        self.cells.add_count(count)
    }

    /// Adds a cell with the share of a part in the whole: how many hundredths, with one digit behind the point, rounded down. It is
    /// `0.0` where the whole is 0.
    pub fn add_share(&mut self, part: u128, whole: u64) -> Result<(), NoMemory>
        requires { part < 2 ^ 118 }
        ensures { OnOk result (self.new ≡ with_cells self.old (share_words part whole ∷ [])) }
    {
        self.cells.add_share(part, whole)
    }

    /// Adds a cell with how much of a total there is for each of so many, with one digit behind the point, rounded down. It is `-`
    /// where there are none.
    pub fn add_ratio(&mut self, total: u64, count: u64) -> Result<(), NoMemory>
        ensures { OnOk result (self.new ≡ with_cells self.old (ratio_words total count ∷ [])) }
    {
        self.cells.add_ratio(total, count)
    }

    /// Adds a cell with how much more is new than old, with its sign.
    pub fn add_change(&mut self, old: u64, new: u64) -> Result<(), NoMemory>
        ensures { OnOk result (self.new ≡ with_cells self.old (change_words old new ∷ [])) }
    {
        self.cells.add_change(old, new)
    }

    /// Ends the row that is begun by the cell of its last column.
    pub fn end(&mut self, last: &[u8]) -> Result<(), NoMemory>
        ensures { OnOk result (self.new ≡ with_last self.old last.now) }
    {
        let to = self.cells.len();
        self.cells.add_words(last)?;
        self.spans.push(Span {
            from: self.begun,
            to,
        })?;
        self.begun = self.cells.len();
        Ok(())
    }
}
