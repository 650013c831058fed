// Cells whose bytes lie in one vector.
ghost use Rattle.std.specs.Prelude.{◌≡◌, ◌++◌, ◌∷◌, [], length, OnErr, OnOk};

use crate::add::{add, add_number};
use crate::number::{add_change, add_ratio, add_share};
use crate::span::Span;
use md_base::NoMemory;
use std::alloc::Global;
use std::marker::Model;

/// Cells, from left to right. The bytes of all of them lie in one vector, so that none takes memory of its own.
#[derive(Drop)]
pub(crate) struct Cells {
    words: Vec<u8>,
    spans: Vec<Span>,
}

impl Model for Cells {
    ghost use Rattle.std.specs.Prelude.{ℕ, All, List, length, map};
    ghost use Rattle.md_table.specs.Spans.{IsWithin, cell_in};

    ghost Value = { List (List ℕ) };

    ghost view = { λ cells. map (cell_in cells.words.items) cells.spans.items };

    ghost invariant = { λ cells. All (IsWithin (length cells.words.items)) cells.spans.items };
}

impl Cells {
    ghost use Rattle.std.specs.Prelude.{◌≡◌, ◌<◌, ◌≤◌, ◌^◌, ◌++◌, ◌∷◌, [], decimal, length, slice_index_or, OnOk};
    ghost use Rattle.md_table.specs.Cells.{change_words, ratio_words, share_words};

    /// No cells yet. Takes no memory.
    pub(crate) fn new(alloc: Global) -> Cells
        ensures { result ≡ [] }
    {
        Cells {
            words: Vec::new(alloc),
            spans: Vec::new(alloc),
        }
    }

    /// How many there are.
    pub(crate) fn len(&self) -> usize
        ensures { result ≡ length self.now }
    {
        self.spans.len()
    }

    /// The bytes of a cell.
    pub(crate) fn get(&self, place: usize) -> &[u8]
        requires { place < length self.now }
        ensures { result.now ≡ slice_index_or self.now place [] }
    {
        let span = self.spans[place];
        &self.words[span.from..span.to]
    }

    /// Adds a cell with these words.
    pub(crate) fn add_words(&mut self, words: &[u8]) -> Result<(), NoMemory>
        ensures added { OnOk result (self.new ≡ self.old ++ words.now ∷ []) }
        ensures grown { length self.old ≤ length self.new }
    {
        let from = self.words.len();
        add(&mut self.words, words)?;
        end_cell(&mut self.spans, &self.words, from)
    }

    /// Adds a cell with a number in decimal.
    pub(crate) fn add_count(&mut self, count: u128) -> Result<(), NoMemory>
        ensures added { OnOk result (self.new ≡ self.old ++ decimal count ∷ []) }
        ensures grown { length self.old ≤ length self.new }
    {
        let from = self.words.len();
        add_number(&mut self.words, count)?;
        end_cell(&mut self.spans, &self.words, from)
    }

    /// Adds a cell with the share of a part in the whole: how many hundredths, with one digit behind the point, rounded down. It is
    /// `0.0` where the whole is 0.
    pub(crate) fn add_share(&mut self, part: u128, whole: u64) -> Result<(), NoMemory>
        requires { part < 2 ^ 118 }
        ensures added { OnOk result (self.new ≡ self.old ++ share_words part whole ∷ []) }
        ensures grown { length self.old ≤ length self.new }
    {
        let from = self.words.len();
        add_share(&mut self.words, part, whole)?;
        end_cell(&mut self.spans, &self.words, from)
    }

    /// Adds a cell with how much of a total there is for each of so many, with one digit behind the point, rounded down. It is `-`
    /// where there are none.
    pub(crate) fn add_ratio(&mut self, total: u64, count: u64) -> Result<(), NoMemory>
        ensures added { OnOk result (self.new ≡ self.old ++ ratio_words total count ∷ []) }
        ensures grown { length self.old ≤ length self.new }
    {
        let from = self.words.len();
        add_ratio(&mut self.words, total, count)?;
        end_cell(&mut self.spans, &self.words, from)
    }

    /// Adds a cell with how much more is new than old, with its sign.
    pub(crate) fn add_change(&mut self, old: u64, new: u64) -> Result<(), NoMemory>
        ensures added { OnOk result (self.new ≡ self.old ++ change_words old new ∷ []) }
        ensures grown { length self.old ≤ length self.new }
    {
        let from = self.words.len();
        add_change(&mut self.words, old, new)?;
        end_cell(&mut self.spans, &self.words, from)
    }
}

/// Ends a cell whose words begin at a place.
fn end_cell(spans: &mut Vec<Span>, words: &[u8], from: usize) -> Result<(), NoMemory>
    ensures ended { OnOk result (spans.new.items ≡ spans.old.items ++ record { from = from; to = length words.now } ∷ []) }
    ensures kept { OnErr result (spans.new.items ≡ spans.old.items) }
{
    spans.push(Span {
        from,
        to: words.len(),
    })?;
    Ok(())
}
