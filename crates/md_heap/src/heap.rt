// The cells that a run has built, numbered in the order in which they were built.
ghost use Rattle.std.specs.Prelude.{◌≡◌, ◌<◌, ◌++◌, [], ◌∷◌, length, slice_get, All, Some, IfOk, OnOk, OnErr};

use crate::row::Row;
use crate::value::Value;
use md_base::NoMemory;
use std::alloc::Global;
use std::marker::Model;

/// Cells, each with a head and parts. A part is an integer, a literal or an older cell, so each cell stands for a
/// finite tree.
#[derive(Drop)]
pub struct Heap {
    rows: Vec<Row>,
    parts: Vec<Value>,
}

impl Model for Heap {
    ghost use Rattle.md_heap.specs.Cells.{Cells};
    ghost use Rattle.md_heap.specs.Layout.{cells_of, IsLaidOut};

    ghost Value = { Cells };

    ghost view = { λ heap. cells_of heap.rows.items heap.parts.items };

    ghost invariant = { λ heap. IsLaidOut heap.rows.items heap.parts.items };
}

impl Heap {
    ghost use Rattle.std.specs.Prelude.{◌≡◌, ◌<◌, [], ◌∷◌, length, slice_get, All, Some, IfOk, OnOk, OnErr};
    ghost use Rattle.md_heap.specs.Tree.{Built, part_of};
    ghost use Rattle.md_heap.specs.Cells.{IsThere, is_there, AreOlder, cell_at, tree_of, trees_of};
    ghost use Rattle.md_heap.specs.declared.value.Value.{Value as AnyValue};

    /// No cells. Takes no memory.
    pub fn new(alloc: Global) -> Heap
        ensures { result ≡ [] }
    {
        Heap {
            rows: Vec::new(alloc),
            parts: Vec::new(alloc),
        }
    }

    /// Adds a cell with this head and these parts, and gives it as a value. It stands for the head with what the parts
    /// stood for. What was there stands for what it stood for. Where memory is wanting, the heap is as it was: so it is too where
    /// the parts of all cells are more than 32 bits count, which would take 64 GB.
    #[inline(always)]
    pub fn build(&mut self, head: u32, parts: &[Value]) -> Result<Value, NoMemory>
        requires there { All (IsThere (length self.old)) parts.now }
        ensures cell { IfOk result (λ value. value ≡ Value.Cell (length self.old)) }
        ensures added { OnOk result (self.new ≡ record { head = head; parts = parts.now } ∷ self.old) }
        ensures means { IfOk result (λ value. tree_of self.new value ≡ Built head (trees_of self.old parts.now)) }
        ensures stays { OnOk result ((value : AnyValue) → IsThere (length self.old) value → tree_of self.new value ≡ tree_of self.old value) }
        ensures err { OnErr result (self.new ≡ self.old) }
    {
        let cell = self.rows.len() as u64;
        let first = self.parts.len();
        if first > 4_294_967_295 {
            return Err(NoMemory);
        }
        self.rows.reserve(1)?;
        add_all(&mut self.parts, parts)?;
        self.rows.push_reserved(Row {
            head,
            first: first as u32,
        });
        Ok(Value::Cell(cell))
    }

    /// The head of a cell, which stands for this head with what its parts stand for. Takes no memory.
    pub fn head(&self, cell: u64) -> u32
        requires { cell < length self.now }
        ensures value { result ≡ (cell_at self.now cell).head }
        ensures means { tree_of self.now (Value.Cell cell) ≡ Built result (trees_of self.now (cell_at self.now cell).parts) }
    {
        self.rows[cell as usize].head
    }

    /// The part of a cell at a place, which is an integer, a literal or an older cell. Takes no memory.
    pub fn part(&self, cell: u64, place: u32) -> Value
        requires cell_there { cell < length self.now }
        requires place_there { place < length (cell_at self.now cell).parts }
        ensures value { slice_get (cell_at self.now cell).parts place ≡ Some result }
        ensures means { part_of (tree_of self.now (Value.Cell cell)) place ≡ Some (tree_of self.now result) }
        ensures there { IsThere (length self.now) result }
    {
        self.part_at(cell, place as usize)
    }

    /// The part of a cell at a place.
    pub(crate) fn part_at(&self, cell: u64, place: usize) -> Value
        requires cell_there { cell < length self.now }
        requires place_there { place < length (cell_at self.now cell).parts }
        ensures value { slice_get (cell_at self.now cell).parts place ≡ Some result }
        ensures older { AreOlder self.now }
    {
        self.parts[self.rows[cell as usize].first as usize + place]
    }

    /// How many cells there are. Takes no memory.
    pub fn cell_count(&self) -> usize
        ensures { result ≡ length self.now }
    {
        self.rows.len()
    }

    /// Whether a value is an integer, a literal, or a cell that is there. Takes no memory.
    pub fn holds(&self, value: Value) -> bool
        ensures { result ≡ is_there (length self.now) value }
    {
        match value {
            Value::Int(_) | Value::Lit(_) => true,
            Value::Cell(cell) => cell < self.rows.len() as u64,
        }
    }

    /// How many parts a cell has. Takes no memory.
    pub fn part_count(&self, cell: u64) -> usize
        requires { cell < length self.now }
        ensures value { result ≡ length (cell_at self.now cell).parts }
        ensures older { AreOlder self.now }
    {
        let place = cell as usize;
        let first = self.rows[place].first as usize;
        if place + 1 < self.rows.len() {
            self.rows[place + 1].first as usize - first
        } else {
            self.parts.len() - first
        }
    }

    /// Where the heap takes its memory.
    pub(crate) fn allocator(&self) -> Global {
        *self.rows.allocator()
    }
}

/// Adds these values: few of them one by one, into room that is made at once. Where memory is wanting, the vector is as it was.
#[inline(always)]
fn add_all(values: &mut Vec<Value>, more: &[Value]) -> Result<(), NoMemory>
    ensures items { OnOk result (values.new.items ≡ values.old.items ++ more.now) }
    ensures err { OnErr result (values.new.items ≡ values.old.items) }
{
    match more {
        [] => {}
        [first] => {
            values.reserve(1)?;
            values.push_reserved(*first);
        }
        [first, second] => {
            values.reserve(2)?;
            values.push_reserved(*first);
            values.push_reserved(*second);
        }
        [first, second, third] => {
            values.reserve(3)?;
            values.push_reserved(*first);
            values.push_reserved(*second);
            values.push_reserved(*third);
        }
        _ => values.extend_from_slice(more)?,
    }
    Ok(())
}
