// A store that keeps how long the pieces are.
ghost use Rattle.std.specs.Prelude.{◌≡◌, ◌++◌, ◌∷◌, [], None, length, IfOk, OnErr};
ghost use Rattle.md_base.specs.Outside.{HasCause, Takes};

use md_base::{Failed, Store};
use std::alloc::Global;

/// A store that takes each piece whole, and keeps how long it was, but not its bytes. It tells nothing of files.
#[derive(Drop)]
pub struct PieceStore {
    lengths: Vec<usize>,
}

impl PieceStore {
    /// A store that was handed no piece yet.
    pub fn new(alloc: Global) -> PieceStore
        ensures { result.lengths.items ≡ [] }
    {
        PieceStore {
            lengths: Vec::new(alloc),
        }
    }

    /// How long each piece was, in order.
    pub fn lengths(&self) -> &[usize]
        ensures { result.now ≡ self.now.lengths.items }
    {
        self.lengths.as_slice()
    }
}

impl Store for PieceStore {
    ghost held = { λ _. None };

    ghost read_faults = { λ _. 0 };

    ghost write_faults = { λ _. 0 };

    fn read_at(&mut self, _name: &str, _at: u64, _buf: &mut [u8]) -> Result<usize, Failed> {
        Ok(0)
    }

    fn create(&mut self, _name: &str) -> Result<(), Failed> {
        Ok(())
    }

    fn append(&mut self, _name: &str, piece: &[u8]) -> Result<usize, Failed>
        ensures takes { IfOk result (λ n. Takes n piece.now) }
        ensures kept { IfOk result (λ _. self.new.lengths.items ≡ self.old.lengths.items ++ length piece.now ∷ []) }
        ensures refused { OnErr result (self.new.lengths.items ≡ self.old.lengths.items) }
        ensures cause { HasCause Failed.Device 0 0 result }
    {
        self.lengths.push(piece.len())?;
        Ok(piece.len())
    }
}
