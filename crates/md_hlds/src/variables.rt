// A list of variables, which contracts see as the list of their places.
ghost use Rattle.std.specs.Prelude.{◌≡◌, ◌++◌, [], ◌∷◌, length, OnOk, OnErr};

use md_base::NoMemory;
use std::alloc::Global;
use std::marker::Model;

/// Variables of one clause: places in the clause's table of variable names.
#[derive(Drop)]
pub struct Variables {
    places: Vec<u32>,
}

impl Model for Variables {
    ghost use Rattle.std.specs.Prelude.{ℕ, List};

    ghost Value = { List ℕ };

    ghost view = { λ variables. variables.places.items };
}

impl Variables {
    /// No variables. Takes no memory.
    pub fn new(alloc: Global) -> Variables
        ensures { result ≡ [] }
    {
        Variables {
            places: Vec::new(alloc),
        }
    }

    /// These variables. Takes no memory.
    pub fn from_vec(places: Vec<u32>) -> Variables
        ensures { result ≡ places.items }
    {
        Variables { places }
    }

    /// Adds a variable at the end.
    pub fn push(&mut self, place: u32) -> Result<(), NoMemory>
        ensures ok { OnOk result (self.new ≡ self.old ++ place ∷ []) }
        ensures err { OnErr result (self.new ≡ self.old) }
    {
        self.places.push(place)?;
        Ok(())
    }

    /// How many there are.
    pub fn len(&self) -> usize
        ensures { result ≡ length self.now }
    {
        self.places.len()
    }

    /// The variables in order.
    pub fn as_slice(&self) -> &[u32]
        ensures { result.now ≡ self.now }
    {
        self.places.as_slice()
    }

    /// The variables as a vector. Takes no memory.
    pub fn into_vec(self) -> Vec<u32>
        ensures { result.items ≡ self }
    {
        let Variables { places } = self;
        places
    }
}
