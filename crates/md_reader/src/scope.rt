// The variables of a clause.
ghost use Rattle.std.specs.Prelude.{◌≡◌, ◌≤◌, ◌<◌, ◌+◌, [], All, OnOk, IfOk, length, map};
ghost use Rattle.md_reader.specs.Input as spec;
ghost use Rattle.md_reader.specs.Names.{HasNameLength};

use crate::names::name_of;
use indexmap::IndexSet;
use md_base::{Name, NoMemory};
use std::alloc::Global;
use std::marker::Model;

/// The names of a clause's variables, in order of first occurrence.
#[derive(Drop)]
pub(crate) struct Scope {
    names: IndexSet<Vec<u8>>,
}

impl Model for Scope {
    ghost use Rattle.std.specs.Prelude.{ℕ, List, All, map, ◌<◌, length};
    ghost use Rattle.md_reader.specs.Names.{HasNameLength};

    ghost Value = { List (List ℕ) };

    ghost view = { λ scope. map (λ name. name.items) scope.names.keys };

    ghost invariant = { λ scope. (length scope.names.keys < 4294967296) × All (λ name. HasNameLength name.items) scope.names.keys };
}

impl Scope {
    pub fn new(alloc: Global) -> Scope
        ensures { result ≡ [] }
    {
        Scope {
            names: IndexSet::new(alloc),
        }
    }

    /// The place of a name, or how many names there are where it is none of them.
    pub fn place_of(&self, name: &[u8]) -> u32
        ensures place { result ≡ spec.place_of name.now self.now }
    {
        match self.names.get_index_of(name) {
            Some(place) => place as u32,
            None => self.names.len() as u32,
        }
    }

    /// The names as a vector.
    pub fn to_names(&self, alloc: Global) -> Result<Vec<Name>, NoMemory>
        ensures { IfOk result (λ names. names.items ≡ self.now) }
    {
        names_of(alloc, self.names.as_slice())
    }

    /// Adds a name, if it is none of them.
    #[tactic(auto, unfolding(crate::specs::Input::with_variable))]
    pub fn add(&mut self, alloc: Global, name: &[u8]) -> Result<(), NoMemory>
        requires name { HasNameLength name.now }
        requires few { length self.now + 1 < 4294967296 }
        ensures ok { OnOk result (self.new ≡ spec.with_variable name.now self.old) }
        ensures more { length self.new ≤ length self.old + 1 }
    {
        if self.names.contains(name) {
            return Ok(());
        }
        let name = Vec::from_slice(alloc, name)?;
        self.names.insert(name)?;
        Ok(())
    }
}

/// The names that these are, each of 1 to 255 bytes.
fn names_of(alloc: Global, kept: &[Vec<u8>]) -> Result<Vec<Name>, NoMemory>
    requires { All (λ name. HasNameLength name.items) kept.now }
    ensures { IfOk result (λ names. names.items ≡ map (λ name. name.items) kept.now) }
{
    let mut names = Vec::new(alloc);
    for name in kept {
        names.push(name_of(alloc, name)?)?;
    }
    Ok(names)
}
