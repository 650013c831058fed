// The modules that were read.
ghost use Rattle.std.specs.Prelude.{◌≡◌, ◌++◌, ◌∷◌, [], ◌&&◌, not, IfOk, OnOk, OnErr, if◌then◌else◌};
ghost use Rattle.std.specs.Str.{bytes_eq};
ghost use Rattle.std.specs.List.{list_any};
ghost use Rattle.md_static.specs.Names.{is_name};

use crate::names::program_name;
use indexmap::IndexSet;
use md_base::{Name, NoMemory};
use std::alloc::Global;
use std::marker::Model;

/// Names of modules in their order. A set of their bytes finds one that was there before at once.
#[derive(Drop)]
pub struct Modules {
    names: Vec<Name>,
    keys: IndexSet<Vec<u8>>,
}

impl Model for Modules {
    ghost use Rattle.std.specs.Prelude.{ℕ, ◌≡◌, List, map};

    ghost Value = { List (List ℕ) };

    ghost view = { λ m. m.names.items };

    ghost invariant = { λ m. map (λ key. key.items) m.keys.keys ≡ m.names.items };
}

impl Modules {
    ghost use Rattle.std.specs.Prelude.{length};

    /// No modules.
    pub fn new(alloc: Global) -> Modules
        ensures { result ≡ [] }
    {
        Modules {
            names: Vec::new(alloc),
            keys: IndexSet::new(alloc),
        }
    }

    /// How many there are.
    pub fn len(&self) -> usize
        ensures { result ≡ length self.now }
    {
        self.names.len()
    }

    /// Adds a module of this name, and answers whether it is a name that none had before. Otherwise nothing is added.
    pub fn add(&mut self, alloc: Global, bytes: &[u8]) -> Result<bool, NoMemory>
        ensures added { IfOk result (λ added. added ≡ (is_name bytes.now && not (list_any (bytes_eq bytes.now) self.old))) }
        ensures names { IfOk result (λ added. self.new ≡ (if added then self.old ++ bytes.now ∷ [] else self.old)) }
        ensures refused { OnErr result (self.new ≡ self.old) }
    {
        match program_name(alloc, bytes)? {
            Some(name) => self.add_name(alloc, name),
            None => Ok(false),
        }
    }

    /// Adds a module of this name, and answers whether none had it before. Otherwise nothing is added.
    fn add_name(&mut self, alloc: Global, name: Name) -> Result<bool, NoMemory>
        ensures added { IfOk result (λ added. added ≡ not (list_any (bytes_eq name) self.old)) }
        ensures names { IfOk result (λ added. self.new ≡ (if added then self.old ++ name ∷ [] else self.old)) }
        ensures refused { OnErr result (self.new ≡ self.old) }
    {
        let key = Vec::from_slice(alloc, name.as_bytes())?;
        self.names.reserve(1)?;
        if !self.keys.insert(key)? {
            return Ok(false);
        }
        self.names.push(name)?;
        Ok(true)
    }

    /// The names. Takes no memory.
    pub fn into_names(self) -> Vec<Name>
        ensures { result.items ≡ self }
    {
        self.names
    }
}
