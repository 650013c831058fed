// The procedures that were read.
ghost use Rattle.std.specs.Prelude.{◌≡◌, ◌++◌, ◌∷◌, [], ◌&&◌, not, true, IfOk, OnOk, OnErr};
ghost use Rattle.std.specs.List.{list_any};
ghost use Rattle.md_static.specs.Names.{is_name};
ghost use Rattle.md_deepfile.specs.Rules.{is_proc, proc_of};

use crate::names::is_program_name;
use indexmap::IndexSet;
use md_base::{Name, NoMemory};
use md_static::Proc;
use std::alloc::Global;
use std::marker::Model;

/// Procedures in their order. A set of their modules and names finds one that was there before at once.
#[derive(Drop)]
pub struct Procs {
    procs: Vec<Proc>,
    keys: IndexSet<(u32, Vec<u8>)>,
}

impl Model for Procs {
    ghost use Rattle.std.specs.Prelude.{ℕ, ◌≡◌, List, map};
    ghost use Rattle.md_static.specs.declared.entry.Proc.{Proc};
    ghost use Rattle.md_deepfile.specs.Sets.{key_of};

    ghost Value = { List Proc };

    ghost view = { λ p. p.procs.items };

    ghost invariant = { λ p. map (λ key. (key.0, key.1.items)) p.keys.keys ≡ map key_of p.procs.items };
}

impl Procs {
    ghost use Rattle.std.specs.Prelude.{length};

    /// No procedures.
    pub fn new(alloc: Global) -> Procs
        ensures { result ≡ [] }
    {
        Procs {
            procs: Vec::new(alloc),
            keys: IndexSet::new(alloc),
        }
    }

    /// How many there are.
    pub fn len(&self) -> usize
        ensures { result ≡ length self.now }
    {
        self.procs.len()
    }

    /// Whether this is a name that no procedure of the module has.
    pub fn is_new(&self, alloc: Global, home: u32, bytes: &[u8]) -> Result<bool, NoMemory>
        ensures { IfOk result (λ is_new. is_new ≡ (is_name bytes.now && not (list_any (is_proc home bytes.now) self.now))) }
    {
        if !is_program_name(bytes) {
            return Ok(false);
        }
        let key = (home, Vec::from_slice(alloc, bytes)?);
        Ok(!self.keys.contains(&key))
    }

    /// Adds a procedure, whose name no procedure of the module has.
    pub fn push(
        &mut self,
        alloc: Global,
        home: u32,
        bytes: &[u8],
        arity: u8,
    ) -> Result<(), NoMemory>
        requires { (is_name bytes.now && not (list_any (is_proc home bytes.now) self.old)) ≡ true }
        ensures added { OnOk result (self.new ≡ self.old ++ proc_of home bytes.now arity ∷ []) }
        ensures refused { OnErr result (self.new ≡ self.old) }
    {
        let name = Name::from_bytes(alloc, bytes)?.unwrap();
        let key = (home, Vec::from_slice(alloc, bytes)?);
        self.procs.reserve(1)?;
        self.keys.insert(key)?;
        self.procs.push(Proc {
            module: home,
            name,
            arity,
        })?;
        Ok(())
    }

    /// The procedures. Takes no memory.
    pub fn into_procs(self) -> Vec<Proc>
        ensures { result.items ≡ self }
    {
        self.procs
    }
}
