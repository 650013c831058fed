// The modules of a program, by number.
ghost use Rattle.std.specs.Prelude.{◌≡◌, OnOk, IfOk};
ghost use Rattle.md_hlds.specs.Hlds.{hlds_of, procedure_of};
ghost use Rattle.md_ports.specs.Modules.{module_of, modules_of, number_of, told, with_module};

use indexmap::IndexSet;
use md_base::{Name, NoMemory};
use md_hlds::{Pred, Program};
use std::alloc::Global;
use std::marker::Model;

/// The modules of a program, which contracts see as the list of their names.
#[derive(Drop)]
pub(crate) struct Modules<'a> {
    numbers: IndexSet<&'a [u8]>,
    names: Vec<Name>,
}

impl<'a> Model for Modules<'a> {
    ghost use Rattle.std.specs.Prelude.{ℕ, ◌≡◌, ◌≤◌, ◌^◌, List, length};
    ghost use Rattle.md_ports.specs.Modules.{told};

    ghost Value = { List (List ℕ) };

    ghost view = { λ modules. modules.names.items };

    ghost invariant = { λ modules. (told modules.numbers.keys ≡ modules.names.items) × (length modules.names.items ≤ 2 ^ 32) };
}

impl<'a> Modules<'a> {
    /// The modules of this program: the file's, and then the others in the order in which a predicate of theirs is first
    /// declared.
    pub fn of(alloc: Global, program: &'a Program) -> Result<Modules<'a>, NoMemory>
        ensures { IfOk result (λ modules. modules ≡ modules_of (hlds_of program.now)) }
    {
        let mut numbers = IndexSet::new(alloc);
        let mut names = Vec::new(alloc);
        add_module(alloc, &mut numbers, &mut names, &program.module)?;
        for pred in &program.preds {
            add_module(alloc, &mut numbers, &mut names, module_of(program, pred))?;
        }
        Ok(Modules { numbers, names })
    }

    /// The number of a module.
    pub fn number_of(&self, name: &Name) -> u32
        ensures { result ≡ number_of self.now name.now }
    {
        self.numbers.get_index_of(name.as_bytes()).unwrap_or(0) as u32
    }

    /// The names of the modules. Takes no memory.
    pub fn into_names(self) -> Vec<Name>
        ensures { result.items ≡ self.entry }
    {
        let Modules { numbers: _, names } = self;
        names
    }
}

/// The module of a predicate: its qualifier, or the file's module where it has none.
pub(crate) fn module_of<'a>(program: &'a Program, pred: &'a Pred) -> &'a Name
    ensures { result.now ≡ module_of (hlds_of program.now) (procedure_of pred.now) }
{
    match &pred.qualifier {
        Some(name) => name,
        None => &program.module,
    }
}

/// Adds a module, if it is none of those that are there.
fn add_module<'a>(
    alloc: Global,
    numbers: &mut IndexSet<&'a [u8]>,
    names: &mut Vec<Name>,
    name: &'a Name,
) -> Result<(), NoMemory>
    requires { told numbers.old.keys ≡ names.old.items }
    ensures names { OnOk result (names.new.items ≡ with_module name.now names.old.items) }
    ensures numbers { OnOk result (told numbers.new.keys ≡ names.new.items) }
{
    if numbers.insert(name.as_bytes())? {
        names.push(name.copy(alloc)?)?;
    }
    Ok(())
}
