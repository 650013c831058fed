// The names of types, and those of functors whatever their arities.
ghost use Rattle.std.specs.Prelude.{◌≡◌, IfOk, OnOk};
ghost use Rattle.md_hlds.specs.Hlds.{type_defs_of, hlds_functors_of};
ghost use Rattle.md_names.specs.Maps.{AreTypeNames, AreFunctorNames, AddsNames};

use indexmap::IndexSet;
use md_base::NoMemory;
use md_hlds::{Functor, Program, TypeDef};
use std::alloc::Global;

/// The names of the types of a program, and those of its functors.
pub fn names_of_types<'a>(
    alloc: Global,
    program: &'a Program,
) -> Result<(IndexSet<&'a [u8]>, IndexSet<&'a [u8]>), NoMemory>
    ensures types { IfOk result (λ names. AreTypeNames names.0 (type_defs_of program.now.types.items)) }
    ensures functors { IfOk result (λ names. AreFunctorNames names.1 (type_defs_of program.now.types.items)) }
{
    let types = type_names(alloc, program)?;
    let functors = functor_names(alloc, program)?;
    Ok((types, functors))
}

/// The names of the types of a program.
fn type_names<'a>(alloc: Global, program: &'a Program) -> Result<IndexSet<&'a [u8]>, NoMemory>
    ensures { IfOk result (λ names. AreTypeNames names (type_defs_of program.now.types.items)) }
{
    let mut names = IndexSet::new(alloc);
    for place in (0..program.types.len()).rev() {
        names.insert(program.types[place].name.as_bytes())?;
    }
    Ok(names)
}

/// The names of the functors of a program.
fn functor_names<'a>(alloc: Global, program: &'a Program) -> Result<IndexSet<&'a [u8]>, NoMemory>
    ensures { IfOk result (λ names. AreFunctorNames names (type_defs_of program.now.types.items)) }
{
    let mut names = IndexSet::new(alloc);
    for place in (0..program.types.len()).rev() {
        add_names(&mut names, &program.types[place].functors)?;
    }
    Ok(names)
}

/// Adds the names of these functors.
fn add_names<'a>(names: &mut IndexSet<&'a [u8]>, functors: &'a [Functor]) -> Result<(), NoMemory>
    ensures { OnOk result (AddsNames names.old names.new (hlds_functors_of functors.now)) }
{
    for place in (0..functors.len()).rev() {
        names.insert(functors[place].name.as_bytes())?;
    }
    Ok(())
}
