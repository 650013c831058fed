// Functors by their names and arities.
ghost use Rattle.std.specs.Prelude.{ℕ, ◌≡◌, List, IfOk, OnOk};
ghost use Rattle.md_hlds.specs.Hlds.{type_def_of, type_defs_of};
ghost use Rattle.md_names.specs.Named.{construct_among, found_in};
ghost use Rattle.md_names.specs.Maps.{functor_in, AreFunctors};

use crate::key::FunctorKey;
use indexmap::IndexMap;
use md_base::NoMemory;
use md_hlds::{Functor, Program, TypeDef};
use std::alloc::Global;

/// A functor with its type, and with the type's place among those of the program.
#[derive(Clone, Copy)]
pub struct Declared<'a> {
    pub place: usize,
    pub family: &'a TypeDef,
    pub functor: &'a Functor,
}

/// The first functor of each name and arity.
pub fn functors_of<'a>(
    alloc: Global,
    program: &'a Program,
) -> Result<IndexMap<FunctorKey<'a>, Declared<'a>>, NoMemory>
    ensures { IfOk result (λ functors. AreFunctors functors (type_defs_of program.now.types.items)) }
{
    let mut functors = IndexMap::new(alloc);
    for place in (0..program.types.len()).rev() {
        add_functors(&mut functors, place, &program.types[place])?;
    }
    Ok(functors)
}

/// Adds the functors of the type at this place, each in place of a later one.
fn add_functors<'a>(
    functors: &mut IndexMap<FunctorKey<'a>, Declared<'a>>,
    place: usize,
    family: &'a TypeDef,
) -> Result<(), NoMemory>
    ensures { OnOk result ((name : List ℕ) → (arity : ℕ) → functor_in functors.new name arity
        ≡ found_in (place, type_def_of family.now) (construct_among name arity (type_def_of family.now).functors) (functor_in functors.old name arity)) }
{
    for number in (0..family.functors.len()).rev() {
        let functor = &family.functors[number];
        let key = FunctorKey {
            name: functor.name.as_bytes(),
            arity: functor.args.len(),
        };
        let declared = Declared {
            place,
            family,
            functor,
        };
        functors.insert(key, declared)?;
    }
    Ok(())
}
