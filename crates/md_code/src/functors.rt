// The numbers of functors.
ghost use Rattle.std.specs.Prelude.{◌≡◌, ◌+◌, [], ◌∷◌, length, IfOk, OnOk};
ghost use Rattle.md_hlds.specs.Hlds.{hlds_of, hlds_functor_of, hlds_functors_of};
ghost use Rattle.md_code.specs.Tables.{functors_of};
ghost use Rattle.md_code.specs.Numbers.{AddsFunctors, AreNumbers};

use crate::number::plus;
use indexmap::IndexMap;
use md_base::NoMemory;
use md_hlds::{Functor, Program};
use md_names::FunctorKey;
use std::alloc::Global;

/// The number of each functor of a program by its name and arity, the first where there are several, and how many functors
/// there are.
pub fn functors_of<'a>(
    alloc: Global,
    program: &'a Program,
) -> Result<(IndexMap<FunctorKey<'a>, u32>, u32), NoMemory>
    ensures numbers { IfOk result (λ found. AreNumbers found.0 (functors_of (hlds_of program.now))) }
    ensures count { IfOk result (λ found. found.1 ≡ length (functors_of (hlds_of program.now))) }
{
    let mut numbers = IndexMap::new(alloc);
    let mut number = 0;
    for family in program.types.as_slice() {
        number = add_functors(&mut numbers, family.functors.as_slice(), number)?;
    }
    Ok((numbers, number))
}

/// Adds functors that have these numbers from the first on, and tells the number after them.
fn add_functors<'a>(
    numbers: &mut IndexMap<FunctorKey<'a>, u32>,
    functors: &'a [Functor],
    first: u32,
) -> Result<u32, NoMemory>
    ensures adds { OnOk result (AddsFunctors numbers.old numbers.new first (hlds_functors_of functors.now)) }
    ensures next { IfOk result (λ next. next ≡ first + length functors.now) }
{
    let mut number = first;
    for functor in functors {
        add_functor(numbers, functor, number)?;
        number = plus(number, 1)?;
    }
    Ok(number)
}

/// Adds a functor, if none of its name and arity is there.
fn add_functor<'a>(
    numbers: &mut IndexMap<FunctorKey<'a>, u32>,
    functor: &'a Functor,
    number: u32,
) -> Result<(), NoMemory>
    ensures { OnOk result (AddsFunctors numbers.old numbers.new number (hlds_functor_of functor.now ∷ [])) }
{
    let key = FunctorKey {
        name: functor.name.as_bytes(),
        arity: functor.args.len(),
    };
    if numbers.contains_key(&key) {
        return Ok(());
    }
    numbers.insert(key, number)?;
    Ok(())
}
