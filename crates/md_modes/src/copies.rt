// Copies of the types of closures.
ghost use Rattle.std.specs.Prelude.{◌≡◌, IfOk};
ghost use Rattle.md_hlds.specs.Hlds.{hlds_type_of, hlds_types_of, args_of};
ghost use Rattle.md_inst.specs.Simple.{types_of, modes_of};

use md_base::NoMemory;
use md_hlds::{Det, HoTy, Mode, Ty};
use std::alloc::Global;

/// The same higher-order type once more.
#[cycle(copies)]
pub fn copy_closure(alloc: Global, ho: &HoTy) -> Result<HoTy, NoMemory>
    ensures types { IfOk result (λ copy. hlds_types_of copy.types.items ≡ hlds_types_of ho.now.types.items) }
    ensures modes { IfOk result (λ copy. copy.modes.items ≡ ho.now.modes.items) }
    ensures det { IfOk result (λ copy. copy.det ≡ ho.now.det) }
{
    Ok(HoTy {
        types: copy_types(alloc, &ho.types)?,
        modes: Vec::from_slice(alloc, &ho.modes)?,
        det: ho.det,
    })
}

#[cycle(copies)]
fn copy_types(alloc: Global, types: &[Ty]) -> Result<Vec<Ty>, NoMemory>
    ensures { IfOk result (λ copies. hlds_types_of copies.items ≡ hlds_types_of types.now) }
{
    let mut copies = Vec::with_capacity(alloc, types.len())?;
    for ty in types {
        copies.push(copy_type(alloc, ty)?)?;
    }
    Ok(copies)
}

#[cycle(copies)]
fn copy_type(alloc: Global, ty: &Ty) -> Result<Ty, NoMemory>
    ensures { IfOk result (λ copy. hlds_type_of copy ≡ hlds_type_of ty.now) }
{
    match ty {
        Ty::Int => Ok(Ty::Int),
        Ty::Str => Ok(Ty::Str),
        Ty::Io => Ok(Ty::Io),
        Ty::User(name) => Ok(Ty::User(name.copy(alloc)?)),
        Ty::Ho(ho) => Ok(Ty::Ho(copy_closure(alloc, ho)?)),
    }
}

/// The type of a closure of a predicate that is declared so, with these arguments left.
pub fn open_closure(alloc: Global, args: &[(Ty, Mode)], det: Det) -> Result<HoTy, NoMemory>
    ensures types { IfOk result (λ left. hlds_types_of left.types.items ≡ types_of (args_of args.now)) }
    ensures modes { IfOk result (λ left. left.modes.items ≡ modes_of (args_of args.now)) }
    ensures det { IfOk result (λ left. left.det ≡ det) }
{
    Ok(HoTy {
        types: types_of(alloc, args)?,
        modes: modes_of(alloc, args)?,
        det,
    })
}

fn types_of(alloc: Global, args: &[(Ty, Mode)]) -> Result<Vec<Ty>, NoMemory>
    ensures { IfOk result (λ types. hlds_types_of types.items ≡ types_of (args_of args.now)) }
{
    let mut types = Vec::with_capacity(alloc, args.len())?;
    for arg in args {
        types.push(copy_type(alloc, &arg.0)?)?;
    }
    Ok(types)
}

fn modes_of(alloc: Global, args: &[(Ty, Mode)]) -> Result<Vec<Mode>, NoMemory>
    ensures { IfOk result (λ modes. modes.items ≡ modes_of (args_of args.now)) }
{
    let mut modes = Vec::with_capacity(alloc, args.len())?;
    for arg in args {
        modes.push(arg.1)?;
    }
    Ok(modes)
}
