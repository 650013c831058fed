// The checks of declarations: of types, and of predicates.
ghost use Rattle.std.specs.Prelude.{◌≡◌};
ghost use Rattle.md_hlds.specs.Hlds.{hlds_of, type_defs_of, hlds_functors_of, procedures_of, hlds_types_of, args_of, gathered_types};
ghost use Rattle.md_inst.specs.Simple.{types_of, modes_of};
ghost use Rattle.md_modes.specs.Declarations as spec;
ghost use Rattle.md_inst.specs.Kinds.{kind_sort, Finds};

use md_hlds::{Functor, Mode, Pred, Ty, TypeDef};
use md_inst::{Kind, ModeFault};
use md_names::Names;

/// Checks the declarations of these types of a program.
pub fn check_types(names: &Names<'_>, types: &[TypeDef]) -> Result<(), ModeFault>
    ensures { Finds result (spec.families (hlds_of names.now).types (type_defs_of types.now)) }
{
    for ty in types {
        check_functors(names, ty.line, ty.functors.as_slice())?;
    }
    Ok(())
}

fn check_functors(names: &Names<'_>, line: u32, functors: &[Functor]) -> Result<(), ModeFault>
    ensures { Finds result (spec.functors (hlds_of names.now).types line (hlds_functors_of functors.now)) }
{
    for functor in functors {
        check_parts(names, line, functor.args.as_slice())?;
    }
    Ok(())
}

/// Checks the arguments of a functor.
fn check_parts(names: &Names<'_>, line: u32, types: &[Ty]) -> Result<(), ModeFault>
    ensures { Finds result (spec.parts (hlds_of names.now).types line (hlds_types_of types.now)) }
{
    match types {
        [] => Ok(()),
        [ty, types @ ..] => {
            check_part(names, line, Kind::new(ty))?;
            check_parts(names, line, types)
        }
    }
}

fn check_part(names: &Names<'_>, line: u32, kind: Kind<'_>) -> Result<(), ModeFault>
    ensures { Finds result (spec.part (hlds_of names.now).types line (kind_sort kind.entry)) }
{
    if !is_known(names, kind) {
        return Err(ModeFault::UnknownName(line));
    }
    if !is_plain_pair(kind, Mode::In) {
        return Err(ModeFault::TypeClash(line));
    }
    Ok(())
}

/// Checks the declarations of these predicates of a program.
pub fn check_predicates(names: &Names<'_>, preds: &[Pred]) -> Result<(), ModeFault>
    ensures { Finds result (spec.procedures (hlds_of names.now).types (procedures_of preds.now)) }
{
    for pred in preds {
        check_arguments(names, pred.line, pred.args.as_slice())?;
    }
    Ok(())
}

fn check_arguments(names: &Names<'_>, line: u32, args: &[(Ty, Mode)]) -> Result<(), ModeFault>
    ensures { Finds result (spec.arguments (hlds_of names.now).types line (args_of args.now)) }
{
    match args {
        [] => Ok(()),
        [arg, args @ ..] => {
            check_argument(names, line, Kind::new(&arg.0), arg.1)?;
            check_arguments(names, line, args)
        }
    }
}

fn check_argument(names: &Names<'_>, line: u32, kind: Kind<'_>, mode: Mode) -> Result<(), ModeFault>
    ensures { Finds result (spec.argument (hlds_of names.now).types line (kind_sort kind.entry, mode)) }
{
    if !is_known(names, kind) {
        return Err(ModeFault::UnknownName(line));
    }
    if !is_pair(kind, mode) {
        return Err(ModeFault::TypeClash(line));
    }
    Ok(())
}

/// Whether a type is declared; of a higher-order type, whether those of its arguments are.
fn is_known(names: &Names<'_>, kind: Kind<'_>) -> bool
    ensures { result ≡ spec.is_known (hlds_of names.now).types (kind_sort kind.entry) }
{
    match kind {
        Kind::Number | Kind::Text | Kind::World => true,
        Kind::Named(name) => names.has_type(name),
        Kind::Closure(ho) => are_declared(names, ho.types.as_slice()),
        Kind::Open(args, _) => have_declared(names, args),
    }
}

fn are_declared(names: &Names<'_>, types: &[Ty]) -> bool
    ensures { result ≡ spec.are_declared (hlds_of names.now).types (gathered_types (hlds_types_of types.now)) }
{
    match types {
        [] => true,
        [ty, types @ ..] => is_declared(names, Kind::new(ty)) && are_declared(names, types),
    }
}

/// Whether the types of these arguments are declared.
fn have_declared(names: &Names<'_>, args: &[(Ty, Mode)]) -> bool
    ensures { result ≡ spec.are_declared (hlds_of names.now).types (gathered_types (types_of (args_of args.now))) }
{
    match args {
        [] => true,
        [arg, args @ ..] => is_declared(names, Kind::new(&arg.0)) && have_declared(names, args),
    }
}

fn is_declared(names: &Names<'_>, kind: Kind<'_>) -> bool
    ensures { result ≡ spec.is_declared (hlds_of names.now).types (kind_sort kind.entry) }
{
    match kind {
        Kind::Named(name) => names.has_type(name),
        Kind::Number | Kind::Text | Kind::World | Kind::Closure(_) | Kind::Open(..) => true,
    }
}

/// Whether a mode is the type's own; of a higher-order type, whether those of its arguments are theirs too.
fn is_pair(kind: Kind<'_>, mode: Mode) -> bool
    ensures { result ≡ spec.is_pair (kind_sort kind.entry) mode }
{
    match kind {
        Kind::Closure(ho) => {
            are_pairs(ho.types.as_slice(), ho.modes.as_slice()) && !is_of_world(mode)
        }
        Kind::Open(args, _) => have_pairs(args) && !is_of_world(mode),
        Kind::Number | Kind::Text | Kind::World | Kind::Named(_) => is_plain_pair(kind, mode),
    }
}

fn are_pairs(types: &[Ty], modes: &[Mode]) -> bool
    ensures { result ≡ spec.are_pairs (gathered_types (hlds_types_of types.now)) modes.now }
{
    match types {
        [] => match modes {
            [] => true,
            [_, ..] => false,
        },
        [ty, types @ ..] => match modes {
            [] => false,
            [mode, modes @ ..] => is_plain_pair(Kind::new(ty), *mode) && are_pairs(types, modes),
        },
    }
}

/// Whether these arguments have modes of their own.
fn have_pairs(args: &[(Ty, Mode)]) -> bool
    ensures { result ≡ spec.are_pairs (gathered_types (types_of (args_of args.now))) (modes_of (args_of args.now)) }
{
    match args {
        [] => true,
        [arg, args @ ..] => is_plain_pair(Kind::new(&arg.0), arg.1) && have_pairs(args),
    }
}

/// Whether a mode is the type's own, and the type of no higher order.
fn is_plain_pair(kind: Kind<'_>, mode: Mode) -> bool
    ensures { result ≡ spec.is_plain_pair (kind_sort kind.entry) mode }
{
    match kind {
        Kind::World => is_of_world(mode),
        Kind::Closure(_) | Kind::Open(..) => false,
        Kind::Number | Kind::Text | Kind::Named(_) => !is_of_world(mode),
    }
}

fn is_of_world(mode: Mode) -> bool
    ensures { result ≡ spec.is_of_world mode }
{
    match mode {
        Mode::In | Mode::Out => false,
        Mode::Di | Mode::Uo => true,
    }
}
