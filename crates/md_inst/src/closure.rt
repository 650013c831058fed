// The arguments of higher-order types, one after the other.
ghost use Rattle.std.specs.Prelude.{◌≡◌};
ghost use Rattle.md_hlds.specs.Hlds.{hlds_type_of, hlds_types_of, args_of, gathered_types};
ghost use Rattle.md_inst.specs.HldsTypes.{same_plain, same_sorts, same_modes, same_mode, same_det};
ghost use Rattle.md_inst.specs.Simple.{types_of, modes_of};

use crate::kind::Kind;
use md_hlds::{Det, Mode, Ty};

pub fn same_types(a: &[Ty], b: &[Ty]) -> bool
    ensures { result ≡ same_sorts (gathered_types (hlds_types_of a.now)) (gathered_types (hlds_types_of b.now)) }
{
    match a {
        [] => match b {
            [] => true,
            [_, ..] => false,
        },
        [ty, more @ ..] => match b {
            [] => false,
            [other, others @ ..] => same_plain(ty, other) && same_types(more, others),
        },
    }
}

/// Whether arguments of a predicate have these types.
pub fn are_types(args: &[(Ty, Mode)], types: &[Ty]) -> bool
    ensures { result ≡ same_sorts (gathered_types (types_of (args_of args.now))) (gathered_types (hlds_types_of types.now)) }
{
    match args {
        [] => match types {
            [] => true,
            [_, ..] => false,
        },
        [arg, args @ ..] => match types {
            [] => false,
            [ty, types @ ..] => same_plain(&arg.0, ty) && are_types(args, types),
        },
    }
}

/// Whether these are the types of arguments of a predicate.
pub fn types_are(types: &[Ty], args: &[(Ty, Mode)]) -> bool
    ensures { result ≡ same_sorts (gathered_types (hlds_types_of types.now)) (gathered_types (types_of (args_of args.now))) }
{
    match types {
        [] => match args {
            [] => true,
            [_, ..] => false,
        },
        [ty, types @ ..] => match args {
            [] => false,
            [arg, args @ ..] => same_plain(ty, &arg.0) && types_are(types, args),
        },
    }
}

pub fn have_same_types(a: &[(Ty, Mode)], b: &[(Ty, Mode)]) -> bool
    ensures { result ≡ same_sorts (gathered_types (types_of (args_of a.now))) (gathered_types (types_of (args_of b.now))) }
{
    match a {
        [] => match b {
            [] => true,
            [_, ..] => false,
        },
        [arg, more @ ..] => match b {
            [] => false,
            [other, others @ ..] => same_plain(&arg.0, &other.0) && have_same_types(more, others),
        },
    }
}

/// Whether two types of no higher order are the same.
fn same_plain(a: &Ty, b: &Ty) -> bool
    ensures { result ≡ same_plain (hlds_type_of a.now) (hlds_type_of b.now) }
{
    Kind::new(a).is_same_plain(Kind::new(b))
}

pub fn same_modes(a: &[Mode], b: &[Mode]) -> bool
    ensures { result ≡ same_modes a.now b.now }
{
    match a {
        [] => match b {
            [] => true,
            [_, ..] => false,
        },
        [mode, more @ ..] => match b {
            [] => false,
            [other, others @ ..] => same_mode(*mode, *other) && same_modes(more, others),
        },
    }
}

/// Whether arguments of a predicate have these modes.
pub fn are_modes(args: &[(Ty, Mode)], modes: &[Mode]) -> bool
    ensures { result ≡ same_modes (modes_of (args_of args.now)) modes.now }
{
    match args {
        [] => match modes {
            [] => true,
            [_, ..] => false,
        },
        [arg, args @ ..] => match modes {
            [] => false,
            [mode, modes @ ..] => same_mode(arg.1, *mode) && are_modes(args, modes),
        },
    }
}

/// Whether these are the modes of arguments of a predicate.
pub fn modes_are(modes: &[Mode], args: &[(Ty, Mode)]) -> bool
    ensures { result ≡ same_modes modes.now (modes_of (args_of args.now)) }
{
    match modes {
        [] => match args {
            [] => true,
            [_, ..] => false,
        },
        [mode, modes @ ..] => match args {
            [] => false,
            [arg, args @ ..] => same_mode(*mode, arg.1) && modes_are(modes, args),
        },
    }
}

pub fn have_same_modes(a: &[(Ty, Mode)], b: &[(Ty, Mode)]) -> bool
    ensures { result ≡ same_modes (modes_of (args_of a.now)) (modes_of (args_of b.now)) }
{
    match a {
        [] => match b {
            [] => true,
            [_, ..] => false,
        },
        [arg, more @ ..] => match b {
            [] => false,
            [other, others @ ..] => same_mode(arg.1, other.1) && have_same_modes(more, others),
        },
    }
}

fn same_mode(a: Mode, b: Mode) -> bool
    ensures { result ≡ same_mode a b }
{
    match (a, b) {
        (Mode::In, Mode::In) => true,
        (Mode::Out, Mode::Out) => true,
        (Mode::Di, Mode::Di) => true,
        (Mode::Uo, Mode::Uo) => true,
        _ => false,
    }
}

pub fn same_det(a: Det, b: Det) -> bool
    ensures { result ≡ same_det a b }
{
    match (a, b) {
        (Det::Det, Det::Det) => true,
        (Det::Semidet, Det::Semidet) => true,
        (Det::Multi, Det::Multi) => true,
        (Det::Nondet, Det::Nondet) => true,
        (Det::Failure, Det::Failure) => true,
        _ => false,
    }
}
