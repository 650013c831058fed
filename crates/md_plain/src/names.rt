// What a program has under a name.
ghost use Rattle.std.specs.Prelude.{◌≡◌, ◌&&◌, nat_eq, length, slice_get, IfOk};
ghost use Rattle.std.specs.Str.{bytes_eq};
ghost use Rattle.md_hlds.specs.Hlds.{hlds_of, procedures_of, type_defs_of, hlds_functor_of, hlds_functors_of, procedure_of, same_qualifier, is_called, find_procedure, procedure_called, nth_procedure, numbered, declares_functor, has_functor, is_functor};
ghost use Rattle.md_plain.specs.Names.{option_procedure};

use crate::value::next;
use md_base::{Name, NoMemory};
use md_hlds::{Functor, Pred, PredName, Program, TypeDef};

/// The first procedure of that name, with its number.
pub fn procedure_called<'a>(
    program: &'a Program,
    name: &PredName,
) -> Result<Option<(u64, &'a Pred)>, NoMemory>
    ensures { IfOk result (λ found. option_procedure found ≡ procedure_called (hlds_of program.now) name.now) }
{
    find_procedure(program.preds.as_slice(), name, 0)
}

/// The procedure of that number, with the number.
pub fn nth_procedure(program: &Program, number: u64) -> Option<(u64, &Pred)>
    ensures { option_procedure result ≡ nth_procedure (hlds_of program.now) number }
{
    nth_from(program.preds.as_slice(), number, number)
}

/// Whether a term of this name with so many arguments is a functor.
pub fn is_functor(program: &Program, name: &PredName, arity: usize) -> bool
    ensures { result ≡ is_functor (hlds_of program.now) name.now arity }
{
    match name.qualifier {
        None => has_functor(program.types.as_slice(), name.name.as_bytes(), arity),
        Some(_) => false,
    }
}

/// The first of these procedures of that name, with its number, counted on from `number`.
fn find_procedure<'a>(
    preds: &'a [Pred],
    name: &PredName,
    number: u64,
) -> Result<Option<(u64, &'a Pred)>, NoMemory>
    ensures { IfOk result (λ found. option_procedure found ≡ find_procedure name.now number (procedures_of preds.now)) }
{
    match preds {
        [] => Ok(None),
        [pred, rest @ ..] => {
            if is_called(name, pred) {
                return Ok(Some((number, pred)));
            }
            find_procedure(rest, name, next(number)?)
        }
    }
}

fn is_called(name: &PredName, pred: &Pred) -> bool
    ensures { result ≡ is_called name.now (procedure_of pred.now) }
{
    same_qualifier(&name.qualifier, &pred.qualifier) && name.name.as_bytes() == pred.name.as_bytes()
}

fn same_qualifier(one: &Option<Name>, other: &Option<Name>) -> bool
    ensures { result ≡ same_qualifier one.now other.now }
{
    match one {
        None => match other {
            None => true,
            Some(_) => false,
        },
        Some(m) => match other {
            None => false,
            Some(n) => m.as_bytes() == n.as_bytes(),
        },
    }
}

fn nth_from(preds: &[Pred], place: u64, number: u64) -> Option<(u64, &Pred)>
    ensures { option_procedure result ≡ numbered number (slice_get (procedures_of preds.now) place) }
{
    match preds {
        [] => None,
        [pred, rest @ ..] => {
            if place == 0 {
                return Some((number, pred));
            }
            nth_from(rest, place - 1, number)
        }
    }
}

fn has_functor(types: &[TypeDef], name: &[u8], arity: usize) -> bool
    ensures { result ≡ has_functor name.now arity (type_defs_of types.now) }
{
    match types {
        [] => false,
        [first, rest @ ..] => {
            if declares_functor(first.functors.as_slice(), name, arity) {
                return true;
            }
            has_functor(rest, name, arity)
        }
    }
}

fn declares_functor(functors: &[Functor], name: &[u8], arity: usize) -> bool
    ensures { result ≡ declares_functor name.now arity (hlds_functors_of functors.now) }
{
    match functors {
        [] => false,
        [first, rest @ ..] => {
            if is_declared_by(first, name, arity) {
                return true;
            }
            declares_functor(rest, name, arity)
        }
    }
}

#[tactic(auto, using(crate::proofs::GoalLemmas::length_types))]
fn is_declared_by(functor: &Functor, name: &[u8], arity: usize) -> bool
    ensures { result ≡ (bytes_eq name.now (hlds_functor_of functor.now).name && nat_eq arity (length (hlds_functor_of functor.now).args)) }
{
    name == functor.name.as_bytes() && arity == functor.args.len()
}
