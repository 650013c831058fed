// Unifications.
ghost use Rattle.std.specs.Prelude.{◌≡◌};
ghost use Rattle.md_hlds.specs.Hlds.{hlds_of, procedure_of, args_of};
ghost use Rattle.md_inst.specs.Simple as spec;
ghost use Rattle.md_inst.specs.Found.{functor_of_found, predicate_found};
ghost use Rattle.md_inst.specs.Kinds.{kind_sort, inst_map_of, Leads, Finds};

use crate::ModeFault;
use crate::argument::{Spot, arity, captures, give, give_all, inputs};
use crate::inst::{Inst, hand_on, inst_at, set_inst};
use crate::kind::Kind;
use crate::names::{Found, functor_called, is_name_of_functor, predicate_called};
use md_hlds::{Det, Mode, Pred, PredName, Term, Ty};
use md_names::Names;

/// `X = T`.
pub fn unify<'a>(
    names: &Names<'a>,
    insts: &mut Vec<Inst<'a>>,
    at: Spot,
    x: u32,
    term: &Term,
) -> Result<(), ModeFault>
    ensures { Leads result (inst_map_of insts.new.items) (spec.unify (hlds_of names.now) at.strict at.line x term.now (inst_map_of insts.old.items)) }
{
    match term {
        Term::Var(y) => unify_variables(insts, at, x, *y),
        Term::Int(_) => give(insts, at.line, Kind::Number, x),
        Term::Str(_) => give(insts, at.line, Kind::Text, x),
        Term::Name(name, places) => unify_name(names, insts, at, x, name, places.as_slice()),
    }
}

/// `X = Y`.
fn unify_variables(insts: &mut Vec<Inst<'_>>, at: Spot, x: u32, y: u32) -> Result<(), ModeFault>
    ensures { Leads result (inst_map_of insts.new.items) (spec.unify_variables at.strict at.line x y (inst_map_of insts.old.items)) }
{
    match inst_at(insts, x) {
        Inst::Free => match inst_at(insts, y) {
            Inst::Free => Err(ModeFault::Unbound(at.line)),
            Inst::Bound(kind, used) => assign(insts, at, y, x, kind, used),
        },
        Inst::Bound(kind, used) => match inst_at(insts, y) {
            Inst::Free => assign(insts, at, x, y, kind, used),
            Inst::Bound(other, _) => test(at.line, kind, other),
        },
    }
}

/// Hands one variable on to another, which isn't bound.
fn assign<'a>(
    insts: &mut Vec<Inst<'a>>,
    at: Spot,
    from: u32,
    to: u32,
    kind: Kind<'a>,
    used: bool,
) -> Result<(), ModeFault>
    ensures { Leads result (inst_map_of insts.new.items) (spec.assign at.strict at.line from to (kind_sort kind.entry) used (inst_map_of insts.old.items)) }
{
    if at.is_spent(kind, used) {
        return Err(ModeFault::IoUsed(at.line));
    }
    hand_on(insts, from);
    set_inst(insts, to, Inst::Bound(kind, false));
    Ok(())
}

/// Compares two bound variables of these types.
fn test(line: u32, kind: Kind<'_>, other: Kind<'_>) -> Result<(), ModeFault>
    ensures { Finds result (spec.test line (kind_sort kind.entry) (kind_sort other.entry)) }
{
    if !kind.is_same(other) {
        return Err(ModeFault::TypeClash(line));
    }
    if kind.is_closure() {
        return Err(ModeFault::ClosureTest(line));
    }
    if kind.is_world() {
        return Err(ModeFault::IoUsed(line));
    }
    Ok(())
}

/// `X = f(Y1, .., Yn)`, where f is a functor of arity n or else a predicate.
fn unify_name<'a>(
    names: &Names<'a>,
    insts: &mut Vec<Inst<'a>>,
    at: Spot,
    x: u32,
    name: &PredName,
    places: &[u32],
) -> Result<(), ModeFault>
    ensures { Leads result (inst_map_of insts.new.items) (spec.unify_name (hlds_of names.now) at.strict at.line x name.now places.now (inst_map_of insts.old.items)) }
{
    if let Some(found) = functor_called(names, name, places.len()) {
        return unify_functor(insts, at, x, found, places);
    }
    if let Some(pred) = predicate_called(names, name) {
        return close(insts, at.line, x, pred, places);
    }
    if is_name_of_functor(names, name) {
        return Err(ModeFault::Arity(at.line));
    }
    Err(ModeFault::UnknownName(at.line))
}

/// Makes a term of a functor, or takes one apart.
fn unify_functor<'a>(
    insts: &mut Vec<Inst<'a>>,
    at: Spot,
    x: u32,
    found: Found<'a>,
    places: &[u32],
) -> Result<(), ModeFault>
    ensures { Leads result (inst_map_of insts.new.items) (spec.unify_functor at.strict at.line x (functor_of_found found.entry) places.now (inst_map_of insts.old.items)) }
{
    let made = Kind::Named(found.makes);
    match inst_at(insts, x) {
        Inst::Free => {
            inputs(insts, at, found.args, places)?;
            set_inst(insts, x, Inst::Bound(made, false));
            Ok(())
        }
        Inst::Bound(kind, _) => {
            if !kind.is_same(made) {
                return Err(ModeFault::TypeClash(at.line));
            }
            give_all(insts, at.line, found.args, places)
        }
    }
}

/// Makes a closure of a predicate with its first arguments.
fn close<'a>(
    insts: &mut Vec<Inst<'a>>,
    line: u32,
    x: u32,
    pred: &'a Pred,
    places: &[u32],
) -> Result<(), ModeFault>
    ensures { Leads result (inst_map_of insts.new.items) (spec.close line x (procedure_of pred.now) places.now (inst_map_of insts.old.items)) }
{
    let args = pred.args.as_slice();
    if places.len() >= arity(args) {
        return Err(ModeFault::Arity(line));
    }
    if inst_at(insts, x).is_bound() {
        return Err(ModeFault::ClosureTest(line));
    }
    let (held, others) = args.split_at(places.len());
    capture(insts, line, x, held, others, pred.det, places)
}

/// Makes a closure that holds these arguments and has others left.
fn capture<'a>(
    insts: &mut Vec<Inst<'a>>,
    line: u32,
    x: u32,
    held: &[(Ty, Mode)],
    others: &'a [(Ty, Mode)],
    det: Det,
    places: &[u32],
) -> Result<(), ModeFault>
    ensures { Leads result (inst_map_of insts.new.items) (spec.capture line x (args_of held.now) (args_of others.now) det places.now (inst_map_of insts.old.items)) }
{
    if !can_close(held, others) {
        return Err(ModeFault::TypeClash(line));
    }
    captures(insts, Spot { line, strict: true }, held, places)?;
    set_inst(insts, x, Inst::Bound(Kind::Open(others, det), false));
    Ok(())
}

/// Whether a closure can hold these arguments and have others left.
fn can_close(held: &[(Ty, Mode)], others: &[(Ty, Mode)]) -> bool
    ensures { result ≡ spec.can_close (args_of held.now) (args_of others.now) }
{
    are_in(held) && are_first_order(others)
}

/// Whether these arguments all have the mode `in`.
fn are_in(args: &[(Ty, Mode)]) -> bool
    ensures { result ≡ spec.are_in (args_of args.now) }
{
    match args {
        [] => true,
        [arg, args @ ..] => is_in(arg.1) && are_in(args),
    }
}

fn is_in(mode: Mode) -> bool
    ensures { result ≡ spec.is_in mode }
{
    match mode {
        Mode::In => true,
        Mode::Out | Mode::Di | Mode::Uo => false,
    }
}

/// Whether none of these arguments is of a higher-order type.
fn are_first_order(args: &[(Ty, Mode)]) -> bool
    ensures { result ≡ spec.are_first_order (args_of args.now) }
{
    match args {
        [] => true,
        [arg, args @ ..] => !Kind::new(&arg.0).is_closure() && are_first_order(args),
    }
}
