// Inputs and outputs: what a goal asks of a variable, and what it makes of it.
ghost use Rattle.std.specs.Prelude.{◌≡◌, length};
ghost use Rattle.md_hlds.specs.Hlds.{hlds_type_of, hlds_types_of, args_of};
ghost use Rattle.md_inst.specs.Simple.{types_of, pairs};
ghost use Rattle.md_inst.specs.Arguments as spec;
ghost use Rattle.md_inst.specs.Kinds.{kind_sort, inst_map_of, Leads};

use crate::ModeFault;
use crate::inst::{Inst, hand_on, inst_at, set_inst};
use crate::kind::Kind;
use md_hlds::{Mode, Ty};

/// Where a goal stands: its line, and whether it is within a condition, a negation or `some`.
#[derive(Clone, Copy)]
pub struct Spot {
    pub line: u32,
    pub strict: bool,
}

impl Spot {
    /// Whether an io state is used here; of no other type is any.
    pub fn is_spent(self, kind: Kind<'_>, used: bool) -> bool
        ensures { result ≡ spec.is_spent self.strict (kind_sort kind.entry) used }
    {
        kind.is_world() && (used || self.strict)
    }
}

/// Asks that a variable is bound with a type, and is no used io state.
pub fn input(insts: &[Inst<'_>], at: Spot, kind: Kind<'_>, place: u32) -> Result<(), ModeFault>
    ensures { Leads result (inst_map_of insts.now) (spec.input at.strict at.line (kind_sort kind.entry) place (inst_map_of insts.now)) }
{
    match inst_at(insts, place) {
        Inst::Free => Err(ModeFault::Unbound(at.line)),
        Inst::Bound(known, used) => {
            if at.is_spent(known, used) {
                Err(ModeFault::IoUsed(at.line))
            } else if known.is_same(kind) {
                Ok(())
            } else {
                Err(ModeFault::TypeClash(at.line))
            }
        }
    }
}

/// Binds a variable that isn't bound.
pub fn output<'a>(
    insts: &mut Vec<Inst<'a>>,
    at: Spot,
    kind: Kind<'a>,
    place: u32,
) -> Result<(), ModeFault>
    ensures { Leads result (inst_map_of insts.new.items) (spec.output at.strict at.line (kind_sort kind.entry) place (inst_map_of insts.old.items)) }
{
    if inst_at(insts, place).is_bound() {
        return Err(ModeFault::BoundTwice(at.line));
    }
    if kind.is_world() && at.strict {
        return Err(ModeFault::IoUsed(at.line));
    }
    set_inst(insts, place, Inst::Bound(kind, false));
    Ok(())
}

/// Binds a variable, or asks that it has the type.
pub fn give<'a>(
    insts: &mut Vec<Inst<'a>>,
    line: u32,
    kind: Kind<'a>,
    place: u32,
) -> Result<(), ModeFault>
    ensures { Leads result (inst_map_of insts.new.items) (spec.given line (kind_sort kind.entry) place (inst_map_of insts.old.items)) }
{
    match inst_at(insts, place) {
        Inst::Free => {
            set_inst(insts, place, Inst::Bound(kind, false));
            Ok(())
        }
        Inst::Bound(known, _) => {
            if known.is_same(kind) {
                Ok(())
            } else {
                Err(ModeFault::TypeClash(line))
            }
        }
    }
}

/// An argument by its mode.
pub fn argument<'a>(
    insts: &mut Vec<Inst<'a>>,
    at: Spot,
    kind: Kind<'a>,
    mode: Mode,
    place: u32,
) -> Result<(), ModeFault>
    ensures { Leads result (inst_map_of insts.new.items) (spec.argument at.strict at.line (kind_sort kind.entry) mode place (inst_map_of insts.old.items)) }
{
    match mode {
        Mode::In => input(insts, at, kind, place),
        Mode::Di => {
            input(insts, at, kind, place)?;
            hand_on(insts, place);
            Ok(())
        }
        Mode::Out => output(insts, at, kind, place),
        Mode::Uo => output(insts, at, kind, place),
    }
}

/// How many arguments a predicate or a closure has.
#[tactic(auto, using(crate::proofs::NameLemmas::length_args_of))]
pub fn arity(args: &[(Ty, Mode)]) -> usize
    ensures { result ≡ length (args_of args.now) }
{
    args.len()
}

/// How many types there are.
#[tactic(auto, using(crate::proofs::NameLemmas::length_sorts_of))]
pub fn type_count(types: &[Ty]) -> usize
    ensures { result ≡ length (hlds_types_of types.now) }
{
    types.len()
}

/// The arguments of a call, from left to right.
pub fn arguments<'a>(
    insts: &mut Vec<Inst<'a>>,
    at: Spot,
    args: &'a [(Ty, Mode)],
    places: &[u32],
) -> Result<(), ModeFault>
    ensures { Leads result (inst_map_of insts.new.items) (spec.arguments at.strict at.line (args_of args.now) places.now (inst_map_of insts.old.items)) }
{
    match args {
        [] => Ok(()),
        [arg, args @ ..] => match places {
            [] => Ok(()),
            [place, places @ ..] => {
                argument(insts, at, Kind::new(&arg.0), arg.1, *place)?;
                arguments(insts, at, args, places)
            }
        },
    }
}

/// The types and modes of a closure's arguments, side by side.
pub fn paired_arguments<'a>(
    insts: &mut Vec<Inst<'a>>,
    at: Spot,
    types: &'a [Ty],
    modes: &[Mode],
    places: &[u32],
) -> Result<(), ModeFault>
    ensures { Leads result (inst_map_of insts.new.items) (spec.arguments at.strict at.line (pairs (hlds_types_of types.now) modes.now) places.now (inst_map_of insts.old.items)) }
{
    match types {
        [] => Ok(()),
        [ty, types @ ..] => match modes {
            [] => Ok(()),
            [mode, modes @ ..] => match places {
                [] => Ok(()),
                [place, places @ ..] => {
                    argument(insts, at, Kind::new(ty), *mode, *place)?;
                    paired_arguments(insts, at, types, modes, places)
                }
            },
        },
    }
}

/// Variables that are inputs of these types.
pub fn inputs(insts: &[Inst<'_>], at: Spot, types: &[Ty], places: &[u32]) -> Result<(), ModeFault>
    ensures { Leads result (inst_map_of insts.now) (spec.inputs at.strict at.line (hlds_types_of types.now) places.now (inst_map_of insts.now)) }
{
    match types {
        [] => Ok(()),
        [ty, types @ ..] => match places {
            [] => Ok(()),
            [place, places @ ..] => {
                input(insts, at, Kind::new(ty), *place)?;
                inputs(insts, at, types, places)
            }
        },
    }
}

/// Variables that are inputs of the types of these arguments.
pub fn captures(
    insts: &[Inst<'_>],
    at: Spot,
    args: &[(Ty, Mode)],
    places: &[u32],
) -> Result<(), ModeFault>
    ensures { Leads result (inst_map_of insts.now) (spec.inputs at.strict at.line (types_of (args_of args.now)) places.now (inst_map_of insts.now)) }
{
    match args {
        [] => Ok(()),
        [arg, args @ ..] => match places {
            [] => Ok(()),
            [place, places @ ..] => {
                input(insts, at, Kind::new(&arg.0), *place)?;
                captures(insts, at, args, places)
            }
        },
    }
}

/// Variables in the places of a functor's arguments, where it is taken apart.
pub fn give_all<'a>(
    insts: &mut Vec<Inst<'a>>,
    line: u32,
    types: &'a [Ty],
    places: &[u32],
) -> Result<(), ModeFault>
    ensures { Leads result (inst_map_of insts.new.items) (spec.givens line (hlds_types_of types.now) places.now (inst_map_of insts.old.items)) }
{
    match types {
        [] => Ok(()),
        [ty, types @ ..] => match places {
            [] => Ok(()),
            [place, places @ ..] => {
                give(insts, line, Kind::new(ty), *place)?;
                give_all(insts, line, types, places)
            }
        },
    }
}
