// Calls, and the goals that are checked as calls.
ghost use Rattle.std.specs.Prelude.{◌≡◌, [], ◌∷◌};
ghost use Rattle.md_hlds.specs.Hlds.{hlds_of, procedure_of, args_of, hlds_types_of};
ghost use Rattle.md_inst.specs.Simple as spec;
ghost use Rattle.md_inst.specs.Arguments.{arguments as Arguments};
ghost use Rattle.md_inst.specs.Kinds.{kind_sort, inst_map_of, Leads};

use crate::ModeFault;
use crate::argument::{
    Spot, argument, arguments, arity, input, output, paired_arguments, type_count,
};
use crate::inst::{Inst, inst_at};
use crate::kind::Kind;
use crate::names::predicate_called;
use md_hlds::{Mode, PredName, Ty};
use md_names::Names;

/// A call of a predicate.
pub fn call<'a>(
    names: &Names<'a>,
    insts: &mut Vec<Inst<'a>>,
    at: Spot,
    name: &PredName,
    places: &[u32],
) -> Result<(), ModeFault>
    ensures { Leads result (inst_map_of insts.new.items) (spec.call (hlds_of names.now) at.strict at.line name.now places.now (inst_map_of insts.old.items)) }
{
    let Some(pred) = predicate_called(names, name) else {
        return Err(ModeFault::UnknownName(at.line));
    };
    if places.len() != arity(&pred.args) {
        return Err(ModeFault::Arity(at.line));
    }
    arguments(insts, at, &pred.args, places)
}

/// A call of the closure that a variable has.
pub fn apply(
    insts: &mut Vec<Inst<'_>>,
    at: Spot,
    closure: u32,
    places: &[u32],
) -> Result<(), ModeFault>
    ensures { Leads result (inst_map_of insts.new.items) (spec.apply at.strict at.line closure places.now (inst_map_of insts.old.items)) }
{
    match inst_at(insts, closure) {
        Inst::Free => Err(ModeFault::Unbound(at.line)),
        Inst::Bound(kind, used) => {
            if at.is_spent(kind, used) {
                return Err(ModeFault::IoUsed(at.line));
            }
            apply_kind(insts, at, kind, places)
        }
    }
}

/// A call of a closure of this type.
fn apply_kind<'a>(
    insts: &mut Vec<Inst<'a>>,
    at: Spot,
    kind: Kind<'a>,
    places: &[u32],
) -> Result<(), ModeFault>
    ensures { Leads result (inst_map_of insts.new.items) (spec.apply_sort at.strict at.line places.now (kind_sort kind.entry) (inst_map_of insts.old.items)) }
{
    match kind {
        Kind::Closure(ho) => apply_closure(insts, at, &ho.types, &ho.modes, places),
        Kind::Open(args, _) => apply_open(insts, at, args, places),
        Kind::Number | Kind::Text | Kind::World | Kind::Named(_) => {
            Err(ModeFault::TypeClash(at.line))
        }
    }
}

/// A call of a closure with these types and modes.
fn apply_closure<'a>(
    insts: &mut Vec<Inst<'a>>,
    at: Spot,
    types: &'a [Ty],
    modes: &[Mode],
    places: &[u32],
) -> Result<(), ModeFault>
    ensures { Leads result (inst_map_of insts.new.items) (spec.apply_pairs at.strict at.line places.now (hlds_types_of types.now) modes.now (inst_map_of insts.old.items)) }
{
    if places.len() != type_count(types) {
        return Err(ModeFault::Arity(at.line));
    }
    paired_arguments(insts, at, types, modes, places)
}

/// A call of a closure that has these arguments left.
fn apply_open<'a>(
    insts: &mut Vec<Inst<'a>>,
    at: Spot,
    args: &'a [(Ty, Mode)],
    places: &[u32],
) -> Result<(), ModeFault>
    ensures { Leads result (inst_map_of insts.new.items) (spec.call_with at.strict at.line places.now (args_of args.now) (inst_map_of insts.old.items)) }
{
    if places.len() != arity(args) {
        return Err(ModeFault::Arity(at.line));
    }
    arguments(insts, at, args, places)
}

/// `Z = A + B` and the like.
pub fn compute(insts: &mut Vec<Inst<'_>>, at: Spot, z: u32, a: u32, b: u32) -> Result<(), ModeFault>
    ensures { Leads result (inst_map_of insts.new.items) (Arguments at.strict at.line spec.arithmetic (z ∷ a ∷ b ∷ []) (inst_map_of insts.old.items)) }
{
    output(insts, at, Kind::Number, z)?;
    input(insts, at, Kind::Number, a)?;
    input(insts, at, Kind::Number, b)?;
    Ok(())
}

/// `A < B` and the like.
pub fn compare(insts: &[Inst<'_>], at: Spot, a: u32, b: u32) -> Result<(), ModeFault>
    ensures { Leads result (inst_map_of insts.now) (Arguments at.strict at.line spec.comparison (a ∷ b ∷ []) (inst_map_of insts.now)) }
{
    input(insts, at, Kind::Number, a)?;
    input(insts, at, Kind::Number, b)?;
    Ok(())
}

/// A write of a number or a literal.
pub fn write<'a>(
    insts: &mut Vec<Inst<'a>>,
    at: Spot,
    kind: Kind<'a>,
    x: u32,
    before: u32,
    after: u32,
) -> Result<(), ModeFault>
    ensures { Leads result (inst_map_of insts.new.items) (Arguments at.strict at.line (spec.builtin (kind_sort kind.entry)) (x ∷ before ∷ after ∷ []) (inst_map_of insts.old.items)) }
{
    input(insts, at, kind, x)?;
    argument(insts, at, Kind::World, Mode::Di, before)?;
    output(insts, at, Kind::World, after)?;
    Ok(())
}

/// The end of a line.
pub fn end_line(
    insts: &mut Vec<Inst<'_>>,
    at: Spot,
    before: u32,
    after: u32,
) -> Result<(), ModeFault>
    ensures { Leads result (inst_map_of insts.new.items) (Arguments at.strict at.line spec.line_end (before ∷ after ∷ []) (inst_map_of insts.old.items)) }
{
    argument(insts, at, Kind::World, Mode::Di, before)?;
    output(insts, at, Kind::World, after)?;
    Ok(())
}

/// `require.error(S)`.
pub fn raise(insts: &[Inst<'_>], at: Spot, x: u32) -> Result<(), ModeFault>
    ensures { Leads result (inst_map_of insts.now) (Arguments at.strict at.line spec.raised (x ∷ []) (inst_map_of insts.now)) }
{
    input(insts, at, Kind::Text, x)?;
    Ok(())
}
