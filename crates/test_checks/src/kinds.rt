// The types of arguments, as the mode checks see them.
use crate::fault::Fault;
use md_hlds::{Mode, Program, Ty};
use md_inst::{Inst, Kind, Spot, inst_at, set_inst};
use std::alloc::Global;

/// A place that is in no condition, negation or `some`.
const OUTSIDE: Spot = Spot {
    line: 1,
    strict: false,
};

/// Adds what is found of the type of each argument of a program's predicates.
pub fn kinds(alloc: Global, program: &Program, found: &mut String) -> Result<(), Fault> {
    for pred in program.preds.as_slice() {
        arguments(alloc, pred.args.as_slice(), found)?;
    }
    Ok(())
}

/// Adds what is found of the type of each of these arguments.
fn arguments(alloc: Global, args: &[(Ty, Mode)], found: &mut String) -> Result<(), Fault> {
    for (place, (kind, _)) in args.iter().enumerate() {
        write!(found, "{place}: ")?;
        argument(alloc, args, Kind::new(kind), found)?;
    }
    Ok(())
}

/// Adds what is found of the type of one of these arguments: whether it is the io state's and whether a closure's, whether a
/// variable of it is spent once it was used and before, whether one is bound before and after it gets this type, and which
/// of the arguments have the same type.
fn argument(
    alloc: Global,
    args: &[(Ty, Mode)],
    kind: Kind,
    found: &mut String,
) -> Result<(), Fault> {
    let world = kind.is_world();
    let closure = kind.is_closure();
    let used = OUTSIDE.is_spent(kind, true);
    let unused = OUTSIDE.is_spent(kind, false);
    let (before, after) = bound(alloc, kind)?;
    write!(
        found,
        "world {world}, closure {closure}, spent {used} {unused}, bound {before} {after}, same"
    )?;
    for (other, _) in args {
        let same = kind.is_same(Kind::new(other));
        write!(found, " {same}")?;
    }
    Ok(writeln!(found)?)
}

/// Whether a variable is bound before and after it gets a type.
fn bound(alloc: Global, kind: Kind) -> Result<(bool, bool), Fault> {
    let mut insts = vec![in alloc; Inst::Free]?;
    let before = inst_at(&insts, 0).is_bound();
    set_inst(&mut insts, 0, Inst::Bound(kind, false));
    let after = inst_at(&insts, 0).is_bound();
    Ok((before, after))
}
