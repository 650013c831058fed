// The beginning and the end of a clause.
ghost use Rattle.std.specs.Prelude.{◌≡◌, IfOk};
ghost use Rattle.md_hlds.specs.Hlds.{args_of, procedure_of};
ghost use Rattle.md_inst.specs.Instantiation.{nothing_known};
ghost use Rattle.md_modes.specs.Modes as spec;
ghost use Rattle.md_inst.specs.Kinds.{kind_sort, instantiation_of, inst_map_of, Finds};

use md_base::NoMemory;
use md_hlds::{Mode, Pred, Ty};
use md_inst::{Inst, Kind, ModeFault, inst_at, set_inst};
use std::alloc::Global;

/// What is known before the body of a clause.
pub fn entry<'a>(alloc: Global, pred: &'a Pred) -> Result<Vec<Inst<'a>>, NoMemory>
    ensures { IfOk result (λ insts. inst_map_of insts.items ≡ spec.entry (procedure_of pred.now)) }
{
    let mut insts = nothing_known(alloc, pred.vars.len())?;
    enter(&mut insts, pred.args.as_slice(), pred.head.as_slice());
    Ok(insts)
}

fn nothing_known<'a>(alloc: Global, count: usize) -> Result<Vec<Inst<'a>>, NoMemory>
    ensures { IfOk result (λ insts. inst_map_of insts.items ≡ nothing_known count) }
{
    let mut insts = Vec::with_capacity(alloc, count)?;
    for _turn in 0..count {
        insts.push(Inst::Free)?;
    }
    Ok(insts)
}

/// The inputs of the head are bound.
fn enter<'a>(insts: &mut Vec<Inst<'a>>, args: &'a [(Ty, Mode)], places: &[u32])
    ensures { inst_map_of insts.new.items ≡ spec.entry_from (args_of args.now) places.now (inst_map_of insts.old.items) }
{
    match args {
        [] => {}
        [arg, args @ ..] => match places {
            [] => {}
            [place, places @ ..] => {
                enter_one(insts, arg.1, Kind::new(&arg.0), *place);
                enter(insts, args, places)
            }
        },
    }
}

fn enter_one<'a>(insts: &mut Vec<Inst<'a>>, mode: Mode, kind: Kind<'a>, place: u32)
    ensures { inst_map_of insts.new.items ≡ spec.enter mode (kind_sort kind.entry) place (inst_map_of insts.old.items) }
{
    match mode {
        Mode::In | Mode::Di => set_inst(insts, place, Inst::Bound(kind, false)),
        Mode::Out | Mode::Uo => {}
    }
}

/// Checks the outputs of the head at the end of the clause.
pub fn check_exits(
    insts: &[Inst<'_>],
    line: u32,
    args: &[(Ty, Mode)],
    places: &[u32],
) -> Result<(), ModeFault>
    ensures { Finds result (spec.exits line (args_of args.now) places.now (inst_map_of insts.now)) }
{
    match args {
        [] => Ok(()),
        [arg, args @ ..] => match places {
            [] => Ok(()),
            [place, places @ ..] => {
                check_exit(line, arg.1, Kind::new(&arg.0), inst_at(insts, *place))?;
                check_exits(insts, line, args, places)
            }
        },
    }
}

fn check_exit(line: u32, mode: Mode, kind: Kind<'_>, inst: Inst<'_>) -> Result<(), ModeFault>
    ensures { Finds result (spec.exit line mode (kind_sort kind.entry) (instantiation_of inst.entry)) }
{
    match mode {
        Mode::In | Mode::Di => Ok(()),
        Mode::Out | Mode::Uo => check_output(line, kind, inst),
    }
}

/// An output is bound, has its type, and is no used io state.
fn check_output(line: u32, kind: Kind<'_>, inst: Inst<'_>) -> Result<(), ModeFault>
    ensures { Finds result (spec.exit_known line (kind_sort kind.entry) (instantiation_of inst.entry)) }
{
    match inst {
        Inst::Free => Err(ModeFault::Unbound(line)),
        Inst::Bound(known, used) => {
            if !known.is_same(kind) {
                Err(ModeFault::TypeClash(line))
            } else if known.is_world() && used {
                Err(ModeFault::IoUsed(line))
            } else {
                Ok(())
            }
        }
    }
}
