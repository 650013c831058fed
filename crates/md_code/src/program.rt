// Programs compiled.
ghost use Rattle.std.specs.Prelude.{◌≡◌, Some, cond, map, slice_get, IfOk};
ghost use Rattle.md_hlds.specs.Hlds.{hlds_of, goal_at, body_number, procedure_of, args_of};
ghost use Rattle.md_hlds.specs.HldsGoal.{goal_of};
ghost use Rattle.md_code.specs.Tables.{one_if, literals_of};
ghost use Rattle.md_code.specs.Blocks as spec;
ghost use Rattle.md_code.specs.Details.{routine_told, routine_of, routines_from, inputs_of, IsCodeOf, AreWithin};
ghost use Rattle.md_code.specs.Told.{place_told, end_told, trial_told, body_end_by};
ghost use Rattle.md_code.specs.Adds.{IsBegun, IsWhole};

use crate::block::instruction;
use crate::detail::{entry_of, goes_in};
use crate::functors::functors_of;
use crate::layout::lay;
use crate::literals::literals_of;
use crate::number::{FAIL, are_few, end_at, plus, small};
use crate::output::Output;
use crate::place::{End, Place, Trial, height_if, other_after};
use crate::source::Source;
use crate::survey::{has_choices, one_if};
use crate::surveyed::survey;
use crate::tables::Tables;
use md_base::{NoMemory, Text};
use md_det::Checked;
use md_flat::{Code, Operation, Routine};
use md_hlds::{Mode, Pred, Ty};
use md_names::Names;
use std::alloc::Global;

/// The code of a program that the checks accept. Takes time and memory near linear in the program, and in the targets of its
/// switches. Addresses, weights and slots are numbers of 32 bits: a program with larger ones is answered as one that memory
/// has no room for. (A text of a megabyte has smaller ones.)
pub fn compile(alloc: Global, checked: &Checked) -> Result<Code, NoMemory>
    ensures { IfOk result (λ code. IsCodeOf (hlds_of checked.now) code) }
{
    let names = Names::new(alloc, checked.program())?;
    let source = Source { checked, names };
    let tables = tables_of(alloc, source)?;
    code_of(&tables)
}

/// The tables of a program.
fn tables_of<'a>(alloc: Global, source: Source<'a>) -> Result<Tables<'a>, NoMemory>
    ensures { IfOk result (λ tables. tables.source.checked.now ≡ source.entry.checked.now) }
{
    let program = source.checked.program();
    let (functors, functor_count) = functors_of(alloc, program)?;
    let literals = literals_of(alloc, program)?;
    let (facts, callees) = survey(alloc, &source)?;
    Ok(Tables {
        alloc,
        source,
        functors,
        functor_count,
        literals,
        facts,
        callees,
    })
}

/// The code of a program by its tables.
fn code_of(tables: &Tables) -> Result<Code, NoMemory>
    ensures { IfOk result (λ code. IsCodeOf (hlds_of tables.now.source.checked.now) code) }
{
    let (output, reach) = lay_program(tables)?;
    are_few(output.instructions.len())?;
    are_few(output.details.len())?;
    let routines = routines_of(tables)?;
    let literals = texts(tables)?;
    Ok(Code {
        instructions: output.instructions,
        details: output.details,
        routines,
        literals,
        functors: tables.functor_count,
        reach,
        main: tables.source.checked.main().number(),
    })
}

/// The instructions and the details of all goals, and the greatest size of a frame.
fn lay_program(tables: &Tables) -> Result<(Output, u32), NoMemory>
    ensures code { IfOk result (λ found. IsWhole (hlds_of tables.now.source.checked.now) found.0) }
    ensures reach { IfOk result (λ found. AreWithin (hlds_of tables.now.source.checked.now) found.1 0 (hlds_of tables.now.source.checked.now).procedures) }
{
    let mut output = begun(tables.alloc)?;
    let mut reach: u32 = 0;
    for (procedure, pred) in tables.source.checked.program().preds.iter().enumerate() {
        let body = small(output.details.len())?;
        let at = body_place(tables, small(procedure)?, pred, body)?;
        lay(tables, &mut output, &pred.body, at)?;
        reach = reach.max(at.size);
    }
    Ok((output, reach))
}

/// What each program has.
fn begun(alloc: Global) -> Result<Output, NoMemory>
    ensures { IfOk result (λ output. IsBegun output) }
{
    let common = [
        instruction(0, 0, Operation::Pop),
        instruction(0, 0, Operation::Fail),
        instruction(0, 0, Operation::Unwind),
        instruction(0, 0, Operation::Halt),
        instruction(0, 0, Operation::Over),
        instruction(0, 0, Operation::Pass),
    ];
    let instructions = Vec::from_slice(alloc, common.as_slice())?;
    Ok(Output {
        instructions,
        details: Vec::new(alloc),
    })
}

/// The body of a procedure, which has this number among the goals.
fn body_place(tables: &Tables, procedure: u32, pred: &Pred, body: u32) -> Result<Place, NoMemory>
    ensures { IfOk result (λ place. body ≡ body_number (hlds_of tables.now.source.checked.now) procedure → goal_at (hlds_of tables.now.source.checked.now) body ≡ Some (goal_of pred.now.body)
        → place_told place ≡ spec.body_place (hlds_of tables.now.source.checked.now) procedure (procedure_of pred.now)) }
{
    let fact = tables.fact(body);
    let leaves = tables.leaves(body);
    let variables = small(pred.vars.len())?;
    let is_many = has_choices(pred.det);
    let height = plus(variables, body_height(is_many, leaves))?;
    let end = body_end(procedure, is_many, leaves, variables);
    let next = end_at(body)?;
    let size = plus(height, fact.heights)?;
    Ok(Place {
        next,
        other: FAIL,
        pending: 0,
        height,
        size,
        end,
        trial: body_trial(is_many, leaves, variables),
    })
}

/// How a body is come to.
fn body_trial(is_many: bool, leaves: bool, height: u32) -> Trial
    ensures { trial_told result ≡ spec.body_trial is_many leaves height }
{
    if leaves && !is_many {
        Trial::Keeping { height }
    } else {
        Trial::NoArm
    }
}

/// Whether a height is kept for a body.
fn body_height(is_many: bool, leaves: bool) -> u32
    ensures { result ≡ cond is_many 0 (one_if leaves) }
{
    if is_many { 0 } else { one_if(leaves) }
}

/// What comes at the end of a body.
fn body_end(procedure: u32, is_many: bool, leaves: bool, variables: u32) -> End
    ensures { end_told result ≡ body_end_by procedure is_many leaves variables }
{
    if is_many {
        let other = other_after(FAIL, leaves);
        return End::Yielding { procedure, other };
    }
    let height = height_if(leaves, variables);
    End::Exiting { procedure, height }
}

/// The procedures as closures call them.
fn routines_of(tables: &Tables) -> Result<Vec<Routine>, NoMemory>
    ensures { IfOk result (λ routines. map routine_told routines.items ≡ routines_from (hlds_of tables.now.source.checked.now) 0 (hlds_of tables.now.source.checked.now).procedures) }
{
    let mut routines = Vec::new(tables.alloc);
    for (procedure, pred) in tables.source.checked.program().preds.iter().enumerate() {
        routines.push(routine_of(tables, small(procedure)?, pred)?)?;
    }
    Ok(routines)
}

/// A procedure as a closure calls it.
fn routine_of(tables: &Tables, procedure: u32, pred: &Pred) -> Result<Routine, NoMemory>
    ensures { IfOk result (λ routine. slice_get (hlds_of tables.now.source.checked.now).procedures procedure ≡ Some (procedure_of pred.now)
        → routine_told routine ≡ routine_of (hlds_of tables.now.source.checked.now) procedure (procedure_of pred.now)) }
{
    let callee = tables.callee(procedure);
    let entry = entry_of(tables, procedure, pred)?;
    let head = Vec::from_slice(tables.alloc, pred.head.as_slice())?;
    let inputs = inputs_of(tables.alloc, pred.args.as_slice())?;
    Ok(Routine {
        entry,
        weight: callee.weight,
        head,
        inputs,
    })
}

/// Which arguments go in.
fn inputs_of(alloc: Global, args: &[(Ty, Mode)]) -> Result<Vec<bool>, NoMemory>
    ensures { IfOk result (λ inputs. inputs.items ≡ inputs_of (args_of args.now)) }
{
    let mut inputs = Vec::new(alloc);
    for arg in args {
        inputs.push(goes_in(arg.1))?;
    }
    Ok(inputs)
}

/// The literals as texts.
fn texts(tables: &Tables) -> Result<Vec<Text>, NoMemory>
    ensures { IfOk result (λ texts. texts.items ≡ literals_of (hlds_of tables.now.source.checked.now)) }
{
    let mut texts = Vec::new(tables.alloc);
    for bytes in tables.literals.as_slice() {
        texts.push(Text::from_bytes(tables.alloc, *bytes)?)?;
    }
    Ok(texts)
}
