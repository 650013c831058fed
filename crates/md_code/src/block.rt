// The six instructions of a goal.
ghost use Rattle.std.specs.Prelude.{ℕ, ◌≡◌, ◌+◌, ◌++◌, [], ◌∷◌, suc, List, IfOk, OnOk};
ghost use Rattle.md_hlds.specs.Hlds.{hlds_of, procedure_called};
ghost use Rattle.md_hlds.specs.HldsGoal.{expr_of, goals_of, gathered, goals_among};
ghost use Rattle.md_code.specs.Leaves.{leaves_table};
ghost use Rattle.md_det.specs.Findings.{program_findings, switch_at};
ghost use Rattle.md_code.specs.Facts.{Stand, Stands};
ghost use Rattle.md_code.specs.Blocks as spec;
ghost use Rattle.md_code.specs.Told.{place_told, end_told, trial_told};

use crate::number::{POP, ended_at, head_at, plus, second_at, try_at};
use crate::place::{End, Place, Trial};
use crate::simple::simple_code;
use crate::switch::switch_by;
use crate::tables::Tables;
use md_base::NoMemory;
use md_flat::{Instruction, Operation};
use md_hlds::{Goal, GoalKind, PredName};

/// An instruction that charges so much, goes on there, and does this.
pub fn instruction(weight: u32, next: u32, operation: Operation) -> Instruction
    ensures { result ≡ spec.instruction weight next operation }
{
    Instruction {
        weight,
        next,
        operation,
    }
}

/// Nothing stands there.
pub const UNUSED: Instruction = Instruction {
    weight: 0,
    next: 0,
    operation: Operation::Pass,
};

/// One instruction, where there may be three.
pub fn alone(first: Instruction) -> [Instruction; 3]
    ensures { result ≡ spec.alone first }
{
    [first, UNUSED, UNUSED]
}

/// Adds the instructions of the goal of this number.
pub fn add_block(
    tables: &Tables,
    instructions: &mut Vec<Instruction>,
    kind: &GoalKind,
    number: u32,
    at: Place,
) -> Result<(), NoMemory>
    ensures { OnOk result (Stands (hlds_of tables.now.source.checked.now) number (expr_of kind.now)
        → instructions.new.items ≡ instructions.old.items ++ spec.block (hlds_of tables.now.source.checked.now) number (expr_of kind.now) (place_told at)) }
{
    let own = own_code(tables, kind, number, at)?;
    let pending = tables.fact(number).change.pending_behind(at.pending)?;
    let end = end_code(number, pending, at.size, at.end)?;
    let trial = try_code(number, at.size, at.trial)?;
    instructions.extend_from_slice(own.as_slice())?;
    instructions.extend_from_slice(end.as_slice())?;
    instructions.push(trial)?;
    Ok(())
}

/// The instructions at the end of the goal of this number, behind which so much is pending.
fn end_code(number: u32, pending: u32, size: u32, end: End) -> Result<[Instruction; 2], NoMemory>
    ensures { IfOk result (λ code. code ≡ spec.end_code number pending size (end_told end)) }
{
    let ended = ended_at(number)?;
    match end {
        End::Along => Ok([UNUSED, UNUSED]),
        End::Joining { other, next } => Ok([
            instruction(pending, ended, Operation::Charge),
            join_or_pass(other, size, next),
        ]),
        End::Holding { height, next } => Ok([cut_or_pass(height, next), UNUSED]),
        End::Denying { height, other } => Ok([
            cut_or_pass(height, ended),
            instruction(pending, other, Operation::Charge),
        ]),
        End::Exiting { procedure, height } => Ok([
            cut_or_pass(height, ended),
            instruction(pending, 0, Operation::Exit { procedure }),
        ]),
        End::Yielding { procedure, other } => Ok([
            instruction(
                pending,
                0,
                Operation::Leave {
                    procedure,
                    again: ended,
                    size,
                },
            ),
            instruction(0, other, Operation::Redo),
        ]),
    }
}

/// The choices above a height are dropped, if one is kept.
fn cut_or_pass(height: Option<u32>, next: u32) -> Instruction
    ensures { result ≡ spec.cut_or_pass height next }
{
    match height {
        None => instruction(0, next, Operation::Pass),
        Some(from) => instruction(0, next, Operation::Cut { from }),
    }
}

/// A choice is left, if it has to be.
fn join_or_pass(other: Option<u32>, size: u32, next: u32) -> Instruction
    ensures { result ≡ spec.join_or_pass other size next }
{
    match other {
        None => instruction(0, next, Operation::Pass),
        Some(other) => instruction(0, next, Operation::Try { other, size }),
    }
}

/// Where a goal is come to, before its first instruction.
fn try_code(number: u32, size: u32, trial: Trial) -> Result<Instruction, NoMemory>
    ensures { IfOk result (λ code. code ≡ spec.try_code number size (trial_told trial)) }
{
    match trial {
        Trial::NoArm => Ok(UNUSED),
        Trial::LastArm => Ok(instruction(0, head_at(number)?, Operation::Pass)),
        Trial::ArmBefore { other } => {
            Ok(instruction(0, head_at(number)?, Operation::Try { other, size }))
        }
        Trial::Keeping { height } => {
            Ok(instruction(0, head_at(number)?, Operation::Height { to: height }))
        }
    }
}

/// The instructions of a goal before its end.
fn own_code(
    tables: &Tables,
    kind: &GoalKind,
    number: u32,
    at: Place,
) -> Result<[Instruction; 3], NoMemory>
    ensures { IfOk result (λ code. Stands (hlds_of tables.now.source.checked.now) number (expr_of kind.now)
        → code ≡ spec.own_code (hlds_of tables.now.source.checked.now) number (expr_of kind.now) (place_told at)) }
{
    match kind {
        GoalKind::Call(_, name, _) => call_code(tables, name, number, at),
        GoalKind::HoCall(_, from, _) => {
            let operation = Operation::Apply {
                from: *from,
                detail: number,
            };
            Ok(alone(instruction(at.pending, at.next, operation)))
        }
        GoalKind::Conj(goals) => conjunction_code(number, goals.as_slice(), at),
        GoalKind::Disj(arms) => disjunction_code(tables, number, arms.as_slice(), at),
        GoalKind::If(..) => {
            let second = tables.after(plus(number, 1)?)?;
            let otherwise = head_at(tables.after(second)?)?;
            condition_code(tables, number, at, otherwise)
        }
        GoalKind::Not(_) => condition_code(tables, number, at, at.next),
        GoalKind::Some(..) => some_code(tables, number, at),
        GoalKind::True
        | GoalKind::Fail
        | GoalKind::Unify(..)
        | GoalKind::Arith(..)
        | GoalKind::Compare(..)
        | GoalKind::WriteInt(..)
        | GoalKind::WriteStr(..)
        | GoalKind::Nl(..)
        | GoalKind::Error(_) => simple_code(tables, kind, number, at),
    }
}

/// A call.
fn call_code(
    tables: &Tables,
    name: &PredName,
    number: u32,
    at: Place,
) -> Result<[Instruction; 3], NoMemory>
    ensures { IfOk result (λ code. code ≡ spec.alone (spec.instruction (at.pending + spec.called_weight (procedure_called (hlds_of tables.now.source.checked.now) name.now)) at.next (Operation.Call number))) }
{
    let weight = plus(at.pending, called_weight(tables, name))?;
    Ok(alone(instruction(weight, at.next, Operation::Call { detail: number })))
}

/// What a call of the procedure of this name weighs.
fn called_weight(tables: &Tables, name: &PredName) -> u32
    ensures { result ≡ spec.called_weight (procedure_called (hlds_of tables.now.source.checked.now) name.now) }
{
    match tables.source.names.predicate(name) {
        None => 0,
        Some((procedure, _)) => tables.callee(procedure.number()).weight,
    }
}

/// A conjunction goes on at its first part.
fn conjunction_code(number: u32, goals: &[Goal], at: Place) -> Result<[Instruction; 3], NoMemory>
    ensures { IfOk result (λ code. code ≡ spec.alone (spec.instruction 0 (spec.parts_begin (suc number) (gathered (goals_of goals.now)) at.next) Operation.Pass)) }
{
    let next = parts_begin(plus(number, 1)?, goals, at.next)?;
    Ok(alone(instruction(0, next, Operation::Pass)))
}

/// Where a conjunction of these goals begins, the first of which has this number.
pub fn parts_begin(number: u32, goals: &[Goal], next: u32) -> Result<u32, NoMemory>
    ensures { IfOk result (λ address. address ≡ spec.parts_begin number (gathered (goals_of goals.now)) next) }
{
    if goals.is_empty() {
        return Ok(next);
    }
    head_at(number)
}

/// A disjunction goes on at its first arm, or, as a switch, at that for the value.
fn disjunction_code(
    tables: &Tables,
    number: u32,
    arms: &[Goal],
    at: Place,
) -> Result<[Instruction; 3], NoMemory>
    ensures { IfOk result (λ code. Stand (hlds_of tables.now.source.checked.now) (suc number) (goals_among (gathered (goals_of arms.now)))
        → code ≡ spec.disjunction_code (hlds_of tables.now.source.checked.now) number (gathered (goals_of arms.now)) (place_told at) (switch_at (program_findings (hlds_of tables.now.source.checked.now)) number)) }
{
    match tables.source.checked.switch(number) {
        None => {
            let next = first_trial(plus(number, 1)?, arms)?;
            Ok(alone(instruction(0, next, Operation::Pass)))
        }
        Some(switch) => {
            let operation = switch_by(tables, arms, number, switch.var)?;
            let missing = instruction(plus(at.pending, 1)?, at.other, Operation::Charge);
            Ok([
                instruction(0, second_at(number)?, operation),
                missing,
                UNUSED,
            ])
        }
    }
}

/// Where arms are tried, the first of which has this number.
fn first_trial(number: u32, arms: &[Goal]) -> Result<u32, NoMemory>
    ensures { IfOk result (λ address. address ≡ spec.first_trial number (gathered (goals_of arms.now))) }
{
    if arms.is_empty() {
        return Ok(POP);
    }
    try_at(number)
}

/// A goal whose condition has the next number, and which goes on elsewhere where that has no solution.
fn condition_code(
    tables: &Tables,
    number: u32,
    at: Place,
    other: u32,
) -> Result<[Instruction; 3], NoMemory>
    ensures { IfOk result (λ code. code ≡ spec.condition_code (leaves_table (hlds_of tables.now.source.checked.now) (suc number)) number at.pending at.height at.size other) }
{
    let first = plus(number, 1)?;
    let next = head_at(first)?;
    if !tables.leaves(first) {
        return Ok(alone(instruction(0, next, Operation::Pass)));
    }
    let size = at.size;
    Ok([
        instruction(0, second_at(number)?, Operation::Height { to: at.height }),
        instruction(0, next, Operation::Try { other, size }),
        UNUSED,
    ])
}

/// A quantified goal.
fn some_code(tables: &Tables, number: u32, at: Place) -> Result<[Instruction; 3], NoMemory>
    ensures { IfOk result (λ code. code ≡ spec.some_code (leaves_table (hlds_of tables.now.source.checked.now) (suc number)) number at.height) }
{
    let first = plus(number, 1)?;
    let next = head_at(first)?;
    if !tables.leaves(first) {
        return Ok(alone(instruction(0, next, Operation::Pass)));
    }
    Ok(alone(instruction(0, next, Operation::Height { to: at.height })))
}
