// The code of a program.
use crate::fault::Fault;
use md_code::compile;
use md_det::Checked;
use md_flat::{Detail, Instruction, Move, Operation, Routine};
use md_heap::Value;
use std::alloc::Global;

/// Adds a program's code: its numbers, each instruction that does something, what the details of its goals have, and its
/// routines.
pub fn flat(alloc: Global, checked: &Checked, found: &mut String) -> Result<(), Fault> {
    let code = compile(alloc, checked)?;
    let (functors, reach, main) = (code.functors, code.reach, code.main);
    writeln!(found, "functors {functors}, reach {reach}, main {main}")?;
    instructions(code.instructions.as_slice(), found)?;
    details(code.details.as_slice(), found)?;
    routines(code.routines.as_slice(), found)
}

/// Adds each instruction that does something, with its weight if it has one, and where it goes on.
fn instructions(instructions: &[Instruction], found: &mut String) -> Result<(), Fault> {
    for (address, instruction) in instructions.iter().enumerate() {
        let (weight, next) = (instruction.weight, instruction.next);
        let does = name(&instruction.operation);
        if does == "pass" && next == 0 {
            continue;
        }
        write!(found, "{address}: {does}")?;
        for number in numbers(&instruction.operation) {
            if let Some(number) = number {
                write!(found, " {number}")?;
            }
        }
        if weight > 0 {
            write!(found, ", weight {weight}")?;
        }
        writeln!(found, ", then {next}")?;
    }
    Ok(())
}

/// What an operation is called.
fn name(operation: &Operation) -> &'static str {
    match operation {
        Operation::Pass => "pass",
        Operation::Move { .. } => "move",
        Operation::Put { .. } => "put",
        Operation::Add { .. } => "add",
        Operation::Subtract { .. } => "subtract",
        Operation::Multiply { .. } => "multiply",
        Operation::Fields { .. } => "fields",
        Operation::Try { .. } => "try",
        Operation::Height { .. } => "height",
        Operation::Cut { .. } => "cut",
        Operation::Switch { .. } => "switch",
        Operation::Select { .. } => "select",
        Operation::Charge => "charge",
        Operation::Less { .. } => "less",
        Operation::LessOrEqual { .. } => "less or equal",
        Operation::IsConstant { .. } => "is constant",
        Operation::HasHead { .. } => "has head",
        Operation::Same { .. } => "same",
        Operation::Meet { .. } => "meet",
        Operation::Build { .. } => "build",
        Operation::Close { .. } => "close",
        Operation::WriteInt { .. } => "write integer",
        Operation::WriteText { .. } => "write text",
        Operation::Newline { .. } => "end line",
        Operation::Raise { .. } => "raise",
        Operation::Pop => "pop",
        _ => port(operation),
    }
}

/// What an operation with a port, or at the end of a run, is called.
fn port(operation: &Operation) -> &'static str {
    match operation {
        Operation::Call { .. } => "call",
        Operation::Apply { .. } => "apply",
        Operation::Exit { .. } => "exit",
        Operation::Leave { .. } => "leave",
        Operation::Redo => "redo",
        Operation::Fail => "fail",
        Operation::Unwind => "unwind",
        Operation::Halt => "halt",
        Operation::Over => "over",
        _ => "?",
    }
}

/// The numbers of an operation, in the order in which it names them.
fn numbers(operation: &Operation) -> [Option<u32>; 3] {
    match *operation {
        Operation::Move { to, from } => [Some(to), Some(from), None],
        Operation::Put { to, detail } => [Some(to), Some(detail), None],
        Operation::Add { to, first, second }
        | Operation::Subtract { to, first, second }
        | Operation::Multiply { to, first, second } => [Some(to), Some(first), Some(second)],
        Operation::Fields { of, detail } | Operation::Select { of, detail } => {
            [Some(of), Some(detail), None]
        }
        Operation::Try { other, size } => [Some(other), Some(size), None],
        Operation::Height { to } | Operation::Newline { to } => [Some(to), None, None],
        Operation::Cut { from } | Operation::Raise { from } => [Some(from), None, None],
        Operation::Switch { of, first, detail } => [Some(of), Some(first), Some(detail)],
        Operation::Less {
            first,
            second,
            other,
        }
        | Operation::LessOrEqual {
            first,
            second,
            other,
        }
        | Operation::Same {
            first,
            second,
            other,
        } => [Some(first), Some(second), Some(other)],
        _ => more_numbers(operation),
    }
}

/// Those of the other operations.
fn more_numbers(operation: &Operation) -> [Option<u32>; 3] {
    match *operation {
        Operation::IsConstant { of, detail, other } | Operation::Meet { of, detail, other } => {
            [Some(of), Some(detail), Some(other)]
        }
        Operation::HasHead { of, head, other } => [Some(of), Some(head), Some(other)],
        Operation::Build { to, head, detail } | Operation::Close { to, head, detail } => {
            [Some(to), Some(head), Some(detail)]
        }
        Operation::WriteInt { from, to } | Operation::WriteText { from, to } => {
            [Some(from), Some(to), None]
        }
        Operation::Call { detail } => [Some(detail), None, None],
        Operation::Apply { from, detail } => [Some(from), Some(detail), None],
        Operation::Exit { procedure } => [Some(procedure), None, None],
        Operation::Leave {
            procedure,
            again,
            size,
        } => [Some(procedure), Some(again), Some(size)],
        _ => [None, None, None],
    }
}

/// Adds what the details of goals have, where it is anything.
fn details(details: &[Detail], found: &mut String) -> Result<(), Fault> {
    for (number, detail) in details.iter().enumerate() {
        constant(number, &detail.constant, found)?;
        moves(number, "in", detail.inputs.as_slice(), found)?;
        moves(number, "out", detail.outputs.as_slice(), found)?;
        places(number, detail, found)?;
        call(number, detail, found)?;
    }
    Ok(())
}

/// Adds the constant of a detail but 0, which is also that of details without one.
fn constant(number: usize, constant: &Value, found: &mut String) -> Result<(), Fault> {
    match constant {
        Value::Int(0) => {}
        Value::Int(value) => writeln!(found, "detail {number} integer {value}")?,
        Value::Lit(literal) => writeln!(found, "detail {number} literal {literal}")?,
        Value::Cell(cell) => writeln!(found, "detail {number} cell {cell}")?,
    }
    Ok(())
}

/// Adds slots beside places.
fn moves(number: usize, word: &str, moves: &[Move], found: &mut String) -> Result<(), Fault> {
    if moves.is_empty() {
        return Ok(());
    }
    write!(found, "detail {number} {word}")?;
    for one in moves {
        let (from, to) = (one.from, one.to);
        write!(found, " {from}>{to}")?;
    }
    Ok(writeln!(found)?)
}

/// Adds the places of a switch: those by functors, and those by constants.
fn places(number: usize, detail: &Detail, found: &mut String) -> Result<(), Fault> {
    let targets = detail.targets.as_slice();
    if !targets.is_empty() {
        writeln!(found, "detail {number} targets {targets:?}")?;
    }
    for case in detail.cases.as_slice() {
        let (key, target) = (case.key, case.target);
        writeln!(found, "detail {number} case {key:?} at {target}")?;
    }
    Ok(())
}

/// Adds the call of a detail, if it goes on anywhere.
fn call(number: usize, detail: &Detail, found: &mut String) -> Result<(), Fault> {
    let (site, procedure, entry) = (detail.call.site, detail.call.procedure, detail.call.entry);
    let (size, next, other) = (detail.call.size, detail.call.next, detail.call.other);
    if next == 0 && other == 0 {
        return Ok(());
    }
    let kind = if detail.call.is_closure {
        "closure"
    } else {
        "procedure"
    };
    writeln!(
        found,
        "detail {number} call {kind} {procedure} at site {site}, entry {entry}, above {size} slots, then {next}, else {other}"
    )?;
    Ok(())
}

/// Adds where each procedure begins, what its call weighs, the slots of its head and which of them are inputs.
fn routines(routines: &[Routine], found: &mut String) -> Result<(), Fault> {
    for (number, routine) in routines.iter().enumerate() {
        let (entry, weight) = (routine.entry, routine.weight);
        let (head, inputs) = (routine.head.as_slice(), routine.inputs.as_slice());
        writeln!(
            found,
            "routine {number} entry {entry}, weight {weight}, head {head:?}, inputs {inputs:?}"
        )?;
    }
    Ok(())
}
