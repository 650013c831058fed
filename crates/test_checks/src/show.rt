// What is found of a case, by the words of its line `show`.
use crate::fault::Fault;
use crate::text::{checked_of, moded_of, program_of, program_with_body};
use crate::{bindings, cells, det, flat, kinds, modes, names, pairs, printed, spelling, tables};
use md_base::NoMemory;
use md_det::DetFault;
use md_hlds::Program;
use md_modes::ModeFault;
use md_reader::Refused;
use std::alloc::{AllocError, Global};
use test_cases::Case;

/// Whether the case's lines are what is found.
pub fn verdict(alloc: Global, case: &Case) -> Result<String, AllocError> {
    let mut found = String::new(alloc);
    if let Err(fault) = show(alloc, case, &mut found) {
        writeln!(found, "{fault}")?;
    }
    case.verdict(alloc, found.as_str())
}

/// Adds the lines that are found, up to a fault.
fn show(alloc: Global, case: &Case, found: &mut String) -> Result<(), Fault> {
    match case.text("show") {
        "tokens" => spelling::tokens(alloc, case, found),
        "number" => spelling::number(case, found),
        "string" => spelling::string(alloc, case, found),
        "word" => spelling::word(case, found),
        "variables" => names::variables(alloc, case, found),
        "determinism" => pairs::determinism(case, found),
        "pairs" => pairs::pairs(case, found),
        "want of memory" => want_of_memory(found),
        "comparison" => cells::comparison(alloc, case, found),
        "body" => show_body(alloc, case, found),
        "modes" | "tables" => show_moded(alloc, case, found),
        "determinisms" | "flat" => show_checked(alloc, case, found),
        _ => show_program(alloc, case, found),
    }
}

/// Adds what is found of the program of a case's text.
fn show_program(alloc: Global, case: &Case, found: &mut String) -> Result<(), Fault> {
    let program = program_of(alloc, case)?;
    show_read(alloc, case, &program, found)
}

/// Adds what is found of a program.
fn show_read(
    alloc: Global,
    case: &Case,
    program: &Program,
    found: &mut String,
) -> Result<(), Fault> {
    match case.text("show") {
        "read" => Ok(writeln!(found, "read")?),
        "printed" => printed::printed(alloc, program, found),
        "numbers" => names::numbers(program, found),
        "names" => names::names(alloc, case, program, found),
        "kinds" => kinds::kinds(alloc, program, found),
        "bindings" => bindings::bindings(alloc, program, found),
        _ => Err(Fault::Unknown),
    }
}

/// Adds what is found of a clause's body.
fn show_body(alloc: Global, case: &Case, found: &mut String) -> Result<(), Fault> {
    let _program = program_with_body(alloc, case)?;
    Ok(writeln!(found, "read")?)
}

/// Adds what is found of a program that the mode checks accept.
fn show_moded(alloc: Global, case: &Case, found: &mut String) -> Result<(), Fault> {
    let moded = moded_of(alloc, case)?;
    match case.text("show") {
        "modes" => modes::modes(&moded, found),
        _ => tables::tables(alloc, &moded, found),
    }
}

/// Adds what is found of a program that the determinism checks accept.
fn show_checked(alloc: Global, case: &Case, found: &mut String) -> Result<(), Fault> {
    let checked = checked_of(alloc, case)?;
    match case.text("show") {
        "determinisms" => det::determinisms(&checked, found),
        _ => flat::flat(alloc, &checked, found),
    }
}

/// Adds what is said where memory is refused, at each of the checks.
fn want_of_memory(found: &mut String) -> Result<(), Fault> {
    for fault in [
        Fault::Refused(Refused::NoMemory),
        Fault::Modes(ModeFault::NoMemory),
        Fault::Determinism(DetFault::NoMemory),
        Fault::NoMemory(NoMemory),
    ] {
        writeln!(found, "{fault}")?;
    }
    Ok(())
}
