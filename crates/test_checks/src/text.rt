// The text of a case, the program that it is read as, and what the checks accept.
ghost use Rattle.std.specs.Prelude.{IfOk};
ghost use Rattle.md_hlds.specs.Hlds.{hlds_of};
ghost use Rattle.md_reader.specs.Grammar.{IsOfText};

use crate::fault::Fault;
use md_base::NoMemory;
use md_det::{Checked, check_det};
use md_hlds::{Goal, GoalKind, Program};
use md_modes::{Moded, check_modes};
use md_reader::read;
use std::alloc::{AllocError, Global};
use test_cases::Case;

/// The first length that no text may have.
const TOO_LONG: usize = 4_294_967_295;

/// The text of a case: `text`, or `before`, `between` and `after` with pieces between them that are there `count` times:
/// `first`, `second`, and `left`, `middle` and `right` with the number of the turn between them.
pub fn text_of(alloc: Global, case: &Case) -> Result<Vec<u8>, AllocError> {
    let count = case.number("count");
    let mut text = Vec::new(alloc);
    text.extend_from_slice(case.bytes("text"))?;
    text.extend_from_slice(case.bytes("before"))?;
    repeat(&mut text, case.bytes("first"), count)?;
    text.extend_from_slice(case.bytes("between"))?;
    repeat(&mut text, case.bytes("second"), count)?;
    if !case.bytes("left").is_empty() {
        number(alloc, &mut text, case, count)?;
    }
    text.extend_from_slice(case.bytes("after"))?;
    Ok(text)
}

/// Adds a piece so many times.
fn repeat(text: &mut Vec<u8>, piece: &[u8], count: u64) -> Result<(), AllocError> {
    for _turn in 0..count {
        text.extend_from_slice(piece)?;
    }
    Ok(())
}

/// Adds the pieces with numbers between them so many times.
fn number(alloc: Global, text: &mut Vec<u8>, case: &Case, count: u64) -> Result<(), AllocError> {
    for turn in 0..count {
        let number = format!(in alloc; "{turn}")?;
        text.extend_from_slice(case.bytes("left"))?;
        text.extend_from_slice(number.as_bytes())?;
        text.extend_from_slice(case.bytes("middle"))?;
        text.extend_from_slice(number.as_bytes())?;
        text.extend_from_slice(case.bytes("right"))?;
    }
    Ok(())
}

/// The program of a case's text.
pub fn program_of(alloc: Global, case: &Case) -> Result<Program, Fault>
    ensures { IfOk result (λ program. IsOfText (hlds_of program)) }
{
    let text = text_of(alloc, case)?;
    program(alloc, text.as_slice())
}

/// The program of the text of one clause, whose body the case has on its third line.
pub fn program_with_body(alloc: Global, case: &Case) -> Result<Program, Fault> {
    let mut text = Vec::new(alloc);
    text.extend_from_slice(b":- module t.\n:- pred p(int::in, int::in) is det.\np(X, Y) :- ")?;
    text.extend_from_slice(case.bytes("body"))?;
    text.extend_from_slice(b".\n")?;
    program(alloc, text.as_slice())
}

/// The program of a text.
pub fn program(alloc: Global, text: &[u8]) -> Result<Program, Fault>
    ensures { IfOk result (λ program. IsOfText (hlds_of program)) }
{
    if text.len() >= TOO_LONG {
        return Err(Fault::NoMemory(NoMemory));
    }
    Ok(read(alloc, text)?)
}

/// The program of a case's text, where the mode checks accept it.
pub fn moded_of(alloc: Global, case: &Case) -> Result<Moded, Fault> {
    let program = program_of(alloc, case)?;
    Ok(check_modes(alloc, program)?)
}

/// The program of a case's text, where the determinism checks accept it, too.
pub fn checked_of(alloc: Global, case: &Case) -> Result<Checked, Fault> {
    let moded = moded_of(alloc, case)?;
    Ok(check_det(alloc, moded)?)
}

/// The goals of a body: the parts of a conjunction, or the one goal that it is.
pub fn goals_of(body: &Goal) -> &[Goal] {
    match &body.kind {
        GoalKind::Conj(goals) => goals.as_slice(),
        _ => std::slice::from_ref(body),
    }
}
