// The text of a file, and whether it is accepted as a program.
ghost use Rattle.std.specs.Prelude.{◌≡◌, ◌≤◌, length, MatchResult};
ghost use Rattle.md_base.specs.Outside.{Rose};
ghost use Rattle.md_hlds.specs.Hlds.{hlds_of};
ghost use Rattle.md_reader.specs.Grammar.{IsOfText};
ghost use Rattle.md_tool.specs.Accepted.{Accepts, IsAccepted, ProgramHas, TextFault, refusal_of, modes_refusal, determinism_refusal, refused_at};
ghost use Rattle.md_tool.specs.Due.{IsText, ReadFails};
ghost use Rattle.md_tool.specs.Rises.{RisesBy};

use crate::fault::{Fault, Refusal};
use md_base::{ReadFault, Store, read_all};
use md_det::{Checked, DetFault, check_det};
use md_hlds::Program;
use md_modes::{ModeFault, check_modes};
use md_reader::{Refused, read};
use std::alloc::Global;

/// The longest text of a program, in bytes.
const LONGEST: u64 = 1_048_576;

/// Reads the text of a file.
pub fn read_text<S: Store>(alloc: Global, file: &str, store: &mut S) -> Result<Vec<u8>, Fault>
    ensures read { MatchResult result (λ text. IsText (S.held store.old) file.now text.items)
        (ReadFails (S.held store.old) file.now (Rose (S.read_faults store.old) (S.read_faults store.new))) }
    ensures kept { S.held store.new ≡ S.held store.old }
    ensures writes { S.write_faults store.new ≡ S.write_faults store.old }
    ensures reads { RisesBy Fault.Read (S.read_faults store.old) (S.read_faults store.new) result }
{
    match read_all(alloc, store, file, LONGEST) {
        Ok(text) => Ok(text),
        Err(ReadFault::Read) => Err(Fault::Read),
        Err(ReadFault::TooLarge) => Err(Fault::TooLong),
        Err(ReadFault::NoMemory) => Err(Fault::NoMemory),
    }
}

/// The program of a text, read and checked for modes and determinism; or its first fault.
pub fn accept(alloc: Global, text: &[u8]) -> Result<Checked, Fault>
    requires { length text.now ≤ 1048576 }
    ensures { MatchResult result (λ checked. Accepts text.now (hlds_of checked)) (TextFault text.now) }
{
    match read(alloc, text) {
        Err(refused) => Err(refusal(refused)),
        Ok(program) => check(alloc, program),
    }
}

/// A program checked for modes and determinism; or its first fault.
fn check(alloc: Global, program: Program) -> Result<Checked, Fault>
    requires { IsOfText (hlds_of program) }
    ensures { MatchResult result (λ checked. IsAccepted program checked) (ProgramHas (hlds_of program)) }
{
    match check_modes(alloc, program) {
        Err(fault) => Err(modes_refusal(fault)),
        Ok(moded) => match check_det(alloc, moded) {
            Err(fault) => Err(determinism_refusal(fault)),
            Ok(checked) => Ok(checked),
        },
    }
}

/// The fault that a refused text is.
fn refusal(refused: Refused) -> Fault
    ensures { result ≡ refusal_of refused }
{
    refused_at(refused.line(), Refusal::Text(refused))
}

/// The fault that one of modes is.
fn modes_refusal(fault: ModeFault) -> Fault
    ensures { result ≡ modes_refusal fault }
{
    refused_at(fault.line(), Refusal::Modes(fault))
}

/// The fault that one of determinism is.
fn determinism_refusal(fault: DetFault) -> Fault
    ensures { result ≡ determinism_refusal fault }
{
    refused_at(fault.line(), Refusal::Determinism(fault))
}

/// The fault of a text that isn't accepted, at this line; where there is none, memory was refused.
fn refused_at(line: Option<u32>, why: Refusal) -> Fault
    ensures { result ≡ refused_at line why }
{
    match line {
        Some(line) => Fault::Refused { line, why },
        None => Fault::NoMemory,
    }
}
