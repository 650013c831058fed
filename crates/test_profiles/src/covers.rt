// Turns of goals.
ghost use Rattle.std.specs.Prelude.{◌≤◌, length};

use crate::lines::{add_debug, add_line, add_shown, add_text, small_number};
use md_base::ProcId;
use md_cost::Loaded;
use md_cover::{CoverFault, cover, cover_text};
use md_det::{Checked, DetFault, check_det};
use md_modes::{ModeFault, check_modes};
use md_reader::{Refused, read};
use std::alloc::{AllocError, Global};
use test_cases::Case;

/// The turns of the goals of a procedure of a `program`, by a profile of it.
pub fn cover_goals(
    alloc: Global,
    case: &Case,
    loaded: &Loaded,
    out: &mut String,
) -> Result<(), AllocError> {
    let text = case.bytes("program");
    if text.len() > 1_048_576 {
        return add_line(out, "a long text");
    }
    match accepted(alloc, text) {
        Ok(checked) => add_turns(alloc, case, &checked, loaded, out),
        Err(refusal) => add_debug(alloc, &refusal, out),
    }
}

/// Adds the turns of the goals of the `procedure` of a case.
fn add_turns(
    alloc: Global,
    case: &Case,
    checked: &Checked,
    loaded: &Loaded,
    out: &mut String,
) -> Result<(), AllocError> {
    let id = ProcId::new(small_number(case.text("procedure")));
    match covered(alloc, checked, loaded, id) {
        Ok(text) => add_text(out, &text),
        Err(fault) => add_shown(alloc, &fault, out),
    }
}

/// Why a text isn't accepted as a program.
#[derive(Clone, Copy, Debug)]
enum Refusal {
    Text(Refused),
    Modes(ModeFault),
    Determinism(DetFault),
}

impl From<Refused> for Refusal {
    fn from(refused: Refused) -> Refusal {
        Refusal::Text(refused)
    }
}

impl From<ModeFault> for Refusal {
    fn from(fault: ModeFault) -> Refusal {
        Refusal::Modes(fault)
    }
}

impl From<DetFault> for Refusal {
    fn from(fault: DetFault) -> Refusal {
        Refusal::Determinism(fault)
    }
}

/// The program of a text.
fn accepted(alloc: Global, text: &[u8]) -> Result<Checked, Refusal>
    requires { length text.now ≤ 1048576 }
{
    let program = read(alloc, text)?;
    let moded = check_modes(alloc, program)?;
    let checked = check_det(alloc, moded)?;
    Ok(checked)
}

/// The text of the turns of a procedure's goals.
fn covered(
    alloc: Global,
    checked: &Checked,
    loaded: &Loaded,
    id: ProcId,
) -> Result<Vec<u8>, CoverFault> {
    let coverage = cover(alloc, checked, loaded, id)?;
    let text = cover_text(alloc, loaded, &coverage)?;
    Ok(text)
}
