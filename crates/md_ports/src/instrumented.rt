// A program's code with its ports, and the tables by which these are told.
ghost use Rattle.std.specs.Prelude.{◌≡◌, ◌<◌, IfOk};
ghost use Rattle.md_hlds.specs.Hlds.{hlds_of};
ghost use Rattle.md_code.specs.Details.{IsCodeOf};

use crate::tables::statics;
use law_placed::code_is_placed;
use md_base::NoMemory;
use md_det::Checked;
use md_flat::Code;
use md_fold::fold;
use md_static::Statics;
use std::alloc::Global;
use std::marker::Model;

/// The code of a program that the checks accept, in which each port (call, exit, redo, fail and excp) is an instruction of its own, with
/// the program's modules, procedures and call sites.
#[derive(Drop)]
pub struct Instrumented<'a> {
    checked: &'a Checked,
    code: Code,
    statics: Statics,
}

impl<'a> Model for Instrumented<'a> {
    ghost use Rattle.std.specs.Prelude.{◌≡◌};
    ghost use Rattle.std.specs.Coded.{codes};
    ghost use Rattle.md_hlds.specs.declared.program.Program.{Program};
    ghost use Rattle.md_hlds.specs.contracts.goal.Goal as goal;
    ghost use Rattle.md_hlds.specs.contracts.types.Ty as ty;
    ghost use Rattle.md_hlds.specs.Hlds.{hlds_of};
    ghost use Rattle.md_ports.specs.Instrumented.{IsInstrumented};
    ghost use Rattle.md_ports.specs.Ports.{statics_of};

    ghost Value = { Program };

    ghost coded = { Prim.hlevel (codes, goal.the_row.coded, ty.the_row.coded) };

    ghost view = { λ instrumented. instrumented.checked.now };

    ghost invariant = { λ instrumented. IsInstrumented (hlds_of instrumented.checked.now) instrumented.code
        × (instrumented.statics ≡ statics_of (hlds_of instrumented.checked.now)) };
}

impl<'a> Instrumented<'a> {
    ghost use Rattle.std.specs.Prelude.{◌≡◌};
    ghost use Rattle.md_hlds.specs.Hlds.{hlds_of};
    ghost use Rattle.md_ports.specs.Instrumented.{IsInstrumented};
    ghost use Rattle.md_ports.specs.Ports.{statics_of};

    /// The program. Takes no memory.
    pub fn checked(&self) -> &'a Checked
        ensures { result.now ≡ self.now }
    {
        self.checked
    }

    /// The code. Takes no memory.
    pub fn code(&self) -> &Code
        ensures { IsInstrumented (hlds_of self.now) result.now }
    {
        &self.code
    }

    /// The modules, procedures and call sites. Takes no memory.
    pub fn statics(&self) -> &Statics
        ensures { result.now ≡ statics_of (hlds_of self.now) }
    {
        &self.statics
    }
}

/// The code of a program with its ports: its addresses lead on past what does nothing, each weight is charged together with what
/// follows, and one instruction does what several did; the ports, their order and what is charged before each stay as they are. Takes time
/// near linear in the program and its code, and memory in proportion to both.
///
/// # Errors
///
/// `NoMemory` only where memory was refused.
pub fn instrument<'a>(
    alloc: Global,
    checked: &'a Checked,
    code: Code,
) -> Result<Instrumented<'a>, NoMemory>
    requires { IsCodeOf (hlds_of checked.now) code }
    ensures { IfOk result (λ instrumented. instrumented ≡ checked.now) }
{
    // A checked program is that of a text, and has no fault of modes, as this call tells.
    let _ = checked.program();
    code_is_placed();
    fits(code.reach);
    let code = fold(alloc, code)?;
    let statics = statics(alloc, checked.moded())?;
    Ok(Instrumented {
        checked,
        code,
        statics,
    })
}

/// A number of 32 bits is below 2^32.
fn fits(number: u32)
    ensures { number < 4294967296 }
{}
