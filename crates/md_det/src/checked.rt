// A program that the determinism checks accept.
ghost use Rattle.std.specs.Prelude.{◌≡◌, None, Some};
ghost use Rattle.md_hlds.specs.Hlds.{hlds_of};
ghost use Rattle.md_reader.specs.Grammar.{IsOfText};
ghost use Rattle.md_modes.specs.Modes.{mode_fault};
ghost use Rattle.md_modes.specs.Classes.{AreFew};
ghost use Rattle.md_det.specs.Faults.{det_fault};
ghost use Rattle.md_det.specs.Findings.{program_findings, switch_at, pair_at};
ghost use Rattle.md_det.specs.Main.{main_of};
ghost use Rattle.md_det.specs.Throws;

use crate::finding::{Finding, Switch};
use crate::throws::throws;
use md_base::ProcId;
use md_hlds::Program;
use md_modes::Moded;
use std::marker::Model;

/// A program without a fault of the mode checks and of the determinism checks, with what these found at each goal. Contracts
/// see the program. Goals are numbered from 0 in text order over the file, outer before inner; the parts of an if-then-else
/// are condition, then, else. None of its calls takes memory.
#[derive(Drop)]
pub struct Checked {
    moded: Moded,
    findings: Vec<Finding>,
    main: ProcId,
}

impl Model for Checked {
    ghost use Rattle.std.specs.Prelude.{◌≡◌, None, Some};
    ghost use Rattle.std.specs.Coded.{codes};
    ghost use Rattle.md_hlds.specs.declared.program.Program.{Program};
    ghost use Rattle.md_hlds.specs.contracts.goal.Goal as goal;
    ghost use Rattle.md_hlds.specs.contracts.types.Ty as ty;
    ghost use Rattle.md_hlds.specs.Hlds.{hlds_of};
    ghost use Rattle.md_modes.specs.Modes.{mode_fault};
    ghost use Rattle.md_det.specs.Faults.{det_fault};
    ghost use Rattle.md_det.specs.Findings.{program_findings};
    ghost use Rattle.md_det.specs.Main.{main_of};

    ghost Value = { Program };

    ghost coded = { Prim.hlevel (codes, goal.the_row.coded, ty.the_row.coded) };

    ghost view = { λ checked. checked.moded };

    ghost invariant = { λ checked. (mode_fault (hlds_of checked.moded) ≡ None)
        × (det_fault (hlds_of checked.moded) ≡ None)
        × (checked.findings.items ≡ program_findings (hlds_of checked.moded))
        × (main_of (hlds_of checked.moded) ≡ Some checked.main) };
}

impl Checked {
    /// A program with what was found at its goals, and the number of its `main`.
    pub(crate) fn new(moded: Moded, findings: Vec<Finding>, main: ProcId) -> Checked
        requires moded { mode_fault (hlds_of moded) ≡ None }
        requires accepted { det_fault (hlds_of moded) ≡ None }
        requires found { findings.items ≡ program_findings (hlds_of moded) }
        requires main { main_of (hlds_of moded) ≡ Some main }
        ensures { result ≡ moded }
    {
        Checked {
            moded,
            findings,
            main,
        }
    }

    /// The program, which a text spells, and which has no fault of the mode checks and none of the determinism checks, and fewer
    /// goals than there are numbers of 32 bits.
    pub fn program(&self) -> &Program
        ensures program { result.now ≡ self.now }
        ensures moded { mode_fault (hlds_of self.now) ≡ None }
        ensures accepted { det_fault (hlds_of self.now) ≡ None }
        ensures few { AreFew (hlds_of self.now) }
        ensures of_text { IsOfText (hlds_of self.now) }
    {
        self.moded.program()
    }

    /// The program with what the mode checks found.
    pub fn moded(&self) -> &Moded
        ensures { result.now ≡ self.now }
    {
        &self.moded
    }

    /// The number of `main`.
    pub fn main(&self) -> ProcId
        ensures { main_of (hlds_of self.now) ≡ Some result }
    {
        self.main
    }

    /// Whether the program has a `require.error`. Walks the program.
    pub fn throws(&self) -> bool
        ensures { result ≡ Throws.throws (hlds_of self.now) }
    {
        throws(self.program())
    }

    /// The switch that the goal of this number is, or `None` exactly where it is none or there is no such goal.
    pub fn switch(&self, goal: u32) -> Option<Switch>
        ensures { result ≡ switch_at (program_findings (hlds_of self.now)) goal }
    {
        match self.findings.get(goal as usize) {
            None => None,
            Some(finding) => finding.switch,
        }
    }

    /// Whether the goal of this number may fail, and its bound on solutions, 2 standing for many; `None` exactly where
    /// there is no such goal.
    pub fn pair(&self, goal: u32) -> Option<(bool, u8)>
        ensures { result ≡ pair_at (program_findings (hlds_of self.now)) goal }
    {
        match self.findings.get(goal as usize) {
            None => None,
            Some(finding) => Some((finding.pair.may_fail, finding.pair.bound.number())),
        }
    }
}
