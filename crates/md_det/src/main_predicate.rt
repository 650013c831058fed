// The predicate with which a run begins, and io states among arguments.
ghost use Rattle.std.specs.Prelude.{◌≡◌, None, Some};
ghost use Rattle.md_hlds.specs.Hlds.{hlds_of, args_of};
ghost use Rattle.md_modes.specs.Modes.{mode_fault};
ghost use Rattle.md_det.specs.Faults.{has_world};
ghost use Rattle.md_det.specs.Main.{main_of};

use md_base::ProcId;
use md_hlds::{Mode, Program, Ty};
use md_inst::Kind;
use md_modes::is_main;

/// The number of the first `main(io::di, io::uo) is det`, which an accepted program has.
pub fn main_of(program: &Program) -> ProcId
    requires { mode_fault (hlds_of program.now) ≡ None }
    ensures { main_of (hlds_of program.now) ≡ Some result }
{
    for (number, pred) in program.preds.iter().enumerate() {
        if is_main(pred) {
            return ProcId::new(number as u32);
        }
    }
    unreachable!()
}

/// Whether an io state is among these arguments.
pub fn has_io(args: &[(Ty, Mode)]) -> bool
    ensures { result ≡ has_world (args_of args.now) }
{
    for arg in args {
        if Kind::new(&arg.0).is_world() {
            return true;
        }
    }
    false
}
