// The goals with neither parts nor arms.
ghost use Rattle.std.specs.Prelude.{◌≡◌};
ghost use Rattle.md_hlds.specs.Hlds.{hlds_of};
ghost use Rattle.md_hlds.specs.HldsGoal.{expr_of};
ghost use Rattle.md_inst.specs.Kinds.{inst_map_of, Leads};
ghost use Rattle.md_inst.specs.Simple.{atomic};

use crate::ModeFault;
use crate::argument::Spot;
use crate::call::{apply, call, compare, compute, end_line, raise, write};
use crate::inst::Inst;
use crate::kind::Kind;
use crate::unify::unify;
use md_hlds::GoalKind;
use md_names::Names;

/// A goal that is no conjunction and no branch; the others are left as they are.
pub fn atomic<'a>(
    names: &Names<'a>,
    insts: &mut Vec<Inst<'a>>,
    at: Spot,
    goal: &GoalKind,
) -> Result<(), ModeFault>
    ensures { Leads result (inst_map_of insts.new.items) (atomic (hlds_of names.now) at.strict at.line (expr_of goal.now) (inst_map_of insts.old.items)) }
{
    match goal {
        GoalKind::True | GoalKind::Fail => Ok(()),
        GoalKind::Unify(x, term) => unify(names, insts, at, *x, term),
        GoalKind::Arith(z, a, _, b) => compute(insts, at, *z, *a, *b),
        GoalKind::Compare(a, _, b) => compare(insts, at, *a, *b),
        GoalKind::WriteInt(x, before, after) => {
            write(insts, at, Kind::Number, *x, *before, *after)
        }
        GoalKind::WriteStr(x, before, after) => write(insts, at, Kind::Text, *x, *before, *after),
        GoalKind::Nl(before, after) => end_line(insts, at, *before, *after),
        GoalKind::Call(_, name, places) => call(names, insts, at, name, places.as_slice()),
        GoalKind::HoCall(_, closure, places) => apply(insts, at, *closure, places.as_slice()),
        GoalKind::Error(x) => raise(insts, at, *x),
        GoalKind::Conj(_)
        | GoalKind::Disj(_)
        | GoalKind::If(..)
        | GoalKind::Not(_)
        | GoalKind::Some(..) => Ok(()),
    }
}
