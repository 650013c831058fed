// The pairs of goals without parts, and the faults of single goals.
ghost use Rattle.std.specs.Prelude.{◌≡◌};
ghost use Rattle.md_hlds.specs.Hlds.{hlds_of};
ghost use Rattle.md_hlds.specs.HldsGoal.{expr_of};
ghost use Rattle.md_names.specs.Named.{name_at};
ghost use Rattle.md_modes.specs.Notes.{program_notes};
ghost use Rattle.md_modes.specs.Classes.{role_at};
ghost use Rattle.md_det.specs.Judge.{read_atomic, read_unification, read_call, read_apply, named_alone, type_of_name, is_apart, io_fault, condition_fault};
ghost use Rattle.md_det.specs.Told.{reading_in, family_told};

use crate::context::Context;
use crate::fault::DetFault;
use crate::pair::Pair;
use md_hlds::{GoalKind, TypeDef};
use md_modes::{Class, Moded, Named};

/// The pair of the goal of this number, where it has no parts. `at` is the variable of the switch whose arm it begins.
#[inline(never)]
pub fn atomic_pair(moded: &Moded, kind: &GoalKind, number: u32, at: Option<u32>) -> Pair
    ensures { result ≡ read_atomic (hlds_of moded.now) at (name_at (hlds_of moded.now) number)
        (role_at (program_notes (hlds_of moded.now)) number) (expr_of kind.now) }
{
    match kind {
        GoalKind::True => Pair::SURE,
        GoalKind::Fail => Pair::FAILURE,
        GoalKind::Unify(x, _) => unification_pair(moded, *x, number, at),
        GoalKind::Arith(..) => Pair::SURE,
        GoalKind::Compare(..) => Pair::UNSURE,
        GoalKind::WriteInt(..) => Pair::SURE,
        GoalKind::WriteStr(..) => Pair::SURE,
        GoalKind::Nl(..) => Pair::SURE,
        GoalKind::Call(..) => call_pair(moded, number),
        GoalKind::Error(_) => Pair::THROWS,
        GoalKind::HoCall(..) => closure_pair(moded, number),
        GoalKind::Conj(_)
        | GoalKind::Disj(_)
        | GoalKind::If(..)
        | GoalKind::Not(_)
        | GoalKind::Some(..) => Pair::UNSURE,
    }
}

fn unification_pair(moded: &Moded, x: u32, number: u32, at: Option<u32>) -> Pair
    ensures { result ≡ read_unification (hlds_of moded.now) at x (name_at (hlds_of moded.now) number)
        (role_at (program_notes (hlds_of moded.now)) number) }
{
    match moded.class(number) {
        None => Pair::UNSURE,
        Some(class) => match class {
            Class::Construct => Pair::SURE,
            Class::Close => Pair::SURE,
            Class::Assign { .. } => Pair::SURE,
            Class::Test => Pair::UNSURE,
            Class::Closure(_) => Pair::UNSURE,
            Class::Deconstruct { bound } => {
                if bound.is_empty() && (at == Some(x) || is_only_functor(moded, number)) {
                    Pair::SURE
                } else {
                    Pair::UNSURE
                }
            }
        },
    }
}

/// Whether the name in the goal of this number stands for the only functor of its type.
fn is_only_functor(moded: &Moded, number: u32) -> bool
    ensures { result ≡ named_alone (hlds_of moded.now) (name_at (hlds_of moded.now) number) }
{
    match family_of(moded, number) {
        None => false,
        Some(family) => family.functors.len() == 1,
    }
}

/// The type of the functor that the name in the goal of this number stands for.
pub fn family_of(moded: &Moded, number: u32) -> Option<&TypeDef>
    ensures { family_told result ≡ type_of_name (hlds_of moded.now) (name_at (hlds_of moded.now) number) }
{
    match moded.named(number) {
        Named::Functor(place) => moded.program().types.get(place),
        Named::Predicate(_) => None,
        Named::Nothing => None,
    }
}

/// A call is as its predicate is declared.
fn call_pair(moded: &Moded, number: u32) -> Pair
    ensures { result ≡ read_call (hlds_of moded.now) (name_at (hlds_of moded.now) number) }
{
    match moded.named(number) {
        Named::Functor(_) => Pair::UNSURE,
        Named::Nothing => Pair::UNSURE,
        Named::Predicate(callee) => match moded.program().pred(callee) {
            None => Pair::UNSURE,
            Some(pred) => Pair::of(pred.det),
        },
    }
}

/// A call of a closure is as the closure's type says.
fn closure_pair(moded: &Moded, number: u32) -> Pair
    ensures { result ≡ read_apply (role_at (program_notes (hlds_of moded.now)) number) }
{
    match moded.class(number) {
        None => Pair::UNSURE,
        Some(class) => match class {
            Class::Closure(closure) => Pair::of(closure.det),
            Class::Construct => Pair::UNSURE,
            Class::Close => Pair::UNSURE,
            Class::Assign { .. } => Pair::UNSURE,
            Class::Test => Pair::UNSURE,
            Class::Deconstruct { .. } => Pair::UNSURE,
        },
    }
}

/// Whether the goal of this number takes the left side of a unification apart: that variable is bound before it.
pub fn is_apart(moded: &Moded, number: u32) -> bool
    ensures { result ≡ is_apart (role_at (program_notes (hlds_of moded.now)) number) }
{
    match moded.class(number) {
        None => false,
        Some(class) => matches!(class, Class::Deconstruct { .. }),
    }
}

/// The fault of a goal of this number on this line that names an io state, where a run may come back.
#[inline(never)]
pub fn io_fault(context: &Context, number: u32, again: bool, line: u32) -> Option<DetFault>
    ensures { result ≡ io_fault (reading_in context.now) number again line }
{
    if again && context.moded.names_io(number) {
        Some(DetFault::IoInBacktracking(line))
    } else {
        None
    }
}

/// The fault of an if-then-else on this line whose condition has this number and this pair: the condition has many
/// solutions, and binds a variable that occurs outside it.
#[inline(never)]
pub fn condition_fault(context: &Context, line: u32, number: u32, pair: Pair) -> Option<DetFault>
    ensures { result ≡ condition_fault (reading_in context.now) line number pair }
{
    if pair.bound.is_many() && context.moded.binds_outside(number) {
        Some(DetFault::ManyInCondition(line))
    } else {
        None
    }
}
