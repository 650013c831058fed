// The instructions of simple goals.
ghost use Rattle.std.specs.Prelude.{ℕ, ◌≡◌, true, length, List, IfOk};
ghost use Rattle.md_hlds.specs.Hlds.{Hlds, hlds_of, procedure_called};
ghost use Rattle.md_hlds.specs.HldsGoal.{expr_of};
ghost use Rattle.md_modes.specs.Notes.{program_notes};
ghost use Rattle.md_modes.specs.Classes.{role_at};
ghost use Rattle.md_code.specs.Blocks as spec;
ghost use Rattle.md_hlds.specs.declared.goal.Term.{Term};
ghost use Rattle.md_hlds.specs.declared.goal.Term.TheVariants.{Var, Name};
ghost use Rattle.md_hlds.specs.declared.goal.PredName.{PredName};
ghost use Rattle.md_code.specs.Tables.{functor_number, third_at};
ghost use Rattle.md_code.specs.Told.{place_told, is_plain, is_simple};

use crate::block::{UNUSED, alone, instruction};
use crate::number::{UNWIND, plus, second_at, small, third_at};
use crate::place::Place;
use crate::tables::Tables;
use md_base::NoMemory;
use md_flat::{Instruction, Operation};
use md_hlds::{Cmp, GoalKind, Op, PredName, Term};
use md_modes::Class;

/// The instructions of the simple goal of this number.
pub fn simple_code(
    tables: &Tables,
    kind: &GoalKind,
    number: u32,
    at: Place,
) -> Result<[Instruction; 3], NoMemory>
    ensures { IfOk result (λ code. is_simple (expr_of kind.now) ≡ true → code ≡ spec.own_code (hlds_of tables.now.source.checked.now) number (expr_of kind.now) (place_told at)) }
{
    let weight = plus(at.pending, 1)?;
    match kind {
        GoalKind::Unify(x, term) => unify_code(tables, number, *x, term, at),
        GoalKind::Fail => Ok(alone(instruction(weight, at.other, Operation::Charge))),
        GoalKind::Arith(to, first, op, second) => {
            let operation = compute_code(*op, *to, *first, *second);
            Ok(alone(instruction(0, at.next, operation)))
        }
        GoalKind::Compare(first, cmp, second) => {
            let operation = compare_code(*cmp, *first, *second, at.other);
            Ok(alone(instruction(weight, at.next, operation)))
        }
        GoalKind::WriteInt(from, _, to) => {
            let (from, to) = (*from, *to);
            Ok(alone(instruction(weight, at.next, Operation::WriteInt { from, to })))
        }
        GoalKind::WriteStr(from, _, to) => {
            let (from, to) = (*from, *to);
            Ok(alone(instruction(weight, at.next, Operation::WriteText { from, to })))
        }
        GoalKind::Nl(_, to) => {
            Ok(alone(instruction(weight, at.next, Operation::Newline { to: *to })))
        }
        GoalKind::Error(from) => {
            Ok(alone(instruction(weight, UNWIND, Operation::Raise { from: *from })))
        }
        GoalKind::True
        | GoalKind::Call(..)
        | GoalKind::HoCall(..)
        | GoalKind::Conj(_)
        | GoalKind::Disj(_)
        | GoalKind::If(..)
        | GoalKind::Not(_)
        | GoalKind::Some(..) => Ok(alone(instruction(0, at.next, Operation::Pass))),
    }
}

/// The operation of an arithmetic goal.
fn compute_code(op: Op, to: u32, first: u32, second: u32) -> Operation
    ensures { result ≡ spec.compute_code op to first second }
{
    match op {
        Op::Add => Operation::Add { to, first, second },
        Op::Sub => Operation::Subtract { to, first, second },
        Op::Mul => Operation::Multiply { to, first, second },
    }
}

/// The operation of a comparison, which fails to `other`.
fn compare_code(cmp: Cmp, first: u32, second: u32, other: u32) -> Operation
    ensures { result ≡ spec.compare_code cmp first second other }
{
    let (less, more) = (first, second);
    match cmp {
        Cmp::Lt => Operation::Less {
            first: less,
            second: more,
            other,
        },
        Cmp::Le => Operation::LessOrEqual {
            first: less,
            second: more,
            other,
        },
        Cmp::Gt => Operation::Less {
            first: more,
            second: less,
            other,
        },
        Cmp::Ge => Operation::LessOrEqual {
            first: more,
            second: less,
            other,
        },
    }
}

/// The instructions of the unification of this number.
fn unify_code(
    tables: &Tables,
    number: u32,
    x: u32,
    term: &Term,
    at: Place,
) -> Result<[Instruction; 3], NoMemory>
    ensures { IfOk result (λ code. code ≡ spec.unify_code (hlds_of tables.now.source.checked.now) number x term.now (place_told at) (role_at (program_notes (hlds_of tables.now.source.checked.now)) number)) }
{
    match term {
        Term::Var(y) => Ok(alone(variables_code(tables, number, x, *y, at)?)),
        Term::Int(_) | Term::Str(_) => constant_code(tables, number, x, at),
        Term::Name(name, places) => name_code(tables, number, x, name, places.as_slice(), at),
    }
}

/// The instruction of `X = Y`: a copy, or a test.
fn variables_code(
    tables: &Tables,
    number: u32,
    x: u32,
    y: u32,
    at: Place,
) -> Result<Instruction, NoMemory>
    ensures { IfOk result (λ code. spec.alone code ≡ spec.unify_code (hlds_of tables.now.source.checked.now) number x (Var y) (place_told at) (role_at (program_notes (hlds_of tables.now.source.checked.now)) number)) }
{
    match tables.source.checked.moded().class(number) {
        Some(Class::Assign { to }) => Ok(copy_code(x, y, *to, at)),
        Some(
            Class::Construct
            | Class::Close
            | Class::Deconstruct { .. }
            | Class::Test
            | Class::Closure(_),
        )
        | None => {
            let weight = plus(at.pending, 1)?;
            let (first, second, other) = (x, y, at.other);
            Ok(instruction(
                weight,
                at.next,
                Operation::Same {
                    first,
                    second,
                    other,
                },
            ))
        }
    }
}

/// A copy into one of two variables of the other.
fn copy_code(x: u32, y: u32, to: u32, at: Place) -> Instruction
    ensures { spec.alone result ≡ spec.assign_code x y to (place_told at) }
{
    let from = if to == x { y } else { x };
    instruction(0, at.next, Operation::Move { to, from })
}

/// The instructions of `X = c` with an integer or a literal.
fn constant_code(
    tables: &Tables,
    number: u32,
    x: u32,
    at: Place,
) -> Result<[Instruction; 3], NoMemory>
    ensures { IfOk result (λ code. (t : Term) → is_plain t ≡ true → code ≡ spec.unify_code (hlds_of tables.now.source.checked.now) number x t (place_told at) (role_at (program_notes (hlds_of tables.now.source.checked.now)) number)) }
{
    match tables.source.checked.moded().class(number) {
        Some(Class::Construct) => Ok(alone(put_code(number, x, at))),
        Some(Class::Deconstruct { .. }) => {
            let weight = plus(at.pending, 1)?;
            let (of, detail, other) = (x, number, at.other);
            let operation = Operation::IsConstant { of, detail, other };
            Ok(alone(instruction(weight, at.next, operation)))
        }
        Some(Class::Close | Class::Assign { .. } | Class::Test | Class::Closure(_)) | None => {
            Ok(alone(UNUSED))
        }
    }
}

/// A constant is put.
fn put_code(number: u32, x: u32, at: Place) -> Instruction
    ensures { result ≡ spec.instruction 0 at.next (Operation.Put x number) }
{
    let (to, detail) = (x, number);
    instruction(0, at.next, Operation::Put { to, detail })
}

/// The instructions of `X = f(..)`.
fn name_code(
    tables: &Tables,
    number: u32,
    x: u32,
    name: &PredName,
    places: &[u32],
    at: Place,
) -> Result<[Instruction; 3], NoMemory>
    ensures { IfOk result (λ code. code ≡ spec.unify_code (hlds_of tables.now.source.checked.now) number x (Name name.now places.now) (place_told at) (role_at (program_notes (hlds_of tables.now.source.checked.now)) number)) }
{
    match tables.source.checked.moded().class(number) {
        Some(Class::Construct) => construct_code(tables, number, x, name, places, at),
        Some(Class::Close) => close_code(tables, number, x, name, places, at),
        Some(Class::Deconstruct { bound }) => {
            let head = tables.functor(name.name.as_bytes(), places.len());
            take_code(number, x, head, bound.as_slice(), at)
        }
        Some(Class::Assign { .. } | Class::Test | Class::Closure(_)) | None => Ok(alone(UNUSED)),
    }
}

/// A construction.
fn construct_code(
    tables: &Tables,
    number: u32,
    x: u32,
    name: &PredName,
    places: &[u32],
    at: Place,
) -> Result<[Instruction; 3], NoMemory>
    ensures { IfOk result (λ code. code ≡ spec.construct_code (hlds_of tables.now.source.checked.now) number x (Name name.now places.now) (place_told at)) }
{
    if places.is_empty() {
        return Ok(alone(put_code(number, x, at)));
    }
    let head = tables.functor(name.name.as_bytes(), places.len());
    let weight = plus(plus(at.pending, 1)?, small(places.len())?)?;
    let (to, detail) = (x, number);
    Ok(alone(instruction(weight, at.next, Operation::Build { to, head, detail })))
}

/// A closing.
fn close_code(
    tables: &Tables,
    number: u32,
    x: u32,
    name: &PredName,
    places: &[u32],
    at: Place,
) -> Result<[Instruction; 3], NoMemory>
    ensures { IfOk result (λ code. code ≡ spec.close_code (hlds_of tables.now.source.checked.now) number x (Name name.now places.now) (place_told at)) }
{
    let head = plus(tables.functor_count, number_called(tables, name))?;
    let words = plus(small(places.len())?, 3)?;
    let weight = plus(plus(at.pending, 1)?, words)?;
    let (to, detail) = (x, number);
    Ok(alone(instruction(weight, at.next, Operation::Close { to, head, detail })))
}

/// The number of the procedure of this name.
fn number_called(tables: &Tables, name: &PredName) -> u32
    ensures { result ≡ spec.number_called (procedure_called (hlds_of tables.now.source.checked.now) name.now) }
{
    match tables.source.names.predicate(name) {
        None => 0,
        Some((procedure, _)) => procedure.number(),
    }
}

/// A deconstruction of a cell with this head, whose parts at these places have values before.
fn take_code(
    number: u32,
    x: u32,
    head: u32,
    bound: &[u32],
    at: Place,
) -> Result<[Instruction; 3], NoMemory>
    ensures { IfOk result (λ code. (s : Hlds) → (q : PredName) → (ys : List ℕ) → head ≡ functor_number s q.name (length ys) → code ≡ spec.take_code s number x (Name q ys) bound.now (place_told at)) }
{
    let weight = plus(at.pending, 1)?;
    let (of, detail, other) = (x, number, at.other);
    let test = instruction(
        weight,
        second_at(number)?,
        Operation::HasHead { of, head, other },
    );
    let meet = meet_code(number, x, bound, third_at(number)?, at);
    let take = instruction(0, at.next, Operation::Fields { of, detail });
    Ok([test, meet, take])
}

/// The parts that have values before are compared.
fn meet_code(number: u32, x: u32, bound: &[u32], next: u32, at: Place) -> Instruction
    ensures { next ≡ third_at number → result ≡ spec.meet_code number x bound.now (place_told at) }
{
    if bound.is_empty() {
        return instruction(0, next, Operation::Pass);
    }
    let (of, detail, other) = (x, number, at.other);
    instruction(0, next, Operation::Meet { of, detail, other })
}
