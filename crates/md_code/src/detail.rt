// The details of goals.
ghost use Rattle.std.specs.Prelude.{◌≡◌, ◌++◌, [], ◌∷◌, Some, cond, slice_get, IfOk, OnOk};
ghost use Rattle.md_hlds.specs.Hlds.{hlds_of, procedure_called, procedure_of, args_of};
ghost use Rattle.md_hlds.specs.HldsGoal.{expr_of};
ghost use Rattle.md_modes.specs.Notes.{program_notes};
ghost use Rattle.md_modes.specs.Classes.{role_at};
ghost use Rattle.md_code.specs.Facts.{Stands};
ghost use Rattle.md_code.specs.Blocks.{constant_of};
ghost use Rattle.md_code.specs.Details as spec;
ghost use Rattle.md_code.specs.Tables.{entry_at};
ghost use Rattle.md_code.specs.Told.{place_told};

use crate::cases::switch_detail;
use crate::number::{entry_by, plus};
use crate::place::Place;
use crate::survey::has_choices;
use crate::tables::Tables;
use md_base::{NoMemory, SiteId};
use md_flat::{Call, Detail, Move};
use md_heap::Value;
use md_hlds::{GoalKind, Mode, Pred, PredName, Term, Ty};
use md_modes::Class;
use std::alloc::Global;

/// The detail of the goal of this number.
pub fn detail_of(
    tables: &Tables,
    kind: &GoalKind,
    number: u32,
    at: Place,
) -> Result<Detail, NoMemory>
    ensures { IfOk result (λ detail. Stands (hlds_of tables.now.source.checked.now) number (expr_of kind.now)
        → spec.detail_told detail ≡ spec.detail_of (hlds_of tables.now.source.checked.now) number (expr_of kind.now) (place_told at)) }
{
    match kind {
        GoalKind::Unify(_, term) => unify_detail(tables, term, number),
        GoalKind::Call(site, name, places) => {
            call_detail(tables, *site, name, places.as_slice(), at)
        }
        GoalKind::HoCall(site, _, places) => {
            closure_detail(tables.alloc, *site, places.as_slice(), at)
        }
        GoalKind::Disj(arms) => switch_detail(tables, number, arms.as_slice()),
        GoalKind::True
        | GoalKind::Fail
        | GoalKind::Arith(..)
        | GoalKind::Compare(..)
        | GoalKind::WriteInt(..)
        | GoalKind::WriteStr(..)
        | GoalKind::Nl(..)
        | GoalKind::Conj(_)
        | GoalKind::If(..)
        | GoalKind::Not(_)
        | GoalKind::Some(..)
        | GoalKind::Error(_) => Ok(plain_detail(tables.alloc)),
    }
}

/// No call.
pub const NO_CALL: Call = Call {
    site: 0,
    procedure: 0,
    entry: 0,
    size: 0,
    next: 0,
    other: 0,
    is_closure: false,
};

/// Of a goal that has none.
pub fn plain_detail(alloc: Global) -> Detail
    ensures { spec.detail_told result ≡ spec.plain_detail }
{
    moves_detail(
        alloc,
        Value::Int(0),
        Vec::new(alloc),
        Vec::new(alloc),
        NO_CALL,
    )
}

/// Of a goal that has no targets and cases.
fn moves_detail(
    alloc: Global,
    constant: Value,
    inputs: Vec<Move>,
    outputs: Vec<Move>,
    call: Call,
) -> Detail
    ensures { spec.detail_told result ≡ spec.detail constant inputs.items outputs.items [] [] call }
{
    Detail {
        constant,
        inputs,
        outputs,
        first: 0,
        otherwise: 0,
        targets: Vec::new(alloc),
        cases: Vec::new(alloc),
        call,
    }
}

/// Of the unification of this number.
fn unify_detail(tables: &Tables, term: &Term, number: u32) -> Result<Detail, NoMemory>
    ensures { IfOk result (λ detail. spec.detail_told detail ≡ spec.unify_detail (hlds_of tables.now.source.checked.now) term.now (role_at (program_notes (hlds_of tables.now.source.checked.now)) number)) }
{
    let alloc = tables.alloc;
    let constant = constant_of(tables, term);
    let places = arguments_of(term);
    match tables.source.checked.moded().class(number) {
        Some(Class::Deconstruct { bound }) => {
            take_detail(alloc, constant, bound.as_slice(), places)
        }
        Some(
            Class::Construct
            | Class::Close
            | Class::Assign { .. }
            | Class::Test
            | Class::Closure(_),
        )
        | None => slots_detail(alloc, constant, places, NO_CALL),
    }
}

/// A constant as a value.
fn constant_of(tables: &Tables, term: &Term) -> Value
    ensures { result ≡ constant_of (hlds_of tables.now.source.checked.now) term.now }
{
    match term {
        Term::Var(_) => Value::Int(0),
        Term::Int(number) => Value::Int(*number),
        Term::Str(text) => Value::Lit(tables.literal(text.as_bytes())),
        Term::Name(name, places) => {
            Value::Cell(u64::from(tables.functor(name.name.as_bytes(), places.len())))
        }
    }
}

/// The arguments of a term.
fn arguments_of(term: &Term) -> &[u32]
    ensures { result.now ≡ spec.arguments_of term.now }
{
    match term {
        Term::Var(_) | Term::Int(_) | Term::Str(_) => &[],
        Term::Name(_, places) => places.as_slice(),
    }
}

/// Of a goal that has only inputs, from these slots.
fn slots_detail(
    alloc: Global,
    constant: Value,
    places: &[u32],
    call: Call,
) -> Result<Detail, NoMemory>
    ensures { IfOk result (λ detail. spec.detail_told detail ≡ spec.detail constant (spec.from_slots places.now) [] [] [] call) }
{
    let mut inputs = Vec::new(alloc);
    for from in places {
        inputs.push(Move { from: *from, to: 0 })?;
    }
    Ok(moves_detail(alloc, constant, inputs, Vec::new(alloc), call))
}

/// Of a deconstruction: the parts whose places are among these, each beside its slot, and the others.
fn take_detail(
    alloc: Global,
    constant: Value,
    bound: &[u32],
    places: &[u32],
) -> Result<Detail, NoMemory>
    ensures { IfOk result (λ detail. spec.detail_told detail ≡ spec.detail constant (spec.met_parts bound.now 0 places.now) (spec.taken_parts bound.now 0 places.now) [] [] spec.no_call) }
{
    let mut met = Vec::new(alloc);
    let mut taken = Vec::new(alloc);
    let mut from: u32 = 0;
    for to in places {
        let part = Move { from, to: *to };
        let is_bound = is_bound_at(from, bound);
        push_if(&mut met, is_bound, part)?;
        push_if(&mut taken, !is_bound, part)?;
        from = plus(from, 1)?;
    }
    Ok(moves_detail(alloc, constant, met, taken, NO_CALL))
}

/// Whether a place is among these.
fn is_bound_at(place: u32, bound: &[u32]) -> bool
    ensures { result ≡ spec.is_bound_at place bound.now }
{
    for other in bound {
        if place == *other {
            return true;
        }
    }
    false
}

/// Adds a move, if it is wanted.
fn push_if(moves: &mut Vec<Move>, is_wanted: bool, one: Move) -> Result<(), NoMemory>
    ensures { OnOk result (moves.new.items ≡ cond is_wanted (moves.old.items ++ one ∷ []) moves.old.items) }
{
    if !is_wanted {
        return Ok(());
    }
    moves.push(one)?;
    Ok(())
}

/// Of a call.
fn call_detail(
    tables: &Tables,
    site: SiteId,
    name: &PredName,
    places: &[u32],
    at: Place,
) -> Result<Detail, NoMemory>
    ensures { IfOk result (λ detail. spec.detail_told detail ≡ spec.call_detail (hlds_of tables.now.source.checked.now) site places.now (place_told at) (procedure_called (hlds_of tables.now.source.checked.now) name.now)) }
{
    match tables.source.names.predicate(name) {
        None => Ok(plain_detail(tables.alloc)),
        Some(found) => called_detail(tables, site, found.0.number(), found.1, places, at),
    }
}

/// Of a call of a predicate of this number.
fn called_detail(
    tables: &Tables,
    site: SiteId,
    procedure: u32,
    pred: &Pred,
    places: &[u32],
    at: Place,
) -> Result<Detail, NoMemory>
    ensures { IfOk result (λ detail. slice_get (hlds_of tables.now.source.checked.now).procedures procedure ≡ Some (procedure_of pred.now)
        → spec.detail_told detail ≡ spec.call_detail (hlds_of tables.now.source.checked.now) site places.now (place_told at) (Some (procedure, procedure_of pred.now))) }
{
    let entry = entry_of(tables, procedure, pred)?;
    let call = Call {
        site: site.number(),
        procedure,
        entry,
        size: at.size,
        next: at.next,
        other: at.other,
        is_closure: false,
    };
    passed_detail(
        tables.alloc,
        pred.args.as_slice(),
        pred.head.as_slice(),
        places,
        call,
    )
}

/// The slots of the caller's variables that go in beside those of the head's, and those that come out.
fn passed_detail(
    alloc: Global,
    args: &[(Ty, Mode)],
    heads: &[u32],
    places: &[u32],
    call: Call,
) -> Result<Detail, NoMemory>
    ensures { IfOk result (λ detail. spec.detail_told detail ≡ spec.detail spec.no_value (spec.call_inputs (args_of args.now) heads.now places.now) (spec.call_outputs (args_of args.now) heads.now places.now) [] [] call) }
{
    let mut inputs = Vec::new(alloc);
    let mut outputs = Vec::new(alloc);
    let count = places.len().min(heads.len()).min(args.len());
    for number in 0..count {
        let (own, head) = (places[number], heads[number]);
        let goes_in = goes_in(args[number].1);
        push_if(
            &mut inputs,
            goes_in,
            Move {
                from: own,
                to: head,
            },
        )?;
        push_if(
            &mut outputs,
            !goes_in,
            Move {
                from: head,
                to: own,
            },
        )?;
    }
    Ok(moves_detail(alloc, Value::Int(0), inputs, outputs, call))
}

/// Whether an argument of this mode goes in.
pub fn goes_in(mode: Mode) -> bool
    ensures { result ≡ spec.goes_in mode }
{
    match mode {
        Mode::In | Mode::Di => true,
        Mode::Out | Mode::Uo => false,
    }
}

/// Of a call by a closure.
fn closure_detail(
    alloc: Global,
    site: SiteId,
    places: &[u32],
    at: Place,
) -> Result<Detail, NoMemory>
    ensures { IfOk result (λ detail. spec.detail_told detail ≡ spec.closure_detail site places.now (place_told at)) }
{
    let call = Call {
        site: site.number(),
        procedure: 0,
        entry: 0,
        size: at.size,
        next: at.next,
        other: at.other,
        is_closure: true,
    };
    slots_detail(alloc, Value::Int(0), places, call)
}

/// Where the body of a procedure begins.
pub fn entry_of(tables: &Tables, procedure: u32, pred: &Pred) -> Result<u32, NoMemory>
    ensures { IfOk result (λ entry. slice_get (hlds_of tables.now.source.checked.now).procedures procedure ≡ Some (procedure_of pred.now)
        → entry ≡ entry_at (hlds_of tables.now.source.checked.now) procedure (procedure_of pred.now)) }
{
    let callee = tables.callee(procedure);
    let leaves = tables.leaves(callee.body);
    let is_many = has_choices(pred.det);
    let entry = entry_by(is_many, leaves, callee.body)?;
    Ok(entry)
}
