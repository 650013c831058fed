// What there is to say of one goal, by what is known before and after it.
ghost use Rattle.std.specs.Prelude.{◌≡◌, ◌<◌, ◌^◌, ◌||◌, cond, [], length, IfOk};
ghost use Rattle.md_hlds.specs.Hlds.{hlds_of};
ghost use Rattle.md_hlds.specs.HldsGoal.{expr_of};
ghost use Rattle.md_inst.specs.Kinds.{kind_sort, instantiation_of, inst_map_of};
ghost use Rattle.md_modes.specs.Notes.{role_of, role_of_variables, role_of_term, role_of_name, role_of_sort, role_of_closure, role_of_unification, bound_places, is_state};
ghost use Rattle.md_modes.specs.Views.{picked, some_state, names_seen};
ghost use Rattle.md_inst.specs.Named as named;
ghost use Rattle.md_reader.specs.Arguments.{HaveFewArguments};
ghost use Rattle.md_modes.specs.Classes.{role_told, class_told};

use crate::class::Class;
use crate::copies::{copy_closure, open_closure};
use md_base::NoMemory;
use md_hlds::{GoalKind, PredName, Term};
use md_inst::{Inst, Kind, functor_called, inst_at, inst_in};
use md_names::Names;
use std::alloc::Global;

/// What a unification does, or the type of the closure that is called.
pub fn class_of(
    alloc: Global,
    names: &Names<'_>,
    goal: &GoalKind,
    insts: &[Inst<'_>],
) -> Result<Option<Class>, NoMemory>
    requires { HaveFewArguments (2 ^ 32) (hlds_of names.now).types }
    ensures { IfOk result (λ class. class_told class ≡ role_of (hlds_of names.now) (expr_of goal.now) (inst_map_of insts.now)) }
{
    match goal {
        GoalKind::Unify(x, term) => {
            let class = class_of_unification(alloc, names, insts, *x, term)?;
            Ok(Some(class))
        }
        GoalKind::HoCall(_, closure, _) => class_of_closure(alloc, inst_at(insts, *closure)),
        GoalKind::True
        | GoalKind::Fail
        | GoalKind::Arith(..)
        | GoalKind::Compare(..)
        | GoalKind::WriteInt(..)
        | GoalKind::WriteStr(..)
        | GoalKind::Nl(..)
        | GoalKind::Error(_)
        | GoalKind::Call(..)
        | GoalKind::Conj(_)
        | GoalKind::Disj(_)
        | GoalKind::If(..)
        | GoalKind::Not(_)
        | GoalKind::Some(..) => Ok(None),
    }
}

fn class_of_unification(
    alloc: Global,
    names: &Names<'_>,
    insts: &[Inst<'_>],
    x: u32,
    term: &Term,
) -> Result<Class, NoMemory>
    requires { HaveFewArguments (2 ^ 32) (hlds_of names.now).types }
    ensures { IfOk result (λ class. role_told class ≡ role_of_unification (hlds_of names.now) x term.now (inst_map_of insts.now)) }
{
    match term {
        Term::Var(y) => Ok(class_of_variables(x, *y, inst_at(insts, x), inst_at(insts, *y))),
        Term::Int(_) | Term::Str(_) => class_of_term(alloc, &[], inst_at(insts, x), insts),
        Term::Name(name, places) => class_of_name(
            alloc,
            names,
            insts,
            inst_at(insts, x),
            name,
            places.as_slice(),
        ),
    }
}

fn class_of_variables(x: u32, y: u32, left: Inst<'_>, right: Inst<'_>) -> Class
    ensures { role_told result ≡ role_of_variables x y (instantiation_of left.entry) (instantiation_of right.entry) }
{
    match left {
        Inst::Free => Class::Assign { to: x },
        Inst::Bound(..) => match right {
            Inst::Free => Class::Assign { to: y },
            Inst::Bound(..) => Class::Test,
        },
    }
}

fn class_of_term(
    alloc: Global,
    places: &[u32],
    inst: Inst<'_>,
    insts: &[Inst<'_>],
) -> Result<Class, NoMemory>
    requires { length places.now < 2 ^ 32 }
    ensures { IfOk result (λ class. role_told class ≡ role_of_term places.now (instantiation_of inst.entry) (inst_map_of insts.now)) }
{
    match inst {
        Inst::Free => Ok(Class::Construct),
        Inst::Bound(..) => Ok(Class::Deconstruct {
            bound: bound_among(alloc, places, insts)?,
        }),
    }
}

fn class_of_name(
    alloc: Global,
    names: &Names<'_>,
    insts: &[Inst<'_>],
    inst: Inst<'_>,
    name: &PredName,
    places: &[u32],
) -> Result<Class, NoMemory>
    requires { HaveFewArguments (2 ^ 32) (hlds_of names.now).types }
    ensures { IfOk result (λ class. role_told class ≡ role_of_name places.now (instantiation_of inst.entry) (inst_map_of insts.now)
        (named.functor_called (hlds_of names.now) name.now (length places.now))) }
{
    match functor_called(names, name, places.len()) {
        Some(_) => class_of_term(alloc, places, inst, insts),
        None => Ok(Class::Close),
    }
}

/// The type of the closure that a variable has.
fn class_of_closure(alloc: Global, inst: Inst<'_>) -> Result<Option<Class>, NoMemory>
    ensures { IfOk result (λ class. class_told class ≡ role_of_closure (instantiation_of inst.entry)) }
{
    match inst {
        Inst::Free => Ok(None),
        Inst::Bound(kind, _) => class_of_kind(alloc, kind),
    }
}

fn class_of_kind(alloc: Global, kind: Kind<'_>) -> Result<Option<Class>, NoMemory>
    ensures { IfOk result (λ class. class_told class ≡ role_of_sort (kind_sort kind.entry)) }
{
    match kind {
        Kind::Closure(closure) => {
            let copy = copy_closure(alloc, closure)?;
            Ok(Some(Class::Closure(copy)))
        }
        Kind::Open(args, det) => {
            let left = open_closure(alloc, args, det)?;
            Ok(Some(Class::Closure(left)))
        }
        Kind::Number | Kind::Text | Kind::World | Kind::Named(_) => Ok(None),
    }
}

/// The places, from 0, of the variables that are bound.
fn bound_among(alloc: Global, places: &[u32], insts: &[Inst<'_>]) -> Result<Vec<u32>, NoMemory>
    requires { length places.now < 2 ^ 32 }
    ensures { IfOk result (λ bound. bound.items ≡ bound_places 0 places.now (inst_map_of insts.now)) }
{
    let mut bound = Vec::new(alloc);
    for number in 0..places.len() {
        if inst_at(insts, places[number]).is_bound() {
            bound.push(number as u32)?;
        }
    }
    Ok(bound)
}

/// What is known of the variables of a goal before it and after it.
#[derive(Clone, Copy)]
pub struct Change<'a, 'b> {
    pub places: &'b [u32],
    pub before: &'b [Inst<'a>],
    pub after: &'b [Inst<'a>],
    pub ghost before_all: { length before.now ≡ length places.now },
    pub ghost after_all: { length after.now ≡ length places.now },
}

impl<'a, 'b> Change<'a, 'b> {
    /// The variables that the goal binds; none where the place after it isn't reachable.
    pub fn binds(self, alloc: Global, reach: bool) -> Result<Vec<u32>, NoMemory>
        ensures { IfOk result (λ bound. bound.items
            ≡ cond reach (picked self.entry.places.now (inst_map_of self.entry.before.now) (inst_map_of self.entry.after.now)) []) }
    {
        if reach {
            self.newly_bound(alloc)
        } else {
            Ok(Vec::new(alloc))
        }
    }

    /// The variables that are free before and bound after.
    fn newly_bound(self, alloc: Global) -> Result<Vec<u32>, NoMemory>
        ensures { IfOk result (λ bound. bound.items ≡ picked self.entry.places.now (inst_map_of self.entry.before.now) (inst_map_of self.entry.after.now)) }
    {
        let mut bound = Vec::new(alloc);
        for number in 0..self.places.len() {
            if Inst::is_newly_bound(inst_in(self.before, number), inst_in(self.after, number)) {
                bound.push(self.places[number])?;
            }
        }
        Ok(bound)
    }

    /// Whether a variable of the goal is an io state before or after it; a conjunction, a disjunction and an if-then-else
    /// name none.
    pub fn names_io(self, goal: &GoalKind) -> bool
        ensures { result ≡ names_seen (expr_of goal.now) (inst_map_of self.entry.before.now) (inst_map_of self.entry.after.now) }
    {
        match goal {
            GoalKind::Conj(_) | GoalKind::Disj(_) | GoalKind::If(..) => false,
            GoalKind::True
            | GoalKind::Fail
            | GoalKind::Unify(..)
            | GoalKind::Arith(..)
            | GoalKind::Compare(..)
            | GoalKind::WriteInt(..)
            | GoalKind::WriteStr(..)
            | GoalKind::Nl(..)
            | GoalKind::Error(_)
            | GoalKind::Call(..)
            | GoalKind::HoCall(..)
            | GoalKind::Not(_)
            | GoalKind::Some(..) => self.has_state(),
        }
    }

    fn has_state(self) -> bool
        ensures { result ≡ some_state (inst_map_of self.entry.before.now) (inst_map_of self.entry.after.now) }
    {
        for number in 0..self.places.len() {
            if is_either_state(inst_in(self.before, number), inst_in(self.after, number)) {
                return true;
            }
        }
        false
    }
}

/// Whether a variable is bound to an io state before or after the goal.
fn is_either_state(before: Inst<'_>, after: Inst<'_>) -> bool
    ensures { result ≡ (is_state (instantiation_of before.entry) || is_state (instantiation_of after.entry)) }
{
    is_state(before) || is_state(after)
}

/// Whether a variable is bound to an io state.
fn is_state(inst: Inst<'_>) -> bool
    ensures { result ≡ is_state (instantiation_of inst.entry) }
{
    match inst {
        Inst::Free => false,
        Inst::Bound(kind, _) => kind.is_world(),
    }
}
