// The names of a program.
ghost use Rattle.std.specs.Prelude.{◌≡◌, None, Some, IfOk, MatchOption};
ghost use Rattle.md_hlds.specs.Hlds.{hlds_of, procedure_of, type_def_of, hlds_functor_of, procedure_called};
ghost use Rattle.md_hlds.specs.HldsGoal.{expr_of};
ghost use Rattle.md_names.specs.Named.{is_type, some_has_name, functor_found, functor_placed, named_term, named_call, term_name, expr_name};
ghost use Rattle.md_names.specs.Maps.{functor_told};

use crate::functors::{Declared, functors_of};
use crate::key::{FunctorKey, PredicateKey};
use crate::named::Named;
use crate::predicates::{key_of, predicates_of};
use crate::types::names_of_types;
use indexmap::{IndexMap, IndexSet};
use md_base::{Name, NoMemory, ProcId};
use md_hlds::{Functor, GoalKind, Pred, PredName, Program, Term, TypeDef};
use std::alloc::Global;
use std::marker::Model;

/// What the names of a program stand for. Of several things of one name it is the first. Contracts see the program.
#[derive(Drop)]
pub struct Names<'a> {
    program: &'a Program,
    predicates: IndexMap<PredicateKey<'a>, (u32, &'a Pred)>,
    functors: IndexMap<FunctorKey<'a>, Declared<'a>>,
    type_names: IndexSet<&'a [u8]>,
    functor_names: IndexSet<&'a [u8]>,
}

impl<'a> Model for Names<'a> {
    ghost use Rattle.std.specs.Coded.{codes};
    ghost use Rattle.md_hlds.specs.declared.program.Program.{Program};
    ghost use Rattle.md_hlds.specs.contracts.goal.Goal as goal;
    ghost use Rattle.md_hlds.specs.contracts.types.Ty as ty;
    ghost use Rattle.md_hlds.specs.Hlds.{hlds_of};
    ghost use Rattle.md_names.specs.Maps.{ArePredicates, AreFunctors, AreTypeNames, AreFunctorNames};

    ghost Value = { Program };

    ghost coded = { Prim.hlevel (codes, goal.the_row.coded, ty.the_row.coded) };

    ghost view = { λ names. names.program.now };

    ghost invariant = { λ names. ArePredicates names.predicates (hlds_of names.program.now).procedures
        × AreFunctors names.functors (hlds_of names.program.now).types
        × AreTypeNames names.type_names (hlds_of names.program.now).types
        × AreFunctorNames names.functor_names (hlds_of names.program.now).types };
}

impl<'a> Names<'a> {
    /// The names of this program. Takes time and memory near linear in it.
    pub fn new(alloc: Global, program: &'a Program) -> Result<Names<'a>, NoMemory>
        ensures { IfOk result (λ names. names ≡ program.now) }
    {
        let predicates = predicates_of(alloc, program)?;
        let functors = functors_of(alloc, program)?;
        let (type_names, functor_names) = names_of_types(alloc, program)?;
        Ok(Names {
            program,
            predicates,
            functors,
            type_names,
            functor_names,
        })
    }

    /// The program.
    pub fn program(&self) -> &'a Program
        ensures { result.now ≡ self.now }
    {
        self.program
    }

    /// The predicate of this name with its number, or `None` exactly where the program has none.
    pub fn predicate(&self, name: &PredName) -> Option<(ProcId, &'a Pred)>
        ensures { MatchOption result (procedure_called (hlds_of self.now) name.now ≡ None)
            (λ found. procedure_called (hlds_of self.now) name.now ≡ Some (found.0, procedure_of found.1.now)) }
    {
        let key = key_of(&name.qualifier, &name.name);
        let (number, pred) = self.predicates.get(&key)?;
        Some((ProcId::new(*number), *pred))
    }

    /// The functor of this name and arity with its type, or `None` exactly where the program has none.
    pub fn functor(&self, name: &Name, arity: usize) -> Option<(&'a TypeDef, &'a Functor)>
        ensures { MatchOption result (functor_found name.now arity (hlds_of self.now).types ≡ None)
            (λ found. functor_found name.now arity (hlds_of self.now).types
            ≡ Some (type_def_of found.0.now, hlds_functor_of found.1.now)) }
    {
        match self.declared(name.as_bytes(), arity) {
            None => None,
            Some(declared) => Some((declared.family, declared.functor)),
        }
    }

    /// What the name in a goal stands for: that of the term of a unification, or that of a call.
    pub fn in_goal(&self, goal: &GoalKind) -> Named
        ensures { result ≡ expr_name (hlds_of self.now) (expr_of goal.now) }
    {
        match goal {
            GoalKind::Unify(_, term) => self.in_term(term),
            GoalKind::Call(_, name, _) => self.call(name),
            GoalKind::True
            | GoalKind::Fail
            | GoalKind::Arith(..)
            | GoalKind::Compare(..)
            | GoalKind::WriteInt(..)
            | GoalKind::WriteStr(..)
            | GoalKind::Nl(..)
            | GoalKind::Error(_)
            | GoalKind::HoCall(..)
            | GoalKind::Conj(_)
            | GoalKind::Disj(_)
            | GoalKind::If(..)
            | GoalKind::Not(_)
            | GoalKind::Some(..) => Named::Nothing,
        }
    }

    fn in_term(&self, term: &Term) -> Named
        ensures { result ≡ term_name (hlds_of self.now) term.now }
    {
        match term {
            Term::Var(_) => Named::Nothing,
            Term::Int(_) => Named::Nothing,
            Term::Str(_) => Named::Nothing,
            Term::Name(name, places) => self.term(name, places.len()),
        }
    }

    /// What a name with so many arguments stands for in a term: an unqualified one is a functor where a type declares it,
    /// and any other a predicate.
    pub fn term(&self, name: &PredName, arity: usize) -> Named
        ensures { result ≡ named_term (hlds_of self.now) name.now arity }
    {
        match name.qualifier {
            None => match self.declared(name.name.as_bytes(), arity) {
                None => self.call(name),
                Some(declared) => Named::Functor(declared.place),
            },
            Some(_) => self.call(name),
        }
    }

    /// What the name of a call stands for: a predicate, if the program has one of that name.
    pub fn call(&self, name: &PredName) -> Named
        ensures { result ≡ named_call (hlds_of self.now) name.now }
    {
        match self.predicate(name) {
            None => Named::Nothing,
            Some((number, _)) => Named::Predicate(number),
        }
    }

    /// Whether a type of this name is declared.
    pub fn has_type(&self, name: &Name) -> bool
        ensures { result ≡ is_type name.now (hlds_of self.now).types }
    {
        self.type_names.contains(name.as_bytes())
    }

    /// Whether a functor has this name, whatever its arity.
    pub fn has_functor_name(&self, name: &Name) -> bool
        ensures { result ≡ some_has_name name.now (hlds_of self.now).types }
    {
        self.functor_names.contains(name.as_bytes())
    }

    /// The functor of this name and arity, with its type and the type's place.
    fn declared(&self, name: &[u8], arity: usize) -> Option<Declared<'a>>
        ensures { functor_told result ≡ functor_placed name.now arity 0 (hlds_of self.now).types }
    {
        let key = FunctorKey { name, arity };
        match self.functors.get(&key) {
            None => None,
            Some(declared) => Some(*declared),
        }
    }
}
