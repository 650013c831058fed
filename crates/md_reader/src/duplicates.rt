// Second declarations.
ghost use Rattle.std.specs.Prelude.{◌≡◌, [], ◌++◌, OnOk, IfOk, map, option_map, length};
ghost use Rattle.std.specs.List.{flat_map};
ghost use Rattle.md_hlds.specs.Hlds.{hlds_of, type_defs_of, procedures_of, hlds_functors_of, hlds_types_of};
ghost use Rattle.md_reader.specs.Duplicates as spec;
ghost use Rattle.md_reader.specs.Views.{declared_of, all_declared};

use indexmap::IndexSet;
use md_base::{Name, NoMemory};
use md_hlds::{Functor, Pred, Program, Ty, TypeDef};
use std::alloc::Global;

/// The name under which something is declared, with the number of arguments of a functor.
#[derive(Clone, Copy, PartialEq, Eq, Hash, Drop)]
pub(crate) struct Key<'a> {
    pub qualifier: Option<&'a [u8]>,
    pub name: &'a [u8],
    pub arity: usize,
}

/// What is declared, and the line of the declaration's `:-`.
#[derive(Clone, Copy)]
pub(crate) struct Declared<'a> {
    pub key: Key<'a>,
    pub line: u32,
}

/// The line of the first second declaration, of a type, a functor or a predicate.
#[tactic(auto, unfolding(crate::specs::Duplicates::duplicate))]
pub(crate) fn duplicate(alloc: Global, program: &Program) -> Result<Option<u32>, NoMemory>
    ensures { IfOk result (λ line. line ≡ spec.duplicate (hlds_of program.now)) }
{
    let type_definition = second_type_definition(alloc, program)?;
    let functor = second_functor(alloc, program)?;
    let procedure = second_procedure(alloc, program)?;
    Ok(earlier(type_definition, earlier(functor, procedure)))
}

fn earlier(a: Option<u32>, b: Option<u32>) -> Option<u32>
    ensures { result ≡ spec.earlier a b }
{
    match (a, b) {
        (None, b) => b,
        (Some(a), None) => Some(a),
        (Some(a), Some(b)) => Some(a.min(b)),
    }
}

#[tactic(auto, unfolding(crate::specs::Duplicates::second_type_definition))]
fn second_type_definition(alloc: Global, program: &Program) -> Result<Option<u32>, NoMemory>
    ensures { IfOk result (λ line. line ≡ spec.second_type_definition (hlds_of program.now)) }
{
    let declared = type_definitions(alloc, &program.types)?;
    first_second(alloc, &declared)
}

#[tactic(auto, unfolding(crate::specs::Duplicates::second_functor))]
fn second_functor(alloc: Global, program: &Program) -> Result<Option<u32>, NoMemory>
    ensures { IfOk result (λ line. line ≡ spec.second_functor (hlds_of program.now)) }
{
    let mut declared = Vec::new(alloc);
    functors(&mut declared, &program.types)?;
    first_second(alloc, &declared)
}

#[tactic(auto, unfolding(crate::specs::Duplicates::second_procedure))]
fn second_procedure(alloc: Global, program: &Program) -> Result<Option<u32>, NoMemory>
    ensures { IfOk result (λ line. line ≡ spec.second_procedure (hlds_of program.now)) }
{
    let declared = procedures(alloc, &program.preds)?;
    first_second(alloc, &declared)
}

/// The line of the first one that was declared before.
fn first_second(alloc: Global, declared: &[Declared<'_>]) -> Result<Option<u32>, NoMemory>
    ensures { IfOk result (λ line. line ≡ spec.first_second [] (all_declared declared.now)) }
{
    let mut seen = IndexSet::new(alloc);
    for one in declared {
        if !seen.insert(one.key)? {
            return Ok(Some(one.line));
        }
    }
    Ok(None)
}

fn type_definitions<'a>(alloc: Global, types: &'a [TypeDef]) -> Result<Vec<Declared<'a>>, NoMemory>
    ensures { IfOk result (λ declared. all_declared declared.items ≡ map spec.declared_type_definition (type_defs_of types.now)) }
{
    let mut declared = Vec::new(alloc);
    for type_definition in types {
        let key = Key {
            qualifier: None,
            name: type_definition.name.as_bytes(),
            arity: 0,
        };
        declared.push(Declared {
            key,
            line: type_definition.line,
        })?;
    }
    Ok(declared)
}

fn functors<'a>(declared: &mut Vec<Declared<'a>>, types: &'a [TypeDef]) -> Result<(), NoMemory>
    ensures { OnOk result (all_declared declared.new.items ≡ all_declared declared.old.items ++ flat_map spec.declared_functors (type_defs_of types.now)) }
{
    for type_definition in types {
        functors_of_one(declared, type_definition.line, &type_definition.functors)?;
    }
    Ok(())
}

fn functors_of_one<'a>(
    declared: &mut Vec<Declared<'a>>,
    line: u32,
    functors: &'a [Functor],
) -> Result<(), NoMemory>
    ensures { OnOk result (all_declared declared.new.items ≡ all_declared declared.old.items ++ map (spec.declared_functor line) (hlds_functors_of functors.now)) }
{
    for functor in functors {
        let key = Key {
            qualifier: None,
            name: functor.name.as_bytes(),
            arity: arity(&functor.args),
        };
        declared.push(Declared { key, line })?;
    }
    Ok(())
}

#[tactic(auto, using(crate::proofs::Lists::length_types_of))]
fn arity(args: &[Ty]) -> usize
    ensures { result ≡ length (hlds_types_of args.now) }
{
    args.len()
}

fn procedures<'a>(alloc: Global, preds: &'a [Pred]) -> Result<Vec<Declared<'a>>, NoMemory>
    ensures { IfOk result (λ declared. all_declared declared.items ≡ map spec.declared_procedure (procedures_of preds.now)) }
{
    let mut declared = Vec::new(alloc);
    for pred in preds {
        let key = Key {
            qualifier: qualifier(&pred.qualifier),
            name: pred.name.as_bytes(),
            arity: 0,
        };
        declared.push(Declared {
            key,
            line: pred.line,
        })?;
    }
    Ok(declared)
}

fn qualifier(name: &Option<Name>) -> Option<&[u8]>
    ensures { option_map (λ q. q.now) result ≡ name.now }
{
    match name {
        None => None,
        Some(name) => Some(name.as_bytes()),
    }
}
