// Names: what they stand for, and the numbers of predicates, call sites and variables.
use crate::fault::Fault;
use crate::words::{count_of, halves, name_of, place_of, places_of, plain_name, readable};
use md_base::{ProcId, SiteId};
use md_hlds::{Program, Variables};
use md_inst::functor_called;
use md_names::Names;
use std::alloc::Global;
use test_cases::{Case, Field};

/// Adds the list of variables that got these one after the other, and the list that is made of its places.
pub fn variables(alloc: Global, case: &Case, found: &mut String) -> Result<(), Fault> {
    let variables = variables_of(alloc, case)?;
    tell(&variables, found)?;
    let again = Variables::from_vec(variables.into_vec());
    tell(&again, found)
}

/// The list of variables that got the places of a case one after the other.
fn variables_of(alloc: Global, case: &Case) -> Result<Variables, Fault> {
    let places = places_of(alloc, case.text("places"))?;
    let mut variables = Variables::new(alloc);
    for place in places.as_slice() {
        variables.push(*place)?;
    }
    Ok(variables)
}

/// Adds how many variables a list has, and their places.
fn tell(variables: &Variables, found: &mut String) -> Result<(), Fault> {
    let count = variables.len();
    let places = variables.as_slice();
    Ok(writeln!(found, "{count}: {places:?}")?)
}

/// Adds the name of each predicate by its number, and the owner and the line of each call site, each up to the first
/// number that has none.
pub fn numbers(program: &Program, found: &mut String) -> Result<(), Fault> {
    predicates(program, found)?;
    sites(program, found)
}

/// Adds the name of each predicate by its number.
fn predicates(program: &Program, found: &mut String) -> Result<(), Fault> {
    for number in 0..=count_of(program.preds.len())? {
        let name = match program.pred(ProcId::new(number)) {
            Some(pred) => readable(pred.name.as_bytes()),
            None => "none",
        };
        writeln!(found, "predicate {number}: {name}")?;
    }
    Ok(())
}

/// Adds the owner and the line of each call site by its number.
fn sites(program: &Program, found: &mut String) -> Result<(), Fault> {
    for number in 0..u32::MAX {
        let site = program.site(SiteId::new(number));
        writeln!(found, "site {number}: {site:?}")?;
        if site.is_none() {
            return Ok(());
        }
    }
    Ok(())
}

/// Adds how many predicates a program has, and what is found for each name of the case.
pub fn names(
    alloc: Global,
    case: &Case,
    program: &Program,
    found: &mut String,
) -> Result<(), Fault> {
    let names = Names::new(alloc, program)?;
    let count = names.program().preds.len();
    writeln!(found, "predicates: {count}")?;
    look_up_all(alloc, &names, case.fields(), found)
}

/// Adds what is found for the names of these lines.
fn look_up_all(
    alloc: Global,
    names: &Names,
    fields: &[Field],
    found: &mut String,
) -> Result<(), Fault> {
    for field in fields {
        look_up(alloc, names, field, found)?;
    }
    Ok(())
}

/// Adds what is found for a name, where the line has one.
fn look_up(alloc: Global, names: &Names, field: &Field, found: &mut String) -> Result<(), Fault> {
    let text = field.text.as_str();
    match field.key.as_str() {
        "predicate" => predicate(alloc, names, text, found),
        "functor" => functor(alloc, names, text, found),
        "name" => kinds(alloc, names, text, found),
        "term" => term(alloc, names, text, found),
        _ => Ok(()),
    }
}

/// Adds the number and the line of the predicate of this name.
fn predicate(alloc: Global, names: &Names, text: &str, found: &mut String) -> Result<(), Fault> {
    let name = name_of(alloc, text)?;
    match names.predicate(&name) {
        None => writeln!(found, "{text}: none")?,
        Some((number, pred)) => {
            let line = pred.line;
            writeln!(found, "{text}: {number:?}, line {line}")?;
        }
    }
    Ok(())
}

/// Adds the line of the type that has a functor of this name and this number of arguments.
fn functor(alloc: Global, names: &Names, text: &str, found: &mut String) -> Result<(), Fault> {
    let (name, arity) = halves(text);
    let name = plain_name(alloc, name)?;
    match names.functor(&name, place_of(arity)? as usize) {
        None => writeln!(found, "{text}: none")?,
        Some((of, _)) => {
            let line = of.line;
            writeln!(found, "{text}: line {line}")?;
        }
    }
    Ok(())
}

/// Adds whether a name is a type's, and whether it is a functor's.
fn kinds(alloc: Global, names: &Names, text: &str, found: &mut String) -> Result<(), Fault> {
    let name = plain_name(alloc, text)?;
    let of_type = names.has_type(&name);
    let of_functor = names.has_functor_name(&name);
    Ok(writeln!(found, "{text}: type {of_type}, functor {of_functor}")?)
}

/// Adds what a name with this number of arguments stands for in a term, and the type that it makes as a functor.
fn term(alloc: Global, names: &Names, text: &str, found: &mut String) -> Result<(), Fault> {
    let (name, arity) = halves(text);
    let name = name_of(alloc, name)?;
    let arity = place_of(arity)? as usize;
    let named = names.term(&name, arity);
    let makes = match functor_called(names, &name, arity) {
        None => "nothing",
        Some(functor) => readable(functor.makes.as_bytes()),
    };
    Ok(writeln!(found, "{text}: {named:?}, makes {makes}")?)
}
