// Names and texts: whether bytes are a name, what a copy has, and the order of two names.
use crate::input::{halves, show_bytes};
use md_base::{Name, NoMemory, Text};
use std::alloc::{AllocError, Global};
use test_cases::{Case, Field};

/// What the lines `name BYTES`, `text BYTES` and `order NAME NAME` ask for.
pub fn show(alloc: Global, case: &Case, found: &mut String) -> Result<(), AllocError> {
    for field in case.fields() {
        show_field(alloc, field, found)?;
    }
    Ok(())
}

fn show_field(alloc: Global, field: &Field, found: &mut String) -> Result<(), AllocError> {
    match field.key.as_str() {
        "name" => match Name::from_bytes(alloc, field.bytes.as_slice()) {
            Ok(Some(name)) => show_name(alloc, &name, found),
            Ok(None) => writeln!(found, "no name"),
            Err(NoMemory) => Err(AllocError),
        },
        "text" => match Text::from_bytes(alloc, field.bytes.as_slice()) {
            Ok(text) => show_text(alloc, &text, found),
            Err(NoMemory) => Err(AllocError),
        },
        "order" => show_order(alloc, field.text.as_str(), found),
        _ => Ok(()),
    }
}

/// Adds what a copy of a name has, and whether it is equal.
fn show_name(alloc: Global, name: &Name, found: &mut String) -> Result<(), AllocError> {
    let Ok(copy) = name.copy(alloc) else {
        return Err(AllocError);
    };
    let said = if copy == *name { "an equal" } else { "another" };
    write!(found, "{said} name of ")?;
    show_bytes(alloc, copy.as_bytes(), found)
}

/// Adds what a copy of a text has.
fn show_text(alloc: Global, text: &Text, found: &mut String) -> Result<(), AllocError> {
    let Ok(copy) = text.copy(alloc) else {
        return Err(AllocError);
    };
    write!(found, "a text of ")?;
    show_bytes(alloc, copy.as_bytes(), found)
}

/// Adds how the first of two names stands to the second.
fn show_order(alloc: Global, text: &str, found: &mut String) -> Result<(), AllocError> {
    let (first, second) = halves(text);
    match order(alloc, first.as_bytes(), second.as_bytes()) {
        Ok(said) => writeln!(found, "{said}"),
        Err(NoMemory) => Err(AllocError),
    }
}

fn order(alloc: Global, first: &[u8], second: &[u8]) -> Result<&'static str, NoMemory> {
    let Some(first) = Name::from_bytes(alloc, first)? else {
        return Ok("no name");
    };
    let Some(second) = Name::from_bytes(alloc, second)? else {
        return Ok("no name");
    };
    Ok(if first < second {
        "before"
    } else if first == second {
        "the same"
    } else {
        "after"
    })
}
