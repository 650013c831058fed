// Names and variables.
ghost use Rattle.std.specs.Prelude.{◌≡◌, ◌++◌, OnOk, codes};
ghost use Rattle.md_printer.specs.Layout.{spaced, laid, further};
ghost use Rattle.md_printer.specs.Printed as spec;

use crate::layout::{sign, token};
use md_base::{Name, NoMemory};

/// Adds a name, with its qualifier where it has one.
pub(crate) fn written(
    text: &mut Vec<u8>,
    qualifier: &Option<Name>,
    name: &Name,
) -> Result<(), NoMemory>
    ensures { OnOk result (text.new.items ≡ text.old.items ++ spaced (spec.written qualifier.now name.now)) }
{
    if let Some(module) = qualifier {
        text.extend_from_slice(module.as_bytes())?;
        text.push(b'.')?;
    }
    token(text, name.as_bytes())
}

/// Adds a variable of a clause, by its place among the names of the clause's variables.
pub(crate) fn variable(text: &mut Vec<u8>, names: &[Name], place: u32) -> Result<(), NoMemory>
    ensures { OnOk result (text.new.items ≡ text.old.items ++ spaced (spec.variable names.now place)) }
{
    match names.get(place as usize) {
        Some(name) => token(text, name.as_bytes()),
        None => token(text, b""),
    }
}

/// Adds variables with commas between them.
#[tactic(auto, unfolding(crate::specs::Layout::laid))]
pub(crate) fn variables(text: &mut Vec<u8>, names: &[Name], places: &[u32]) -> Result<(), NoMemory>
    ensures { OnOk result (text.new.items ≡ text.old.items ++ laid (spec.variables names.now places.now)) }
{
    if let [first, rest @ ..] = places {
        variable(text, names, *first)?;
        further_variables(text, names, rest)?;
    }
    Ok(())
}

/// Adds variables with a comma before each.
#[tactic(auto, unfolding(crate::specs::Layout::laid))]
pub(crate) fn further_variables(
    text: &mut Vec<u8>,
    names: &[Name],
    places: &[u32],
) -> Result<(), NoMemory>
    ensures { OnOk result (text.new.items ≡ text.old.items ++ laid (further (spec.single (spec.variable names.now)) (codes ",") places.now)) }
{
    for place in places {
        sign(text, ",")?;
        variable(text, names, *place)?;
    }
    Ok(())
}

/// Adds nothing, or variables in parentheses.
#[tactic(auto, unfolding(crate::specs::Layout::laid))]
pub(crate) fn variables_in_parentheses(
    text: &mut Vec<u8>,
    names: &[Name],
    places: &[u32],
) -> Result<(), NoMemory>
    ensures { OnOk result (text.new.items ≡ text.old.items ++ laid (spec.variables_in_parentheses names.now places.now)) }
{
    if places.is_empty() {
        return Ok(());
    }
    sign(text, "(")?;
    variables(text, names, places)?;
    sign(text, ")")
}
