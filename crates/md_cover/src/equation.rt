// Equations between quantities.
ghost use Rattle.std.specs.Prelude.{◌≡◌, ◌++◌, ◌∷◌, [], IfOk, OnOk};
ghost use Rattle.law_turns.specs.Equations as spec;
ghost use Rattle.md_cover.specs.Told.{quantity_of, quantities_of, equations_of};

use md_base::NoMemory;

/// How often a goal is entered, and how often it is left with a solution. Goals go by their numbers in the file.
#[derive(Clone, Copy, PartialEq, Eq)]
pub(crate) enum Quantity {
    Entries(u32),
    Exits(u32),
}

/// The whole is the sum of the parts and the number.
#[derive(Drop)]
pub(crate) struct Equation {
    pub whole: Quantity,
    pub parts: Vec<Quantity>,
    pub number: u64,
}

/// Adds that a quantity is a number.
pub(crate) fn add_count(
    equations: &mut Vec<Equation>,
    whole: Quantity,
    number: u64,
) -> Result<(), NoMemory>
    ensures { OnOk result (equations_of equations.new.items ≡ equations_of equations.old.items ++ (spec.is_count (quantity_of whole) number ∷ [])) }
{
    let parts = Vec::new(*equations.allocator());
    equations.push(Equation {
        whole,
        parts,
        number,
    })?;
    Ok(())
}

/// Adds that a quantity is another.
pub(crate) fn add_equal(
    equations: &mut Vec<Equation>,
    whole: Quantity,
    part: Quantity,
) -> Result<(), NoMemory>
    ensures { OnOk result (equations_of equations.new.items ≡ equations_of equations.old.items ++ (spec.equals (quantity_of whole) (quantity_of part) ∷ [])) }
{
    let mut parts = Vec::new(*equations.allocator());
    parts.push(part)?;
    add_sum(equations, whole, parts)
}

/// Adds that a quantity is the sum of two.
pub(crate) fn add_both(
    equations: &mut Vec<Equation>,
    whole: Quantity,
    first: Quantity,
    second: Quantity,
) -> Result<(), NoMemory>
    ensures { OnOk result (equations_of equations.new.items ≡ equations_of equations.old.items ++ (spec.sums (quantity_of whole) (quantity_of first ∷ quantity_of second ∷ []) ∷ [])) }
{
    let mut parts = Vec::new(*equations.allocator());
    parts.push(first)?;
    parts.push(second)?;
    add_sum(equations, whole, parts)
}

/// Adds that a quantity is the sum of these.
pub(crate) fn add_sum(
    equations: &mut Vec<Equation>,
    whole: Quantity,
    parts: Vec<Quantity>,
) -> Result<(), NoMemory>
    ensures { OnOk result (equations_of equations.new.items ≡ equations_of equations.old.items ++ (spec.sums (quantity_of whole) (quantities_of parts.items) ∷ [])) }
{
    equations.push(Equation {
        whole,
        parts,
        number: 0,
    })?;
    Ok(())
}
