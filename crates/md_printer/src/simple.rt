// Goals without parts.
ghost use Rattle.std.specs.Prelude.{◌≡◌, ◌++◌, [], ◌∷◌, OnOk, codes};
ghost use Rattle.md_hlds.specs.HldsGoal.{Unifies, Computes, Compares};
ghost use Rattle.md_printer.specs.Layout.{laid, spaced};
ghost use Rattle.md_printer.specs.Printed as spec;

use crate::layout::sign;
use crate::literal::{integer, quoted};
use crate::names::{further_variables, variable, variables_in_parentheses, written};
use md_base::{Name, NoMemory};
use md_hlds::{Cmp, Op, PredName, Term, Variables};

#[tactic(auto, unfolding(crate::specs::Layout::laid))]
pub(crate) fn unification(
    text: &mut Vec<u8>,
    names: &[Name],
    x: u32,
    right: &Term,
) -> Result<(), NoMemory>
    ensures { OnOk result (text.new.items ≡ text.old.items ++ laid (spec.simple_tokens names.now (Unifies x right.now))) }
{
    variable(text, names, x)?;
    sign(text, "=")?;
    term(text, names, right)
}

/// Adds a name, and variables in parentheses where there are any.
#[tactic(auto, unfolding(crate::specs::Layout::laid))]
pub(crate) fn applied(
    text: &mut Vec<u8>,
    names: &[Name],
    name: &PredName,
    places: &Variables,
) -> Result<(), NoMemory>
    ensures { OnOk result (text.new.items ≡ text.old.items ++ laid (spec.applied names.now name.now places.now)) }
{
    written(text, &name.qualifier, &name.name)?;
    variables_in_parentheses(text, names, places.as_slice())
}

#[tactic(auto, unfolding(crate::specs::Layout::laid))]
pub(crate) fn arithmetic(
    text: &mut Vec<u8>,
    names: &[Name],
    z: u32,
    a: u32,
    op: Op,
    b: u32,
) -> Result<(), NoMemory>
    ensures { OnOk result (text.new.items ≡ text.old.items ++ laid (spec.simple_tokens names.now (Computes z a op b))) }
{
    variable(text, names, z)?;
    sign(text, "=")?;
    variable(text, names, a)?;
    operator(text, op)?;
    variable(text, names, b)
}

#[tactic(auto, unfolding(crate::specs::Layout::laid))]
pub(crate) fn comparison(
    text: &mut Vec<u8>,
    names: &[Name],
    a: u32,
    cmp: Cmp,
    b: u32,
) -> Result<(), NoMemory>
    ensures { OnOk result (text.new.items ≡ text.old.items ++ laid (spec.simple_tokens names.now (Compares a cmp b))) }
{
    variable(text, names, a)?;
    compared(text, cmp)?;
    variable(text, names, b)
}

/// Adds a builtin goal that writes a variable.
#[tactic(auto, unfolding(crate::specs::Layout::laid))]
pub(crate) fn write(
    text: &mut Vec<u8>,
    names: &[Name],
    word: &str,
    x: u32,
    before: u32,
    after: u32,
) -> Result<(), NoMemory>
    ensures { OnOk result (text.new.items ≡ text.old.items ++ laid (word.now ∷ spec.variables_in_parentheses names.now (x ∷ before ∷ after ∷ []))) }
{
    sign(text, word)?;
    variables_in_parentheses(text, names, &[x, before, after])
}

/// Adds the builtin goal that ends a line.
#[tactic(auto, unfolding(crate::specs::Layout::laid))]
pub(crate) fn end_line(
    text: &mut Vec<u8>,
    names: &[Name],
    before: u32,
    after: u32,
) -> Result<(), NoMemory>
    ensures { OnOk result (text.new.items ≡ text.old.items ++ laid (codes "io.nl" ∷ spec.variables_in_parentheses names.now (before ∷ after ∷ []))) }
{
    sign(text, "io.nl")?;
    variables_in_parentheses(text, names, &[before, after])
}

/// Adds the builtin goal that throws an exception with a variable.
#[tactic(auto, unfolding(crate::specs::Layout::laid))]
pub(crate) fn error(text: &mut Vec<u8>, names: &[Name], x: u32) -> Result<(), NoMemory>
    ensures { OnOk result (text.new.items ≡ text.old.items ++ laid (codes "require.error" ∷ spec.variables_in_parentheses names.now (x ∷ []))) }
{
    sign(text, "require.error")?;
    variables_in_parentheses(text, names, &[x])
}

/// Adds a call of a closure with other arguments.
#[tactic(auto, unfolding(crate::specs::Layout::laid))]
pub(crate) fn closure_call(
    text: &mut Vec<u8>,
    names: &[Name],
    closure: u32,
    places: &Variables,
) -> Result<(), NoMemory>
    ensures { OnOk result (text.new.items ≡ text.old.items ++ laid (codes "call" ∷ spec.variables_in_parentheses names.now (closure ∷ places.now))) }
{
    sign(text, "call")?;
    sign(text, "(")?;
    variable(text, names, closure)?;
    further_variables(text, names, places.as_slice())?;
    sign(text, ")")
}

#[tactic(auto, unfolding(crate::specs::Layout::laid))]
fn term(text: &mut Vec<u8>, names: &[Name], term: &Term) -> Result<(), NoMemory>
    ensures { OnOk result (text.new.items ≡ text.old.items ++ laid (spec.term_tokens names.now term.now)) }
{
    match term {
        Term::Var(y) => variable(text, names, *y),
        Term::Int(number) => integer(text, *number),
        Term::Str(bytes) => quoted(text, bytes.as_bytes()),
        Term::Name(name, places) => applied(text, names, name, places),
    }
}

fn operator(text: &mut Vec<u8>, op: Op) -> Result<(), NoMemory>
    ensures { OnOk result (text.new.items ≡ text.old.items ++ spaced (spec.operator op)) }
{
    match op {
        Op::Add => sign(text, "+"),
        Op::Sub => sign(text, "-"),
        Op::Mul => sign(text, "*"),
    }
}

fn compared(text: &mut Vec<u8>, cmp: Cmp) -> Result<(), NoMemory>
    ensures { OnOk result (text.new.items ≡ text.old.items ++ spaced (spec.comparison cmp)) }
{
    match cmp {
        Cmp::Lt => sign(text, "<"),
        Cmp::Le => sign(text, "=<"),
        Cmp::Gt => sign(text, ">"),
        Cmp::Ge => sign(text, ">="),
    }
}
