// Calls, builtin goals, comparisons, and unifications with a variable before them.
ghost use Rattle.std.specs.Prelude.{◌≡◌, ◌<◌, ◌+◌, length, option_map};
ghost use Rattle.md_hlds.specs.HldsGoal.{expr_of};
ghost use Rattle.md_reader.specs.Input.{input_of, Reads};
ghost use Rattle.md_reader.specs.Rules as spec;
ghost use Rattle.md_reader.specs.Views.{builtin_expr};

use crate::input::Input;
use crate::names::pred_name;
use crate::refused::Refusal;
use crate::term::term;
use crate::variables::{arguments, variables};
use md_base::{Name, SiteId};
use md_hlds::{Cmp, GoalKind, PredName, Variables};
use md_token::{Kind, is_word};

/// Takes a goal that begins with a variable.
#[tactic(auto, unfolding(crate::specs::Rules::relation))]
pub(crate) fn relation(input: &mut Input<'_>) -> Result<GoalKind, Refusal>
    ensures { Reads expr_of (spec.relation (input_of input.old)) result (input_of input.new) }
{
    let x = input.variable(&[])?;
    match input.kind() {
        Kind::Equals => {
            input.advance();
            term(input, x)
        }
        kind => compared(input, x, comparison(kind)),
    }
}

/// Takes a call of a predicate, or a builtin goal.
#[tactic(auto, unfolding(crate::specs::Rules::call))]
pub(crate) fn call(input: &mut Input<'_>) -> Result<GoalKind, Refusal>
    ensures { Reads expr_of (spec.call (input_of input.old)) result (input_of input.new) }
{
    let name = pred_name(input)?;
    let variables = arguments(input, None)?;
    match builtin(&name, variables.as_slice()) {
        Some(builtin) => Ok(builtin.goal()),
        None => {
            let site = input.site();
            Ok(GoalKind::Call(SiteId::new(site), name, variables))
        }
    }
}

/// Takes a call of a closure.
#[tactic(auto, unfolding(crate::specs::Rules::closure_call))]
pub(crate) fn closure_call(input: &mut Input<'_>) -> Result<GoalKind, Refusal>
    ensures { Reads expr_of (spec.closure_call (input_of input.old)) result (input_of input.new) }
{
    input.expect(Kind::Call)?;
    input.expect(Kind::Open)?;
    let variables = variables(input, Kind::Close, None)?;
    applied(input, variables)
}

fn compared(input: &mut Input<'_>, x: u32, comparison: Option<Cmp>) -> Result<GoalKind, Refusal>
    ensures { Reads expr_of (spec.compared x comparison (input_of input.old)) result (input_of input.new) }
{
    match comparison {
        None => Err(input.refuse()),
        Some(comparison) => {
            input.advance();
            let y = input.variable(&[x])?;
            Ok(GoalKind::Compare(x, comparison, y))
        }
    }
}

fn comparison(kind: Kind) -> Option<Cmp>
    ensures { result ≡ spec.comparison kind }
{
    match kind {
        Kind::Less => Some(Cmp::Lt),
        Kind::AtMost => Some(Cmp::Le),
        Kind::Greater => Some(Cmp::Gt),
        Kind::AtLeast => Some(Cmp::Ge),
        _ => None,
    }
}

/// A builtin goal that is written as a call, with its variables.
#[derive(Clone, Copy)]
enum BuiltinGoal {
    Error(u32),
    Nl(u32, u32),
    WriteInt(u32, u32, u32),
    WriteStr(u32, u32, u32),
}

impl BuiltinGoal {
    fn goal(self) -> GoalKind
        ensures { expr_of result ≡ builtin_expr self }
    {
        match self {
            BuiltinGoal::Error(x) => GoalKind::Error(x),
            BuiltinGoal::Nl(before, after) => GoalKind::Nl(before, after),
            BuiltinGoal::WriteInt(x, before, after) => GoalKind::WriteInt(x, before, after),
            BuiltinGoal::WriteStr(x, before, after) => GoalKind::WriteStr(x, before, after),
        }
    }
}

/// The builtin goal that a call of this name with these variables is, if it is one.
fn builtin(name: &PredName, variables: &[u32]) -> Option<BuiltinGoal>
    ensures { option_map builtin_expr result ≡ spec.builtin name.now variables.now }
{
    match variables {
        [x] if is_builtin("require", "error", name) => Some(BuiltinGoal::Error(*x)),
        [before, after] if is_builtin("io", "nl", name) => Some(BuiltinGoal::Nl(*before, *after)),
        [x, before, after] if is_builtin("io", "write_int", name) => {
            Some(BuiltinGoal::WriteInt(*x, *before, *after))
        }
        [x, before, after] if is_builtin("io", "write_string", name) => {
            Some(BuiltinGoal::WriteStr(*x, *before, *after))
        }
        _ => None,
    }
}

/// Whether this is the name of a builtin goal of a module.
fn is_builtin(library: &str, builtin: &str, name: &PredName) -> bool
    ensures { result ≡ spec.is_builtin library.now builtin.now name.now }
{
    is_qualified_by(library, &name.qualifier) && is_word(name.name.as_bytes(), builtin)
}

fn is_qualified_by(library: &str, qualifier: &Option<Name>) -> bool
    ensures { result ≡ spec.is_qualified_by library.now qualifier.now }
{
    match qualifier {
        None => false,
        Some(qualifier) => is_word(qualifier.as_bytes(), library),
    }
}

/// The call of the first of these variables with the others.
fn applied(input: &mut Input<'_>, variables: Variables) -> Result<GoalKind, Refusal>
    requires { input.now.sites + 1 + length input.now.rest.now < 4294967296 }
    ensures { Reads expr_of (spec.applied variables (input_of input.old)) result (input_of input.new) }
{
    let mut variables = variables.into_vec();
    if variables.is_empty() {
        return Err(input.refuse());
    }
    let closure = variables.remove(0);
    let site = input.site();
    Ok(GoalKind::HoCall(SiteId::new(site), closure, Variables::from_vec(variables)))
}
