// The right sides of unifications, and arithmetic.
ghost use Rattle.std.specs.Prelude.{◌≡◌, ◌≤◌};
ghost use Rattle.md_hlds.specs.HldsGoal.{expr_of};
ghost use Rattle.md_token.specs.Lexemes.{lexeme_of};
ghost use Rattle.md_reader.specs.Input.{input_of, Reads};
ghost use Rattle.md_reader.specs.Rules as spec;

use crate::input::Input;
use crate::names::pred_name;
use crate::refused::Refusal;
use crate::variables::arguments;
use md_base::Text;
use md_hlds::{GoalKind, Op, Term};
use md_token::{Kind, number_of, string_value};

/// The greatest integer.
const GREATEST: u64 = 9_223_372_036_854_775_807;

/// The most bytes of a string's value.
const MOST_BYTES: usize = 65_535;

/// Takes what stands after `X =`: the rest of a unification or of arithmetic.
pub(crate) fn term(input: &mut Input<'_>, x: u32) -> Result<GoalKind, Refusal>
    ensures { Reads expr_of (spec.term_after x (input_of input.old)) result (input_of input.new) }
{
    match input.kind() {
        Kind::Variable => second(input, x),
        Kind::Minus => {
            input.advance();
            negated(input, x)
        }
        Kind::Integer => positive(input, x),
        Kind::Text => literal(input, x),
        Kind::Name | Kind::Qualified => application(input, x),
        _ => Err(input.refuse()),
    }
}

/// Takes the second variable of a unification, or the second and the third of arithmetic.
#[tactic(auto, unfolding(crate::specs::Rules::second))]
fn second(input: &mut Input<'_>, x: u32) -> Result<GoalKind, Refusal>
    ensures { Reads expr_of (spec.second x (input_of input.old)) result (input_of input.new) }
{
    let y = input.variable(&[x])?;
    match operator(input.kind()) {
        None => Ok(GoalKind::Unify(x, Term::Var(y))),
        Some(operator) => {
            input.advance();
            let z = input.variable(&[x, y])?;
            Ok(GoalKind::Arith(x, y, operator, z))
        }
    }
}

fn operator(kind: Kind) -> Option<Op>
    ensures { result ≡ spec.operator kind }
{
    match kind {
        Kind::Plus => Some(Op::Add),
        Kind::Minus => Some(Op::Sub),
        Kind::Times => Some(Op::Mul),
        _ => None,
    }
}

#[tactic(auto, unfolding(crate::specs::Rules::positive, crate::specs::Input::input_of))]
fn positive(input: &mut Input<'_>, x: u32) -> Result<GoalKind, Refusal>
    ensures { Reads expr_of (spec.positive x (input_of input.old)) result (input_of input.new) }
{
    match number_of(input.token().text) {
        Some(number) if number <= GREATEST => {
            input.advance();
            Ok(GoalKind::Unify(x, Term::Int(number as i64)))
        }
        _ => Err(input.limit()),
    }
}

/// Takes the integer behind a `-`.
#[tactic(auto, unfolding(crate::specs::Rules::negated, crate::specs::Input::input_of))]
fn negated(input: &mut Input<'_>, x: u32) -> Result<GoalKind, Refusal>
    ensures { Reads expr_of (spec.negated x (input_of input.old)) result (input_of input.new) }
{
    if !input.sees(Kind::Integer) {
        return Err(input.refuse());
    }
    match number_of(input.token().text) {
        None => Err(input.limit()),
        Some(number) => {
            input.advance();
            Ok(GoalKind::Unify(x, Term::Int(minus(number))))
        }
    }
}

/// The number of which this one is the size, with `-`.
fn minus(number: u64) -> i64
    requires { number ≤ 9223372036854775808 }
    ensures { result ≡ spec.minus number }
{
    if number > GREATEST {
        return i64::MIN;
    }
    0 - number as i64
}

#[tactic(auto, unfolding(crate::specs::Rules::literal, crate::specs::Input::input_of))]
fn literal(input: &mut Input<'_>, x: u32) -> Result<GoalKind, Refusal>
    ensures { Reads expr_of (spec.literal x (input_of input.old)) result (input_of input.new) }
{
    let value = string_value(input.alloc, input.token().text)?;
    if value.len() > MOST_BYTES {
        return Err(input.limit());
    }
    let value = Text::from_bytes(input.alloc, &value)?;
    input.advance();
    Ok(GoalKind::Unify(x, Term::Str(value)))
}

#[tactic(auto, unfolding(crate::specs::Rules::application))]
fn application(input: &mut Input<'_>, x: u32) -> Result<GoalKind, Refusal>
    ensures { Reads expr_of (spec.application x (input_of input.old)) result (input_of input.new) }
{
    let functor = pred_name(input)?;
    let arguments = arguments(input, Some(x))?;
    Ok(GoalKind::Unify(x, Term::Name(functor, arguments)))
}
