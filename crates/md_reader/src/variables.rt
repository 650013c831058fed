// Lists of pairwise different variables.
ghost use Rattle.std.specs.Prelude.{◌≡◌, [], IfOk};
ghost use Rattle.md_token.specs.declared.kind.Kind.TheVariants as kind;
ghost use Rattle.md_reader.specs.Input.{input_of, Reads};
ghost use Rattle.md_reader.specs.Rules as spec;

use crate::input::{Input, MOST};
use crate::refused::Refusal;
use md_base::NoMemory;
use md_hlds::Variables;
use md_token::Kind;
use std::alloc::Global;

/// Takes one or more variables and the closing sign. None of them is the one that stood before the list, if one did.
#[tactic(auto, unfolding(crate::specs::Input::input_of))]
pub(crate) fn variables(
    input: &mut Input<'_>,
    closing: Kind,
    before: Option<u32>,
) -> Result<Variables, Refusal>
    ensures { Reads (λ found. found) (spec.variables closing (spec.seen_before before) (input_of input.old)) result (input_of input.new) }
{
    let seen = seen_before(input.alloc, before)?;
    at_most(input, closing, MOST, seen)
}

/// Takes nothing, or variables in parentheses.
#[tactic(auto, unfolding(crate::specs::Rules::arguments))]
pub(crate) fn arguments(input: &mut Input<'_>, before: Option<u32>) -> Result<Variables, Refusal>
    ensures { Reads (λ found. found) (spec.arguments (spec.seen_before before) (input_of input.old)) result (input_of input.new) }
{
    if !input.eat(Kind::Open) {
        return Ok(Variables::new(input.alloc));
    }
    variables(input, Kind::Close, before)
}

/// Takes any number of variables, and `]`.
#[tactic(auto, unfolding(crate::specs::Rules::quantified))]
pub(crate) fn quantified(input: &mut Input<'_>) -> Result<Variables, Refusal>
    ensures { Reads (λ found. found) (spec.quantified (input_of input.old)) result (input_of input.new) }
{
    if input.eat(Kind::CloseList) {
        return Ok(Variables::new(input.alloc));
    }
    variables(input, Kind::CloseList, None)
}

/// Takes at most `count` variables, none of which is among those seen, and the closing sign.
fn at_most(
    input: &mut Input<'_>,
    closing: Kind,
    count: usize,
    mut seen: Vec<u32>,
) -> Result<Variables, Refusal>
    ensures { Reads (λ found. found) (spec.variables_from closing count seen.items [] (input_of input.old)) result (input_of input.new) }
{
    let mut found = Variables::new(input.alloc);
    for _turn in 0..count {
        let variable = input.variable(&seen)?;
        seen.push(variable)?;
        found.push(variable)?;
        if !input.eat(Kind::Comma) {
            input.expect(closing)?;
            return Ok(found);
        }
    }
    let excess = input.limit();
    input.variable(&seen)?;
    Err(excess)
}

fn seen_before(alloc: Global, before: Option<u32>) -> Result<Vec<u32>, NoMemory>
    ensures { IfOk result (λ seen. seen.items ≡ spec.seen_before before) }
{
    let mut seen = Vec::new(alloc);
    if let Some(variable) = before {
        seen.push(variable)?;
    }
    Ok(seen)
}
