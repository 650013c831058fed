// The arguments of a predicate's declaration.
ghost use Rattle.std.specs.Prelude.{◌≡◌, ◌≢◌, [], ◌∷◌, ◌++◌, List};
ghost use Rattle.md_hlds.specs.Hlds.{HldsType, hlds_type_of, hlds_types_of, args_of};
ghost use Rattle.md_hlds.specs.declared.types.Mode.{Mode};
ghost use Rattle.md_reader.specs.Input.{input_of, Reads};
ghost use Rattle.md_reader.specs.Rules as spec;

use crate::input::{Input, MOST};
use crate::refused::Refusal;
use crate::types::{simple_type, simple_types};
use md_hlds::{Det, HoTy, Mode, Ty};
use md_token::{Kind, is_word};

/// Takes nothing, or arguments in parentheses.
#[tactic(auto, unfolding(crate::specs::Rules::declared_arguments, crate::specs::Input::input_of))]
pub(crate) fn declared_arguments(input: &mut Input<'_>) -> Result<Vec<(Ty, Mode)>, Refusal>
    ensures { Reads (λ args. args_of args.items) (spec.declared_arguments (input_of input.old)) result (input_of input.new) }
{
    if !input.eat(Kind::Open) {
        return Ok(Vec::new(input.alloc));
    }
    arguments_at_most(input, MOST)
}

/// Takes a determinism.
#[tactic(auto, unfolding(crate::specs::Rules::determinism))]
pub(crate) fn determinism(input: &mut Input<'_>) -> Result<Det, Refusal>
    ensures { Reads (λ det. det) (spec.determinism (input_of input.old)) result (input_of input.new) }
{
    match det_named(input.token().text) {
        None => Err(input.refuse()),
        Some(det) => {
            input.advance();
            Ok(det)
        }
    }
}

fn arguments_at_most(input: &mut Input<'_>, count: usize) -> Result<Vec<(Ty, Mode)>, Refusal>
    ensures { Reads (λ args. args_of args.items) (spec.arguments_from count [] (input_of input.old)) result (input_of input.new) }
{
    let mut found = Vec::new(input.alloc);
    for _turn in 0..count {
        found.push(argument(input)?)?;
        if !input.eat(Kind::Comma) {
            input.expect(Kind::Close)?;
            return Ok(found);
        }
    }
    Err(excess(input))
}

/// Why there is no further argument.
#[tactic(auto, unfolding(crate::specs::Rules::excess))]
fn excess(input: &mut Input<'_>) -> Refusal
    ensures { result ≢ Refusal.NoMemory → spec.excess {A = List (HldsType × Mode)} (input_of input.old) ≡ Err result }
{
    let excess = input.limit();
    if input.sees(Kind::Pred) {
        return excess;
    }
    match simple_type(input) {
        Ok(_) => excess,
        Err(refusal) => refusal,
    }
}

#[tactic(auto, unfolding(crate::specs::Rules::argument))]
fn argument(input: &mut Input<'_>) -> Result<(Ty, Mode), Refusal>
    ensures { Reads (λ arg. (hlds_type_of arg.0, arg.1)) (spec.argument (input_of input.old)) result (input_of input.new) }
{
    if input.sees(Kind::Pred) {
        ho_argument(input)
    } else {
        plain_argument(input)
    }
}

#[tactic(auto, unfolding(crate::specs::Rules::plain_argument))]
fn plain_argument(input: &mut Input<'_>) -> Result<(Ty, Mode), Refusal>
    ensures { Reads (λ arg. (hlds_type_of arg.0, arg.1)) (spec.plain_argument (input_of input.old)) result (input_of input.new) }
{
    let simple_type = simple_type(input)?;
    input.expect(Kind::HasMode)?;
    let mode = mode(input)?;
    Ok((simple_type, mode))
}

/// Takes a higher-order argument: its types, its mode, and the modes and the determinism of its inst.
#[tactic(auto, unfolding(crate::specs::Rules::ho_argument))]
fn ho_argument(input: &mut Input<'_>) -> Result<(Ty, Mode), Refusal>
    ensures { Reads (λ arg. (hlds_type_of arg.0, arg.1)) (spec.ho_argument (input_of input.old)) result (input_of input.new) }
{
    let types = ho_types(input)?;
    let mode = ho_mode(input)?;
    let (modes, det) = inst(input)?;
    Ok((Ty::Ho(HoTy { types, modes, det }), mode))
}

#[tactic(auto, unfolding(crate::specs::Rules::ho_types))]
fn ho_types(input: &mut Input<'_>) -> Result<Vec<Ty>, Refusal>
    ensures { Reads (λ types. hlds_types_of types.items) (spec.ho_types (input_of input.old)) result (input_of input.new) }
{
    input.expect(Kind::Pred)?;
    input.expect(Kind::Open)?;
    let types = simple_types(input)?;
    input.expect(Kind::HasMode)?;
    Ok(types)
}

/// Takes the modes and the determinism in `(pred(M1, ..) is D)`.
#[tactic(auto, unfolding(crate::specs::Rules::inst))]
fn inst(input: &mut Input<'_>) -> Result<(Vec<Mode>, Det), Refusal>
    ensures { Reads (λ inst. (inst.0.items, inst.1)) (spec.inst (input_of input.old)) result (input_of input.new) }
{
    input.expect(Kind::Open)?;
    let modes = inst_modes(input)?;
    input.expect(Kind::Is)?;
    let det = determinism(input)?;
    input.expect(Kind::Close)?;
    Ok((modes, det))
}

#[tactic(auto, unfolding(crate::specs::Rules::inst_modes, crate::specs::Input::input_of))]
fn inst_modes(input: &mut Input<'_>) -> Result<Vec<Mode>, Refusal>
    ensures { Reads (λ modes. modes.items) (spec.inst_modes (input_of input.old)) result (input_of input.new) }
{
    input.expect(Kind::Pred)?;
    input.expect(Kind::Open)?;
    modes_at_most(input, MOST)
}

fn modes_at_most(input: &mut Input<'_>, count: usize) -> Result<Vec<Mode>, Refusal>
    ensures { Reads (λ modes. modes.items) (spec.modes_from count [] (input_of input.old)) result (input_of input.new) }
{
    let mut found = Vec::new(input.alloc);
    for _turn in 0..count {
        found.push(mode(input)?)?;
        if !input.eat(Kind::Comma) {
            input.expect(Kind::Close)?;
            return Ok(found);
        }
    }
    let excess = input.limit();
    mode(input)?;
    Err(excess)
}

/// Takes a mode.
#[tactic(auto, unfolding(crate::specs::Rules::mode_word))]
fn mode(input: &mut Input<'_>) -> Result<Mode, Refusal>
    ensures { Reads (λ mode. mode) (spec.mode_word (input_of input.old)) result (input_of input.new) }
{
    match mode_named(input.token().text) {
        None => Err(input.refuse()),
        Some(mode) => {
            input.advance();
            Ok(mode)
        }
    }
}

fn mode_named(text: &[u8]) -> Option<Mode>
    ensures { result ≡ spec.mode_named text.now }
{
    if is_word(text, "in") {
        Some(Mode::In)
    } else if is_word(text, "out") {
        Some(Mode::Out)
    } else if is_word(text, "di") {
        Some(Mode::Di)
    } else if is_word(text, "uo") {
        Some(Mode::Uo)
    } else {
        None
    }
}

/// Takes the mode of a higher-order argument, `in` or `out`.
#[tactic(auto, unfolding(crate::specs::Rules::ho_mode))]
fn ho_mode(input: &mut Input<'_>) -> Result<Mode, Refusal>
    ensures { Reads (λ mode. mode) (spec.ho_mode (input_of input.old)) result (input_of input.new) }
{
    match mode_named(input.token().text) {
        Some(Mode::In) => {
            input.advance();
            Ok(Mode::In)
        }
        Some(Mode::Out) => {
            input.advance();
            Ok(Mode::Out)
        }
        _ => Err(input.refuse()),
    }
}

fn det_named(text: &[u8]) -> Option<Det>
    ensures { result ≡ spec.det_named text.now }
{
    if is_word(text, "det") {
        Some(Det::Det)
    } else if is_word(text, "semidet") {
        Some(Det::Semidet)
    } else if is_word(text, "multi") {
        Some(Det::Multi)
    } else if is_word(text, "nondet") {
        Some(Det::Nondet)
    } else if is_word(text, "failure") {
        Some(Det::Failure)
    } else {
        None
    }
}
