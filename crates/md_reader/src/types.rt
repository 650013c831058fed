// Types and their declarations.
ghost use Rattle.std.specs.Prelude.{◌≡◌, [], ◌∷◌, ◌++◌};
ghost use Rattle.md_hlds.specs.Hlds.{hlds_type_of, hlds_types_of, hlds_functor_of, hlds_functors_of, type_def_of};
ghost use Rattle.md_reader.specs.Input.{input_of, Reads};
ghost use Rattle.md_reader.specs.Rules as spec;

use crate::input::{Input, MOST};
use crate::refused::Refusal;
use md_base::Name;
use md_hlds::{Functor, Ty, TypeDef};
use md_token::{Kind, is_word};

/// Takes a type that is no higher-order one.
#[tactic(auto, unfolding(crate::specs::Rules::simple_type))]
pub(crate) fn simple_type(input: &mut Input<'_>) -> Result<Ty, Refusal>
    ensures { Reads hlds_type_of (spec.simple_type (input_of input.old)) result (input_of input.new) }
{
    if !input.sees(Kind::Name) {
        return Err(input.refuse());
    }
    let text = input.token().text;
    let own = if is_word(text, "int") {
        Ty::Int
    } else if is_word(text, "string") {
        Ty::Str
    } else if is_word(text, "io") {
        Ty::Io
    } else {
        return Ok(Ty::User(input.take_name(text)?));
    };
    input.advance();
    Ok(own)
}

/// Takes one or more types, and `)`.
#[tactic(auto, unfolding(crate::specs::Input::input_of))]
pub(crate) fn simple_types(input: &mut Input<'_>) -> Result<Vec<Ty>, Refusal>
    ensures { Reads (λ types. hlds_types_of types.items) (spec.simple_types (input_of input.old)) result (input_of input.new) }
{
    simple_types_at_most(input, MOST)
}

/// Takes the declaration of a type from `type` on. Its line is that of its `:-`.
#[tactic(auto, unfolding(crate::specs::Rules::type_definition))]
pub(crate) fn type_definition(input: &mut Input<'_>, line: u32) -> Result<TypeDef, Refusal>
    ensures { Reads type_def_of (spec.type_definition line (input_of input.old)) result (input_of input.new) }
{
    input.word("type")?;
    let name = type_name(input)?;
    input.expect(Kind::Yields)?;
    let functors = functors(input)?;
    Ok(TypeDef {
        name,
        line,
        functors,
    })
}

fn simple_types_at_most(input: &mut Input<'_>, count: usize) -> Result<Vec<Ty>, Refusal>
    ensures { Reads (λ types. hlds_types_of types.items) (spec.simple_types_from count [] (input_of input.old)) result (input_of input.new) }
{
    let mut found = Vec::new(input.alloc);
    for _turn in 0..count {
        found.push(simple_type(input)?)?;
        if !input.eat(Kind::Comma) {
            input.expect(Kind::Close)?;
            return Ok(found);
        }
    }
    let excess = input.limit();
    simple_type(input)?;
    Err(excess)
}

/// Takes the name of a type that is declared: none of `int`, `string` and `io`.
#[tactic(auto, unfolding(crate::specs::Rules::type_name))]
fn type_name(input: &mut Input<'_>) -> Result<Name, Refusal>
    ensures { Reads (λ name. name) (spec.type_name (input_of input.old)) result (input_of input.new) }
{
    if !is_own_type(input.token().text) {
        return Err(input.refuse());
    }
    input.name()
}

fn is_own_type(text: &[u8]) -> bool
    ensures { result ≡ spec.is_own_type text.now }
{
    !(is_word(text, "int") || is_word(text, "string") || is_word(text, "io"))
}

/// Takes functors with `;` between them, and the end sign.
#[tactic(auto, unfolding(crate::specs::Rules::functors))]
fn functors(input: &mut Input<'_>) -> Result<Vec<Functor>, Refusal>
    ensures { Reads (λ functors. hlds_functors_of functors.items) (spec.functors (input_of input.old)) result (input_of input.new) }
{
    let mut found = Vec::new(input.alloc);
    for _turn in 0..input.left() {
        found.push(functor(input)?)?;
        if !input.eat(Kind::Semicolon) {
            input.expect(Kind::End)?;
            return Ok(found);
        }
    }
    Err(input.refuse())
}

#[tactic(auto, unfolding(crate::specs::Rules::functor))]
fn functor(input: &mut Input<'_>) -> Result<Functor, Refusal>
    ensures { Reads hlds_functor_of (spec.functor (input_of input.old)) result (input_of input.new) }
{
    let name = input.name()?;
    let args = functor_arguments(input)?;
    Ok(Functor { name, args })
}

#[tactic(auto, unfolding(crate::specs::Rules::functor_arguments))]
fn functor_arguments(input: &mut Input<'_>) -> Result<Vec<Ty>, Refusal>
    ensures { Reads (λ types. hlds_types_of types.items) (spec.functor_arguments (input_of input.old)) result (input_of input.new) }
{
    if !input.eat(Kind::Open) {
        return Ok(Vec::new(input.alloc));
    }
    simple_types(input)
}
