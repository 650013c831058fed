// Names of predicates and functors.
ghost use Rattle.std.specs.Prelude.{◌≡◌, false, option_map, IfOk};
ghost use Rattle.md_hlds.specs.Hlds as listing;
ghost use Rattle.md_token.specs.Lexemes.{lexeme_of};
ghost use Rattle.md_token.specs.Token.{HasParts};
ghost use Rattle.md_reader.specs.Input.{input_of, standard, Reads};
ghost use Rattle.md_reader.specs.Names.{HasNameLength};
ghost use Rattle.md_reader.specs.Rules as spec;
ghost use Rattle.md_reader.specs.Views.{written_of};

use crate::input::{Input, MOST};
use crate::refused::Refusal;
use crate::written::Written;
use md_base::{Name, NoMemory};
use md_hlds::PredName;
use md_token::{Kind, Token, is_word, same_kind, word_kind, word_length};
use std::alloc::Global;

/// The name that a token is.
#[tactic(auto, unfolding(crate::specs::Rules::written))]
pub(crate) fn name_in<'a>(token: Token<'a>) -> Option<Written<'a>>
    ensures { option_map written_of result ≡ spec.written (lexeme_of token.entry) }
{
    match token.kind {
        Kind::Name => Some(Written {
            qualifier: None,
            name: token.text,
        }),
        Kind::Qualified => qualified(token.text),
        _ => None,
    }
}

/// The name of these bytes, of which there are 1 to 255.
pub(crate) fn name_of(alloc: Global, bytes: &[u8]) -> Result<Name, NoMemory>
    requires { HasNameLength bytes.now }
    ensures { IfOk result (λ name. name ≡ bytes.now) }
{
    match Name::from_bytes(alloc, bytes)? {
        None => unreachable!(),
        Some(name) => Ok(name),
    }
}

/// Whether a part of a name is too long.
pub(crate) fn is_long(written: Written<'_>) -> bool
    ensures { result ≡ spec.is_long standard.items (written_of written.entry) }
{
    match written.qualifier {
        None => written.name.len() > MOST,
        Some(qualifier) => written.name.len() > MOST || qualifier.len() > MOST,
    }
}

/// The name that is meant, no part of which is too long: `M.p` is `p`, where M is the program's own module.
pub(crate) fn meant(alloc: Global, home: &[u8], written: Written<'_>) -> Result<PredName, NoMemory>
    requires { spec.is_long standard.items (written_of written) ≡ false }
    ensures { IfOk result (λ name. name ≡ spec.meant home.now (written_of written.entry)) }
{
    let name = name_of(alloc, written.name)?;
    match written.qualifier {
        None => Ok(PredName {
            qualifier: None,
            name,
        }),
        Some(qualifier) if qualifier == home => Ok(PredName {
            qualifier: None,
            name,
        }),
        Some(qualifier) => Ok(PredName {
            qualifier: Some(name_of(alloc, qualifier)?),
            name,
        }),
    }
}

/// Takes the name of a predicate or a functor, which may be qualified.
#[tactic(auto, unfolding(crate::specs::Rules::pred_name))]
pub(crate) fn pred_name(input: &mut Input<'_>) -> Result<PredName, Refusal>
    ensures { Reads (λ name. name) (spec.pred_name (input_of input.old)) result (input_of input.new) }
{
    match name_in(input.token()) {
        None => Err(input.refuse()),
        Some(written) => take_written(input, written),
    }
}

/// Takes the name of a predicate that is declared: it is of no module that the builtin goals are of.
#[tactic(auto, unfolding(crate::specs::Rules::declared_name))]
pub(crate) fn declared_name(input: &mut Input<'_>) -> Result<PredName, Refusal>
    ensures { Reads (λ name. name) (spec.declared_name (input_of input.old)) result (input_of input.new) }
{
    match name_in(input.token()) {
        None => Err(input.refuse()),
        Some(written) if is_of_library(written.qualifier) => Err(input.refuse()),
        Some(written) => take_written(input, written),
    }
}

/// Whether the builtin goals are of the module of this name.
pub(crate) fn is_library(name: &[u8]) -> bool
    ensures { result ≡ spec.is_library name.now }
{
    is_word(name, "io") || is_word(name, "require")
}

/// Takes that name once more, at the head of its clause.
#[tactic(auto, unfolding(crate::specs::Rules::this_name))]
pub(crate) fn this_name(input: &mut Input<'_>, name: &PredName) -> Result<(), Refusal>
    ensures { Reads (λ _. tt) (spec.this_name name.now (input_of input.old)) result (input_of input.new) }
{
    match name_in(input.token()) {
        Some(written) if is_meant(input.home(), written, name) => {
            input.advance();
            Ok(())
        }
        _ => Err(input.refuse()),
    }
}

/// The qualified name that is written so, unless a word that is no name stands after the qualifier.
#[tactic(auto, unfolding(crate::specs::Rules::qualified))]
fn qualified<'a>(text: &'a [u8]) -> Option<Written<'a>>
    requires { HasParts text.now }
    ensures { option_map written_of result ≡ spec.qualified text.now }
{
    let length = word_length(text);
    let (qualifier, _) = text.split_at(length);
    let (_, name) = text.split_at(length + 1);
    if !same_kind(word_kind(name), Kind::Name) {
        return None;
    }
    Some(Written {
        qualifier: Some(qualifier),
        name,
    })
}

#[tactic(auto, unfolding(crate::specs::Input::input_of))]
fn take_written(input: &mut Input<'_>, written: Written<'_>) -> Result<PredName, Refusal>
    ensures { Reads (λ name. name) (spec.take_written (Some (written_of written.entry)) (input_of input.old)) result (input_of input.new) }
{
    if is_long(written) {
        return Err(input.limit());
    }
    let name = meant(input.alloc, input.home(), written)?;
    input.advance();
    Ok(name)
}

fn is_of_library(qualifier: Option<&[u8]>) -> bool
    ensures { result ≡ spec.is_of_library (option_map (λ q. q.now) qualifier.entry) }
{
    match qualifier {
        None => false,
        Some(qualifier) => is_library(qualifier),
    }
}

/// Whether what is written means that name.
fn is_meant(home: &[u8], written: Written<'_>, name: &PredName) -> bool
    ensures { result ≡ spec.same_name (spec.meant home.now (written_of written.entry)) name.now }
{
    same_qualifier(home, written.qualifier, &name.qualifier) && written.name == name.name.as_bytes()
}

fn same_qualifier(home: &[u8], written: Option<&[u8]>, qualifier: &Option<Name>) -> bool
    ensures { result ≡ listing.same_qualifier (spec.away_from home.now (option_map (λ q. q.now) written.entry)) qualifier.now }
{
    match (written, qualifier) {
        (None, None) => true,
        (Some(written), None) => written == home,
        (None, Some(_)) => false,
        (Some(written), Some(qualifier)) => written != home && written == qualifier.as_bytes(),
    }
}
