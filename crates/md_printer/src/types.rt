// Types and their declarations.
ghost use Rattle.std.specs.Prelude.{◌≡◌, ◌++◌, OnOk, codes};
ghost use Rattle.md_hlds.specs.Hlds.{hlds_functor_of, hlds_functors_of, type_def_of, hlds_type_of, hlds_types_of};
ghost use Rattle.md_printer.specs.Layout.{arguments, further, laid, separated, spaced};
ghost use Rattle.md_printer.specs.Printed as spec;

use crate::layout::{sign, token};
use md_base::NoMemory;
use md_hlds::{Functor, Ty, TypeDef};

/// Adds a type's declaration, up to its end sign.
#[tactic(auto, unfolding(crate::specs::Layout::laid))]
pub(crate) fn type_declaration(text: &mut Vec<u8>, declared: &TypeDef) -> Result<(), NoMemory>
    ensures { OnOk result (text.new.items ≡ text.old.items ++ laid (spec.type_tokens (type_def_of declared.now))) }
{
    sign(text, ":-")?;
    sign(text, "type")?;
    token(text, declared.name.as_bytes())?;
    sign(text, "--->")?;
    functors(text, &declared.functors)
}

/// Adds the words of types with commas between them.
#[tactic(auto, unfolding(crate::specs::Layout::laid))]
pub(crate) fn type_words(text: &mut Vec<u8>, types: &[Ty]) -> Result<(), NoMemory>
    ensures { OnOk result (text.new.items ≡ text.old.items ++ laid (separated (spec.single spec.type_word) (codes ",") (hlds_types_of types.now))) }
{
    if let [first, rest @ ..] = types {
        type_word(text, first)?;
        further_type_words(text, rest)?;
    }
    Ok(())
}

/// Adds the word of a type: its name, or `pred` where it is higher-order.
pub(crate) fn type_word(text: &mut Vec<u8>, ty: &Ty) -> Result<(), NoMemory>
    ensures { OnOk result (text.new.items ≡ text.old.items ++ spaced (spec.type_word (hlds_type_of ty.now))) }
{
    match ty {
        Ty::Int => sign(text, "int"),
        Ty::Str => sign(text, "string"),
        Ty::Io => sign(text, "io"),
        Ty::User(name) => token(text, name.as_bytes()),
        Ty::Ho(_) => sign(text, "pred"),
    }
}

/// Adds functors with `;` between them.
#[tactic(auto, unfolding(crate::specs::Layout::laid))]
fn functors(text: &mut Vec<u8>, functors: &[Functor]) -> Result<(), NoMemory>
    ensures { OnOk result (text.new.items ≡ text.old.items ++ laid (separated spec.functor_tokens (codes ";") (hlds_functors_of functors.now))) }
{
    if let [first, rest @ ..] = functors {
        functor(text, first)?;
        further_functors(text, rest)?;
    }
    Ok(())
}

#[tactic(auto, unfolding(crate::specs::Layout::laid))]
fn further_functors(text: &mut Vec<u8>, functors: &[Functor]) -> Result<(), NoMemory>
    ensures { OnOk result (text.new.items ≡ text.old.items ++ laid (further spec.functor_tokens (codes ";") (hlds_functors_of functors.now))) }
{
    for next in functors {
        sign(text, ";")?;
        functor(text, next)?;
    }
    Ok(())
}

#[tactic(auto, unfolding(crate::specs::Layout::laid))]
fn functor(text: &mut Vec<u8>, functor: &Functor) -> Result<(), NoMemory>
    ensures { OnOk result (text.new.items ≡ text.old.items ++ laid (spec.functor_tokens (hlds_functor_of functor.now))) }
{
    token(text, functor.name.as_bytes())?;
    types_in_parentheses(text, &functor.args)
}

/// Adds nothing, or the words of types in parentheses.
#[tactic(auto, unfolding(crate::specs::Layout::laid))]
fn types_in_parentheses(text: &mut Vec<u8>, types: &[Ty]) -> Result<(), NoMemory>
    ensures { OnOk result (text.new.items ≡ text.old.items ++ laid (arguments (spec.single spec.type_word) (hlds_types_of types.now))) }
{
    if let [first, rest @ ..] = types {
        sign(text, "(")?;
        type_word(text, first)?;
        further_type_words(text, rest)?;
        sign(text, ")")?;
    }
    Ok(())
}

#[tactic(auto, unfolding(crate::specs::Layout::laid))]
fn further_type_words(text: &mut Vec<u8>, types: &[Ty]) -> Result<(), NoMemory>
    ensures { OnOk result (text.new.items ≡ text.old.items ++ laid (further (spec.single spec.type_word) (codes ",") (hlds_types_of types.now))) }
{
    for next in types {
        sign(text, ",")?;
        type_word(text, next)?;
    }
    Ok(())
}
