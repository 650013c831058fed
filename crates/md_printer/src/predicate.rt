// Predicates: declarations and clauses.
ghost use Rattle.std.specs.Prelude.{◌≡◌, ◌++◌, OnOk, codes};
ghost use Rattle.md_hlds.specs.Hlds.{args_of, procedure_of, hlds_type_of};
ghost use Rattle.md_hlds.specs.Words.{det_word};
ghost use Rattle.md_printer.specs.Layout.{arguments, further, laid, separated, spaced};
ghost use Rattle.md_printer.specs.Printed as spec;

use crate::goal::goal;
use crate::layout::sign;
use crate::names::{variables_in_parentheses, written};
use crate::types::{type_word, type_words};
use md_base::NoMemory;
use md_hlds::{Det, HoTy, Mode, Pred, Ty};

/// Adds a predicate's declaration, up to its end sign.
#[tactic(auto, unfolding(crate::specs::Layout::laid))]
pub(crate) fn declaration(text: &mut Vec<u8>, pred: &Pred) -> Result<(), NoMemory>
    ensures { OnOk result (text.new.items ≡ text.old.items ++ laid (spec.declaration_tokens (procedure_of pred.now))) }
{
    sign(text, ":-")?;
    sign(text, "pred")?;
    written(text, &pred.qualifier, &pred.name)?;
    arguments_in_parentheses(text, &pred.args)?;
    sign(text, "is")?;
    determinism(text, pred.det)
}

/// Adds a predicate's clause, up to its end sign.
#[tactic(auto, unfolding(crate::specs::Layout::laid))]
pub(crate) fn clause(text: &mut Vec<u8>, pred: &Pred) -> Result<(), NoMemory>
    ensures { OnOk result (text.new.items ≡ text.old.items ++ laid (spec.clause_tokens (procedure_of pred.now))) }
{
    written(text, &pred.qualifier, &pred.name)?;
    variables_in_parentheses(text, &pred.vars, pred.head.as_slice())?;
    sign(text, ":-")?;
    goal(text, &pred.vars, false, &pred.body)
}

/// Adds nothing, or declared arguments in parentheses.
#[tactic(auto, unfolding(crate::specs::Layout::laid))]
fn arguments_in_parentheses(text: &mut Vec<u8>, declared: &[(Ty, Mode)]) -> Result<(), NoMemory>
    ensures { OnOk result (text.new.items ≡ text.old.items ++ laid (arguments spec.argument_tokens (args_of declared.now))) }
{
    if let [first, rest @ ..] = declared {
        sign(text, "(")?;
        argument(text, first)?;
        further_arguments(text, rest)?;
        sign(text, ")")?;
    }
    Ok(())
}

#[tactic(auto, unfolding(crate::specs::Layout::laid))]
fn further_arguments(text: &mut Vec<u8>, declared: &[(Ty, Mode)]) -> Result<(), NoMemory>
    ensures { OnOk result (text.new.items ≡ text.old.items ++ laid (further spec.argument_tokens (codes ",") (args_of declared.now))) }
{
    for next in declared {
        sign(text, ",")?;
        argument(text, next)?;
    }
    Ok(())
}

#[tactic(auto, unfolding(crate::specs::Layout::laid))]
fn argument(text: &mut Vec<u8>, declared: &(Ty, Mode)) -> Result<(), NoMemory>
    ensures { OnOk result (text.new.items ≡ text.old.items ++ laid (spec.argument_tokens (hlds_type_of declared.now.0, declared.now.1))) }
{
    let (ty, own) = declared;
    type_word(text, ty)?;
    inner_types(text, ty)?;
    sign(text, "::")?;
    mode(text, *own)?;
    inner_modes(text, ty)
}

/// Adds the types of a higher-order type's arguments.
#[tactic(auto, unfolding(crate::specs::Layout::laid))]
fn inner_types(text: &mut Vec<u8>, ty: &Ty) -> Result<(), NoMemory>
    ensures { OnOk result (text.new.items ≡ text.old.items ++ laid (spec.inner_types (hlds_type_of ty.now))) }
{
    match ty {
        Ty::Ho(higher) => {
            sign(text, "(")?;
            type_words(text, &higher.types)?;
            sign(text, ")")
        }
        Ty::Int | Ty::Str | Ty::Io | Ty::User(_) => Ok(()),
    }
}

/// Adds the modes of a higher-order type's arguments, with its determinism.
#[tactic(auto, unfolding(crate::specs::Layout::laid))]
fn inner_modes(text: &mut Vec<u8>, ty: &Ty) -> Result<(), NoMemory>
    ensures { OnOk result (text.new.items ≡ text.old.items ++ laid (spec.inner_modes (hlds_type_of ty.now))) }
{
    match ty {
        Ty::Ho(higher) => inst(text, higher),
        Ty::Int | Ty::Str | Ty::Io | Ty::User(_) => Ok(()),
    }
}

#[tactic(auto, unfolding(crate::specs::Layout::laid))]
fn inst(text: &mut Vec<u8>, higher: &HoTy) -> Result<(), NoMemory>
    ensures { OnOk result (text.new.items ≡ text.old.items ++ laid (spec.inst_tokens higher.now.modes.items higher.now.det)) }
{
    sign(text, "(")?;
    sign(text, "pred")?;
    sign(text, "(")?;
    modes(text, &higher.modes)?;
    sign(text, ")")?;
    sign(text, "is")?;
    determinism(text, higher.det)?;
    sign(text, ")")
}

/// Adds modes with commas between them.
#[tactic(auto, unfolding(crate::specs::Layout::laid))]
fn modes(text: &mut Vec<u8>, modes: &[Mode]) -> Result<(), NoMemory>
    ensures { OnOk result (text.new.items ≡ text.old.items ++ laid (separated (spec.single spec.mode_word) (codes ",") modes.now)) }
{
    if let [first, rest @ ..] = modes {
        mode(text, *first)?;
        further_modes(text, rest)?;
    }
    Ok(())
}

#[tactic(auto, unfolding(crate::specs::Layout::laid))]
fn further_modes(text: &mut Vec<u8>, modes: &[Mode]) -> Result<(), NoMemory>
    ensures { OnOk result (text.new.items ≡ text.old.items ++ laid (further (spec.single spec.mode_word) (codes ",") modes.now)) }
{
    for next in modes {
        sign(text, ",")?;
        mode(text, *next)?;
    }
    Ok(())
}

fn mode(text: &mut Vec<u8>, mode: Mode) -> Result<(), NoMemory>
    ensures { OnOk result (text.new.items ≡ text.old.items ++ spaced (spec.mode_word mode)) }
{
    match mode {
        Mode::In => sign(text, "in"),
        Mode::Out => sign(text, "out"),
        Mode::Di => sign(text, "di"),
        Mode::Uo => sign(text, "uo"),
    }
}

fn determinism(text: &mut Vec<u8>, determinism: Det) -> Result<(), NoMemory>
    ensures { OnOk result (text.new.items ≡ text.old.items ++ spaced (det_word determinism)) }
{
    sign(text, determinism.word())
}
