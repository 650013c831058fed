// A program to its printed text.
ghost use Rattle.std.specs.Prelude.{◌≡◌, ◌++◌, IfOk, OnOk, map};
ghost use Rattle.std.specs.List.{flat_map};
ghost use Rattle.md_hlds.specs.Hlds.{Hlds, type_defs_of, type_def_of, hlds_of, procedure_of, procedures_of};
ghost use Rattle.md_reader.specs.Grammar.{Spells};
ghost use Rattle.md_printer.specs.Layout.{laid, sentence};
ghost use Rattle.md_printer.specs.Lines.{IsSpelled, SpellsUpToLines, unlined};
ghost use Rattle.md_printer.specs.Printed as spec;

use crate::layout::{end, sign, token};
use crate::predicate::{clause, declaration};
use crate::types::type_declaration;
use md_base::{Name, NoMemory};
use md_hlds::{Pred, Program, TypeDef};
use std::alloc::Global;

/// The printed text of a program: the declaration of the module, then all types, then all predicates, each token followed by
/// one space and each end sign by a line feed.
///
/// Where some text spells the program but for line numbers, as is so of what `md_reader::read` gives, the printed text
/// spells it but for line numbers, and spells no other program.
#[tactic(auto, unfolding(crate::specs::Printed::printed))]
pub fn print(alloc: Global, program: &Program) -> Result<Vec<u8>, NoMemory>
    ensures printed { IfOk result (λ text. text.items ≡ spec.printed (hlds_of program.now)) }
    ensures spelled { IfOk result (λ text. IsSpelled (hlds_of program.now) → SpellsUpToLines text.items (hlds_of program.now)) }
    ensures no_other { IfOk result (λ text. IsSpelled (hlds_of program.now) → (l : Hlds) → Spells text.items l → unlined l ≡ unlined (hlds_of program.now)) }
{
    let mut text = Vec::new(alloc);
    heading(&mut text, &program.module)?;
    type_declarations(&mut text, &program.types)?;
    predicates(&mut text, &program.preds)?;
    Ok(text)
}

#[tactic(auto, unfolding(crate::specs::Layout::laid, crate::specs::Layout::sentence))]
fn heading(text: &mut Vec<u8>, name: &Name) -> Result<(), NoMemory>
    ensures { OnOk result (text.new.items ≡ text.old.items ++ sentence (spec.module_tokens name.now)) }
{
    sign(text, ":-")?;
    sign(text, "module")?;
    token(text, name.as_bytes())?;
    end(text)
}

fn type_declarations(text: &mut Vec<u8>, types: &[TypeDef]) -> Result<(), NoMemory>
    ensures { OnOk result (text.new.items ≡ text.old.items ++ flat_map sentence (map spec.type_tokens (type_defs_of types.now))) }
{
    for declared in types {
        type_sentence(text, declared)?;
    }
    Ok(())
}

#[tactic(auto, unfolding(crate::specs::Layout::sentence))]
fn type_sentence(text: &mut Vec<u8>, declared: &TypeDef) -> Result<(), NoMemory>
    ensures { OnOk result (text.new.items ≡ text.old.items ++ sentence (spec.type_tokens (type_def_of declared.now))) }
{
    type_declaration(text, declared)?;
    end(text)
}

fn predicates(text: &mut Vec<u8>, preds: &[Pred]) -> Result<(), NoMemory>
    ensures { OnOk result (text.new.items ≡ text.old.items ++ flat_map sentence (flat_map spec.procedure_sentences (procedures_of preds.now))) }
{
    for pred in preds {
        predicate(text, pred)?;
    }
    Ok(())
}

#[tactic(auto, unfolding(crate::specs::Layout::sentence))]
fn predicate(text: &mut Vec<u8>, pred: &Pred) -> Result<(), NoMemory>
    ensures { OnOk result (text.new.items ≡ text.old.items ++ flat_map sentence (spec.procedure_sentences (procedure_of pred.now))) }
{
    declaration(text, pred)?;
    end(text)?;
    clause(text, pred)?;
    end(text)
}
