// Whole programs.
ghost use Rattle.std.specs.Prelude.{◌≡◌, ◌<◌, ◌+◌, [], false, true, length, IfOk};
ghost use Rattle.md_hlds.specs.Hlds.{hlds_of};
ghost use Rattle.md_token.specs.Kinds.{is_final};
ghost use Rattle.md_reader.specs.Input.{input_of, Reads};
ghost use Rattle.md_reader.specs.Rules as spec;
ghost use Rattle.md_reader.specs.Views.{draft_of};

use crate::input::Input;
use crate::names::is_library;
use crate::procedure::procedure;
use crate::refused::Refusal;
use crate::types::type_definition;
use md_base::Name;
use md_hlds::{Pred, Program, TypeDef};
use md_token::Kind;

/// A program, as far as it was read.
#[derive(Drop)]
pub(crate) struct Draft {
    pub module: Name,
    pub module_line: u32,
    pub types: Vec<TypeDef>,
    pub preds: Vec<Pred>,
}

/// Takes a whole program.
#[tactic(auto, unfolding(crate::specs::Rules::program))]
pub(crate) fn program(input: &mut Input<'_>) -> Result<Program, Refusal>
    ensures { Reads hlds_of (spec.program (input_of input.old)) result (input_of input.new) }
{
    let heading = heading(input)?;
    let draft = declarations(input, heading)?;
    Ok(finished(draft))
}

/// The program of a draft, so few of whose predicates there are that each has a number.
fn finished(draft: Draft) -> Program
    requires { length draft.preds.items < 4294967296 }
    ensures { hlds_of result ≡ draft_of draft }
{
    let Draft {
        module,
        module_line,
        types,
        preds,
    } = draft;
    Program {
        module,
        module_line,
        types,
        preds,
    }
}

/// Takes the declaration of the module.
#[tactic(auto, unfolding(crate::specs::Rules::heading))]
fn heading(input: &mut Input<'_>) -> Result<Draft, Refusal>
    ensures read { Reads draft_of (spec.heading (input_of input.old)) result (input_of input.new) }
    ensures none { IfOk result (λ draft. draft.preds.items ≡ []) }
{
    let module_line = input.expect(Kind::Declare)?;
    input.word("module")?;
    let module = module_name(input)?;
    input.expect(Kind::End)?;
    Ok(Draft {
        module,
        module_line,
        types: Vec::new(input.alloc),
        preds: Vec::new(input.alloc),
    })
}

/// Takes the name of the program's own module, which is known from there on.
#[tactic(auto, unfolding(crate::specs::Rules::module_name))]
fn module_name(input: &mut Input<'_>) -> Result<Name, Refusal>
    ensures { Reads (λ name. name) (spec.module_name (input_of input.old)) result (input_of input.new) }
{
    let token = input.token();
    if !is_name(token.kind) || is_library(token.text) {
        return Err(input.refuse());
    }
    let name = input.take_name(token.text)?;
    input.set_home(token.text);
    Ok(name)
}

/// Whether a token of this kind is a name, be it one of the words that are no names of predicates.
fn is_name(kind: Kind) -> bool
    ensures name { result ≡ spec.is_name kind }
    ensures filled { result ≡ true → is_final kind ≡ false }
{
    match kind {
        Kind::Name
        | Kind::True
        | Kind::Fail
        | Kind::Not
        | Kind::Some
        | Kind::Call
        | Kind::Is
        | Kind::Pred => true,
        _ => false,
    }
}

/// Takes the declarations after that of the module, up to the end of the text. Each predicate takes a token of its own.
#[tactic(auto, unfolding(crate::specs::Rules::declarations))]
fn declarations(input: &mut Input<'_>, mut draft: Draft) -> Result<Draft, Refusal>
    requires { length draft.preds.items + length input.now.rest.now < 4294967296 }
    ensures read { Reads draft_of (spec.declarations (draft_of draft) (input_of input.old)) result (input_of input.new) }
    ensures few { IfOk result (λ draft. length draft.preds.items < 4294967296) }
{
    for _turn in 0..input.left() {
        if input.sees(Kind::Stop) {
            return Ok(draft);
        }
        declared(input, &mut draft)?;
    }
    Err(input.refuse())
}

/// Takes the declaration of a type, or of a predicate with its clause.
#[tactic(auto, unfolding(crate::specs::Rules::declared))]
fn declared(input: &mut Input<'_>, draft: &mut Draft) -> Result<(), Refusal>
    ensures { Reads (λ _. draft_of draft.new) (spec.declared (draft_of draft.old) (input_of input.old)) result (input_of input.new) }
{
    let line = input.expect(Kind::Declare)?;
    if input.sees(Kind::Pred) {
        declared_procedure(input, draft, line)
    } else {
        declared_type_definition(input, draft, line)
    }
}

#[tactic(auto, unfolding(crate::specs::Rules::declared_procedure))]
fn declared_procedure(input: &mut Input<'_>, draft: &mut Draft, line: u32) -> Result<(), Refusal>
    ensures { Reads (λ _. draft_of draft.new) (spec.declared_procedure (draft_of draft.old) line (input_of input.old)) result (input_of input.new) }
{
    let procedure = procedure(input, line)?;
    draft.preds.push(procedure)?;
    Ok(())
}

#[tactic(auto, unfolding(crate::specs::Rules::declared_type_definition))]
fn declared_type_definition(
    input: &mut Input<'_>,
    draft: &mut Draft,
    line: u32,
) -> Result<(), Refusal>
    ensures { Reads (λ _. draft_of draft.new) (spec.declared_type_definition (draft_of draft.old) line (input_of input.old)) result (input_of input.new) }
{
    let type_definition = type_definition(input, line)?;
    draft.types.push(type_definition)?;
    Ok(())
}
