// The text of a program to the program.
ghost use Rattle.std.specs.Prelude.{◌≡◌, ◌≢◌, ◌<◌, ℕ, Ok, Err, IfErr, IfOk, MatchResult, length};
ghost use Rattle.md_token.specs.Lexemes.{lexemes_of};
ghost use Rattle.md_hlds.specs.Hlds.{Hlds, hlds_of};
ghost use Rattle.md_reader.specs.Faults.{IsAtFault, IsLimitFault, IsSyntaxFault};
ghost use Rattle.md_reader.specs.Grammar.{IsOfText, Repeats, Spells};
ghost use Rattle.md_reader.specs.Input.{input_of};
ghost use Rattle.md_reader.specs.Rules as rule;
ghost use Rattle.md_reader.specs.Rules.{start};
ghost use Rattle.md_reader.specs.Duplicates as seconds;
ghost use Rattle.md_reader.specs.Reading.{HasCause, IsAnswer, IsFault, IsRead, IsRefusedAs, outcome_of, without_duplicate};
ghost use Rattle.md_reader.specs.declared.refused.Refused.TheVariants as refusals;

use crate::duplicates::duplicate;
use crate::input::Input;
use crate::program::program;
use crate::refused::{Refusal, Refused};
use crate::scope::Scope;
use md_hlds::Program;
use md_token::{Token, tokens};
use std::alloc::Global;

/// The program that a text spells. The text has fewer than 4,294,967,295 bytes.
///
/// A text that spells none is refused with the line of the first token at fault, for syntax or for a limit, or of the
/// first second declaration. `NoMemory` is answered only where memory was refused.
pub fn read(alloc: Global, text: &[u8]) -> Result<Program, Refused>
    requires { length text.now < 4294967295 }
    ensures spelled { IfOk result (λ program. Spells text.now (hlds_of program)) }
    ensures of_text { IfOk result (λ program. IsOfText (hlds_of program)) }
    ensures complete { (program : Hlds) → Spells text.now program → IsRead result program }
    ensures cause { IfErr result (λ refused. HasCause refused text.now) }
    ensures repeated { (line : ℕ) → Repeats text.now line → IsRefusedAs result (refusals.Duplicate line) }
    ensures fault { (line : ℕ) → IsAtFault text.now line → IsFault result }
    ensures syntax { (line : ℕ) → IsSyntaxFault text.now line → IsRefusedAs result (refusals.Syntax line) }
    ensures limit { (line : ℕ) → IsLimitFault text.now line → IsRefusedAs result (refusals.Limit line) }
    ensures answer { IsAnswer result text.now }
{
    let tokens = tokens(alloc, text)?;
    read_tokens(alloc, &tokens)
}

/// The program that these tokens spell.
fn read_tokens(alloc: Global, tokens: &[Token<'_>]) -> Result<Program, Refused>
    requires { length tokens.now < 4294967296 }
    ensures { MatchResult result
        (λ program. outcome_of (rule.program (start (lexemes_of tokens.now))) ≡ Ok (hlds_of program))
        (λ refused. refused ≢ refusals.NoMemory → outcome_of (rule.program (start (lexemes_of tokens.now))) ≡ Err refused) }
{
    let mut input = start_input(alloc, tokens);
    let program = program(&mut input)?;
    declared_once(alloc, program)
}

/// This program, if nothing in it is declared a second time.
fn declared_once(alloc: Global, program: Program) -> Result<Program, Refused>
    ensures { MatchResult result
        (λ once. without_duplicate (hlds_of program) (seconds.duplicate (hlds_of program)) ≡ Ok (hlds_of once))
        (λ refused. refused ≢ refusals.NoMemory → without_duplicate (hlds_of program) (seconds.duplicate (hlds_of program)) ≡ Err refused) }
{
    match duplicate(alloc, &program)? {
        None => Ok(program),
        Some(line) => Err(Refused::Duplicate(line)),
    }
}

/// The input of a whole text, by its tokens.
#[tactic(auto, unfolding(crate::specs::Input::input_of))]
fn start_input<'a>(alloc: Global, tokens: &'a [Token<'a>]) -> Input<'a>
    requires { length tokens.now < 4294967296 }
    ensures { input_of result ≡ start (lexemes_of tokens.now) }
{
    Input {
        alloc,
        rest: tokens,
        home: b"",
        scope: Scope::new(alloc),
        sites: 0,
    }
}

impl From<Refusal> for Refused {
    ghost use Rattle.md_reader.specs.Reading.{refused_of};

    ghost from_gives = { λ refusal refused. refused ≡ refused_of refusal };

    fn from(refusal: Refusal) -> Refused {
        match refusal {
            Refusal::Syntax(place) => Refused::Syntax(place.line),
            Refusal::Limit(place) => Refused::Limit(place.line),
            Refusal::NoMemory => Refused::NoMemory,
        }
    }
}
