// Tokens, and what numbers, strings and words are worth.
use crate::fault::Fault;
use crate::text::text_of;
use md_base::NoMemory;
use md_token::{is_word, number_of, string_value, word_kind, word_length};
use std::alloc::Global;
use test_cases::Case;

/// Adds the kind and the line of each token of the text, in one line.
pub fn tokens(alloc: Global, case: &Case, found: &mut String) -> Result<(), Fault> {
    let text = text_of(alloc, case)?;
    kinds(alloc, text.as_slice(), found)?;
    Ok(writeln!(found)?)
}

/// Adds the kind and the line of each token, with spaces between them.
fn kinds(alloc: Global, text: &[u8], found: &mut String) -> Result<(), Fault> {
    if text.len() >= 4_294_967_295 {
        return Err(Fault::NoMemory(NoMemory));
    }
    let mut space = "";
    for token in md_token::tokens(alloc, text)?.iter() {
        let (kind, line) = (token.kind, token.line);
        write!(found, "{space}{kind:?}{line}")?;
        space = " ";
    }
    Ok(())
}

/// Adds the number of the digits.
pub fn number(case: &Case, found: &mut String) -> Result<(), Fault> {
    let number = number_of(case.bytes("text"));
    Ok(writeln!(found, "{number:?}")?)
}

/// Adds the bytes that the string stands for.
pub fn string(alloc: Global, case: &Case, found: &mut String) -> Result<(), Fault> {
    let bytes = string_value(alloc, case.bytes("text"))?;
    let bytes = bytes.as_slice();
    Ok(writeln!(found, "{bytes:?}")?)
}

/// Adds what a text is as a word, whether it is the word `other`, and how many bytes at its front a word may have.
pub fn word(case: &Case, found: &mut String) -> Result<(), Fault> {
    let text = case.bytes("text");
    let kind = word_kind(text);
    let is_other = is_word(text, case.text("other"));
    let length = word_length(text);
    Ok(writeln!(found, "{kind:?} {is_other} {length}")?)
}
