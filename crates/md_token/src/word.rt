// Names and variables.
ghost use Rattle.std.specs.Prelude.{◌≡◌, ◌≤◌, ◌+◌, IsTrue, length, IfSome, drop, slice_index};
ghost use Rattle.std.specs.Str.{bytes_eq};
ghost use Rattle.md_token.specs.Token as spec;

use crate::Kind;
use crate::bytes::{byte_at, is_lower, word_length};

/// The name or qualified name at the front of a text, which has a first byte: its kind, and how many bytes it has after
/// that one.
#[tactic(auto, unfolding(crate::specs::Token::name_at))]
pub(crate) fn name_at(text: &[u8]) -> (Kind, usize)
    requires { 1 ≤ length text.now }
    ensures name { result ≡ spec.name_at (slice_index text.now 0) (drop 1 text.now) }
    ensures within { result.1 + 1 ≤ length text.now }
{
    let (_, bytes) = text.split_at(1);
    let length = word_length(bytes);
    let (_, after) = bytes.split_at(length);
    if qualifies(after) {
        let (_, name) = bytes.split_at(length + 1);
        return (Kind::Qualified, length + 1 + word_length(name));
    }
    (word_kind(&text[..length + 1]), length)
}

/// The variable that begins with a byte: how many bytes it has after that byte.
#[tactic(auto, unfolding(crate::specs::Token::variable_at))]
pub(crate) fn variable_at(byte: u8, bytes: &[u8]) -> Option<(Kind, usize)>
    ensures variable { result ≡ spec.variable_at byte bytes.now }
    ensures within { IfSome result (λ found. found.1 ≤ length bytes.now) }
{
    let length = word_length(bytes);
    if byte == b'_' && length == 0 {
        None
    } else {
        Some((Kind::Variable, length))
    }
}

/// The kind of a name that is written so: one of the seven words, or `Name`.
#[tactic(auto, unfolding(crate::specs::Token::word_kind))]
pub fn word_kind(text: &[u8]) -> Kind
    ensures kind { result ≡ spec.word_kind text.now }
{
    if is_word(text, "true") {
        Kind::True
    } else if is_word(text, "fail") {
        Kind::Fail
    } else if is_word(text, "not") {
        Kind::Not
    } else if is_word(text, "some") {
        Kind::Some
    } else if is_word(text, "call") {
        Kind::Call
    } else if is_word(text, "is") {
        Kind::Is
    } else if is_word(text, "pred") {
        Kind::Pred
    } else {
        Kind::Name
    }
}

/// Whether these bytes are that word.
pub fn is_word(text: &[u8], word: &str) -> bool
    ensures { result ≡ bytes_eq text.now word.now }
{
    text == word.as_bytes()
}

/// Whether what follows a name makes it a qualifier.
fn qualifies(after: &[u8]) -> bool
    ensures qualifies { result ≡ spec.qualifies after.now }
    ensures more { IsTrue result → 2 ≤ length after.now }
{
    byte_at(after, 0) == b'.' && is_lower(byte_at(after, 1))
}
