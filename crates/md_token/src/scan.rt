// The tokens of a whole text, one after the other.
ghost use Rattle.std.specs.Prelude.{◌≡◌, List, ◌≤◌, ◌<◌, ◌+◌, length, drop, slice_index, IfSome, IfOk};
ghost use Rattle.md_token.specs.Spelling.{Cut};
ghost use Rattle.md_token.specs.Token as spec;
ghost use Rattle.md_token.specs.Lexemes.{lexemes_of};

use crate::bytes::{digits_length, is_blank, line_length};
use crate::sign::sign_at;
use crate::string::string_at;
use crate::word::{name_at, variable_at};
use crate::{Kind, Token};
use md_base::NoMemory;
use std::alloc::Global;

/// The tokens of a text: how it is cut into tokens, at each place the longest one, and in no other way. Behind the last
/// one stands `Stop`, the end of the text, or `Bad`, at the first byte of what makes no token. The text has fewer than
/// 4,294,967,295 bytes.
pub fn tokens<'a>(alloc: Global, text: &'a [u8]) -> Result<Vec<Token<'a>>, NoMemory>
    requires { length text.now < 4294967295 }
    ensures cut { IfOk result (λ found. Cut 1 text.now (lexemes_of found.items)) }
    ensures no_other { (ts : List spec.Lexeme) → Cut 1 text.now ts → IfOk result (λ found. lexemes_of found.items ≡ ts) }
    ensures scanned { IfOk result (λ found. lexemes_of found.items ≡ spec.tokens_of text.now) }
{
    scanned(alloc, text)
}

/// The tokens of a text, taken one after the other.
#[tactic(auto, unfolding(crate::specs::Token::tokens_of))]
fn scanned<'a>(alloc: Global, text: &'a [u8]) -> Result<Vec<Token<'a>>, NoMemory>
    requires { length text.now < 4294967295 }
    ensures { IfOk result (λ found. lexemes_of found.items ≡ spec.tokens_of text.now) }
{
    let mut found = Vec::new(alloc);
    let mut rest = text;
    let mut line = 1;
    while !rest.is_empty() {
        match prefix_at(rest) {
            Prefix::Gap(more) => {
                if rest[0] == b'\n' {
                    line += 1;
                }
                let (_, after) = rest.split_at(more + 1);
                rest = after;
            }
            Prefix::Piece(kind, more) => {
                let (text, after) = rest.split_at(more + 1);
                found.push(Token { kind, text, line })?;
                rest = after;
            }
            Prefix::Unknown => {
                found.push(Token {
                    kind: Kind::Bad,
                    text: b"",
                    line,
                })?;
                return Ok(found);
            }
        }
    }
    found.push(Token {
        kind: Kind::Stop,
        text: b"",
        line,
    })?;
    Ok(found)
}

/// What a text begins with.
#[derive(Clone, Copy)]
pub(crate) enum Prefix {
    /// White space or a comment: how many bytes it has after its first.
    Gap(usize),
    /// A token: how many bytes it has after its first.
    Piece(Kind, usize),
    /// Bytes that make no token.
    Unknown,
}

/// What a text that isn't empty begins with.
#[tactic(auto, unfolding(crate::specs::Token::prefix_at))]
fn prefix_at(text: &[u8]) -> Prefix
    requires { 1 ≤ length text.now }
    ensures prefix { result ≡ spec.prefix_at (slice_index text.now 0) (drop 1 text.now) }
    ensures within { spec.more_of result + 1 ≤ length text.now }
{
    let byte = text[0];
    let (_, bytes) = text.split_at(1);
    if is_blank(byte) {
        Prefix::Gap(0)
    } else if byte == b'%' {
        Prefix::Gap(line_length(bytes))
    } else {
        match token_at(text) {
            None => Prefix::Unknown,
            Some((kind, more)) => Prefix::Piece(kind, more),
        }
    }
}

/// The token at the front of a text that isn't empty: its kind, and how many bytes it has after its first.
#[tactic(auto, unfolding(crate::specs::Token::token_at))]
fn token_at(text: &[u8]) -> Option<(Kind, usize)>
    requires { 1 ≤ length text.now }
    ensures token { result ≡ spec.token_at (slice_index text.now 0) (drop 1 text.now) }
    ensures within { IfSome result (λ found. found.1 + 1 ≤ length text.now) }
{
    let byte = text[0];
    let (_, bytes) = text.split_at(1);
    match byte {
        b'a'..=b'z' => Some(name_at(text)),
        b'A'..=b'Z' | b'_' => variable_at(byte, bytes),
        b'0'..=b'9' => Some((Kind::Integer, digits_length(bytes))),
        b'"' => string_at(bytes),
        _ => sign_at(byte, bytes),
    }
}
