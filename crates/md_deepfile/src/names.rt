// Which bytes are names.
ghost use Rattle.std.specs.Prelude.{◌≡◌, IfOk, IfSome};
ghost use Rattle.std.specs.Option.{is_some};
ghost use Rattle.md_static.specs.Names.{is_lower, is_word, are_words, is_name};

use md_base::{Name, NoMemory};
use std::alloc::Global;

/// Whether these bytes are a name of a program: a lower-case letter, and then letters, digits and `_`, 255 in all at most.
pub(crate) fn is_program_name(bytes: &[u8]) -> bool
    ensures { result ≡ is_name bytes.now }
{
    match bytes {
        [] => false,
        [first, rest @ ..] => is_small(*first) && are_parts(rest) && rest.len() < Name::MOST,
    }
}

/// The name of a program that these bytes are, if they are one.
pub(crate) fn program_name(alloc: Global, bytes: &[u8]) -> Result<Option<Name>, NoMemory>
    ensures name { IfOk result (λ found. IfSome found (λ name. name ≡ bytes.now)) }
    ensures is { IfOk result (λ found. is_some found ≡ is_name bytes.now) }
{
    if !is_program_name(bytes) {
        return Ok(None);
    }
    Name::from_bytes(alloc, bytes)
}

/// A lower-case letter of ASCII.
fn is_small(byte: u8) -> bool
    ensures { result ≡ is_lower byte }
{
    byte >= b'a' && byte <= b'z'
}

/// A letter of ASCII, a digit or `_`.
fn is_part(byte: u8) -> bool
    ensures { result ≡ is_word byte }
{
    is_small(byte)
        || (byte >= b'A' && byte <= b'Z')
        || (byte >= b'0' && byte <= b'9')
        || byte == b'_'
}

/// Whether each byte is a letter of ASCII, a digit or `_`.
fn are_parts(bytes: &[u8]) -> bool
    ensures { result ≡ are_words bytes.now }
{
    let mut rest = bytes;
    while let [first, after @ ..] = rest {
        if !is_part(*first) {
            return false;
        }
        rest = after;
    }
    true
}
