// Strings.
ghost use Rattle.std.specs.Prelude.{◌≡◌, ◌≤◌, length, IfSome};
ghost use Rattle.md_token.specs.Token as spec;

use crate::Kind;

/// Where a string stands past one of its bytes.
#[derive(Clone, Copy)]
pub(crate) enum Within {
    /// Past a whole byte or escape.
    Whole,
    /// Past a backslash that escapes the byte after it.
    Escaping,
    /// Past the closing quote.
    Closed,
    /// Past a byte that no string has there.
    Broken,
}

/// The string whose opening quote stands before these bytes: how many bytes it has after that.
#[tactic(auto, unfolding(crate::specs::Token::string_at))]
pub(crate) fn string_at(bytes: &[u8]) -> Option<(Kind, usize)>
    ensures string { result ≡ spec.string_at bytes.now }
    ensures within { IfSome result (λ found. found.1 ≤ length bytes.now) }
{
    let length = string_end(bytes)?;
    Some((Kind::Text, length))
}

fn string_end(bytes: &[u8]) -> Option<usize>
    ensures end { result ≡ spec.string_end Within.Whole 0 bytes.now }
    ensures within { IfSome result (λ end. end ≤ length bytes.now) }
{
    let mut escaped = false;
    for (place, byte) in bytes.iter().enumerate() {
        match past(escaped, *byte) {
            Within::Whole => escaped = false,
            Within::Escaping => escaped = true,
            Within::Closed => return Some(place + 1),
            Within::Broken => return None,
        }
    }
    None
}

#[tactic(auto, unfolding(crate::specs::Token::past))]
fn past(escaped: bool, byte: u8) -> Within
    ensures { result ≡ spec.past escaped byte }
{
    if escaped {
        return if is_escape(byte) {
            Within::Whole
        } else {
            Within::Broken
        };
    }
    match byte {
        b'"' => Within::Closed,
        b'\\' => Within::Escaping,
        _ if is_plain(byte) => Within::Whole,
        _ => Within::Broken,
    }
}

fn is_escape(byte: u8) -> bool
    ensures { result ≡ spec.is_escape byte }
{
    byte == b'n' || byte == b't' || byte == b'\\' || byte == b'"'
}

fn is_plain(byte: u8) -> bool
    ensures { result ≡ spec.is_plain byte }
{
    byte >= 32 && byte != 127
}
