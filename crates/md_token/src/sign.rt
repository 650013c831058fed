// Signs.
ghost use Rattle.std.specs.Prelude.{◌≡◌, ◌≤◌, length, IfSome};
ghost use Rattle.md_token.specs.Token as spec;

use crate::Kind;
use crate::bytes::{byte_at, is_blank};

/// The longest sign that begins with a byte, and how many bytes it has after that byte.
#[tactic(auto, unfolding(crate::specs::Token::sign_at))]
pub(crate) fn sign_at(byte: u8, bytes: &[u8]) -> Option<(Kind, usize)>
    ensures sign { result ≡ spec.sign_at byte bytes.now }
    ensures within { IfSome result (λ found. found.1 ≤ length bytes.now) }
{
    match byte {
        b':' => colon_at(bytes),
        b'-' => dash_at(bytes),
        b'=' if byte_at(bytes, 0) == b'<' => Some((Kind::AtMost, 1)),
        b'=' => Some((Kind::Equals, 0)),
        b'>' if byte_at(bytes, 0) == b'=' => Some((Kind::AtLeast, 1)),
        b'>' => Some((Kind::Greater, 0)),
        b'.' if ends(bytes) => Some((Kind::End, 0)),
        b'.' => None,
        _ => single_at(byte),
    }
}

#[tactic(auto, unfolding(crate::specs::Token::colon_at))]
fn colon_at(bytes: &[u8]) -> Option<(Kind, usize)>
    ensures sign { result ≡ spec.colon_at bytes.now }
    ensures within { IfSome result (λ found. found.1 ≤ length bytes.now) }
{
    match byte_at(bytes, 0) {
        b'-' => Some((Kind::Declare, 1)),
        b':' => Some((Kind::HasMode, 1)),
        _ => None,
    }
}

#[tactic(auto, unfolding(crate::specs::Token::dash_at))]
fn dash_at(bytes: &[u8]) -> Option<(Kind, usize)>
    ensures sign { result ≡ spec.dash_at bytes.now }
    ensures within { IfSome result (λ found. found.1 ≤ length bytes.now) }
{
    if byte_at(bytes, 0) == b'>' {
        Some((Kind::Then, 1))
    } else if byte_at(bytes, 0) == b'-' && byte_at(bytes, 1) == b'-' && byte_at(bytes, 2) == b'>' {
        Some((Kind::Yields, 3))
    } else {
        Some((Kind::Minus, 0))
    }
}

#[tactic(auto, unfolding(crate::specs::Token::single_at))]
fn single_at(byte: u8) -> Option<(Kind, usize)>
    ensures sign { result ≡ spec.single_at byte }
    ensures within { IfSome result (λ found. found.1 ≡ 0) }
{
    let kind = match byte {
        b';' => Kind::Semicolon,
        b',' => Kind::Comma,
        b'(' => Kind::Open,
        b')' => Kind::Close,
        b'[' => Kind::OpenList,
        b']' => Kind::CloseList,
        b'<' => Kind::Less,
        b'+' => Kind::Plus,
        b'*' => Kind::Times,
        _ => return None,
    };
    Some((kind, 0))
}

/// Whether a `.` before these bytes ends a clause or a declaration.
fn ends(bytes: &[u8]) -> bool
    ensures ends { result ≡ spec.ends bytes.now }
{
    match bytes {
        [] => true,
        [byte, ..] => is_blank(*byte) || *byte == b'%',
    }
}
