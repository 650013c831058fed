// What the bytes of a connection hold so far.
ghost use Rattle.std.specs.Prelude.{◌≡◌, ◌≤◌, length, IfOk, vec_len};
ghost use Rattle.md_http.specs.Heard.{Holds, most_bytes};

use httparse::spans::{EMPTY_HEADER_SPAN, HeaderSpan, RequestSpans, parse_request};
use httparse::{Error, Status};
use std::alloc::{AllocError, Global};

/// The most bytes that are read of a connection.
pub(crate) const MOST_BYTES: usize = 8_192;

/// Room for more fields than so many bytes can hold, of which each has three at least.
const ROOM: usize = 2_731;

/// What the bytes of a connection hold so far.
#[derive(Clone, Copy, PartialEq, Eq)]
pub(crate) enum Heard {
    /// A whole head is there.
    Head(RequestSpans),
    /// Nothing that can follow makes a head of them.
    Refused,
    /// The head is still to come.
    Open,
}

/// What bytes hold of a request, with room for its fields.
pub(crate) fn hear(bytes: &[u8], room: &mut [HeaderSpan]) -> Heard
    requires within { length bytes.now ≤ most_bytes }
    requires room { length room.old ≡ 2731 }
    ensures { Holds bytes.now result }
{
    match parse_request(bytes, room) {
        Ok(Status::Complete(spans)) => Heard::Head(spans),
        Ok(Status::Partial) => Heard::Open,
        Err(Error::TooManyHeaders) => Heard::Refused,
        Err(_) => Heard::Refused,
    }
}

/// Room for the fields of a head.
pub(crate) fn fields_room(alloc: Global) -> Result<Vec<HeaderSpan>, AllocError>
    ensures { IfOk result (λ room. vec_len room ≡ 2731) }
{
    vec![in alloc; EMPTY_HEADER_SPAN; ROOM]
}
