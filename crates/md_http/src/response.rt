// The response to the bytes of a connection.
ghost use Rattle.std.specs.Prelude.{◌≡◌, ◌≤◌, ◌==◌, if◌then◌else◌, length, IfOk};
ghost use Rattle.md_cost.specs.FileView.{IsFileView};
ghost use Rattle.md_cost.specs.View.{View};
ghost use Rattle.md_http.specs.Heard.{Holds, most_bytes};
ghost use Rattle.md_http.specs.Message.{Refuses, response_of};
ghost use Rattle.md_http.specs.Response.{IsResponse};
ghost use Rattle.md_http.specs.declared.message.Refusal.TheVariants.{BadRequest, HeadTooLarge};

use crate::answer::answer;
use crate::heard::{Heard, MOST_BYTES, fields_room, hear};
use crate::message::{Refusal, refusal_response};
use md_base::NoMemory;
use md_cost::Loaded;
use std::alloc::Global;

/// The response to the bytes of a connection, of which there are at most 8,192, up to the moment that decides. Whatever
/// follows the head in them isn't looked at.
pub fn reply(alloc: Global, loaded: &Loaded, head: &[u8]) -> Result<Vec<u8>, NoMemory>
    requires { length head.now ≤ most_bytes }
    ensures { (v : View) → IsFileView loaded.now.profile v → IfOk result (λ bytes. IsResponse v head.now bytes.items) }
{
    let mut room = fields_room(alloc)?;
    let heard = hear(head, &mut room);
    respond(alloc, loaded, head, heard)
}

/// The response to bytes of which it is known what they hold.
pub(crate) fn respond(
    alloc: Global,
    loaded: &Loaded,
    bytes: &[u8],
    heard: Heard,
) -> Result<Vec<u8>, NoMemory>
    requires within { length bytes.now ≤ most_bytes }
    requires holds { Holds bytes.now heard }
    ensures { (v : View) → IsFileView loaded.now.profile v → IfOk result (λ response. IsResponse v bytes.now response.items) }
{
    match heard {
        Heard::Head(spans) => answer(
            alloc,
            loaded,
            spans.headers,
            spans.method.of(bytes),
            spans.path.of(bytes),
        ),
        Heard::Refused => refusal_response(alloc, Refusal::BadRequest),
        Heard::Open => open_response(alloc, bytes.len()),
    }
}

/// The response to so many bytes in which the head is still to come.
fn open_response(alloc: Global, count: usize) -> Result<Vec<u8>, NoMemory>
    ensures { IfOk result (λ response. response.items ≡ response_of (Refuses (if count == most_bytes then HeadTooLarge else BadRequest))) }
{
    if count == MOST_BYTES {
        refusal_response(alloc, Refusal::HeadTooLarge)
    } else {
        refusal_response(alloc, Refusal::BadRequest)
    }
}
