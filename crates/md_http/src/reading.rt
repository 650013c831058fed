// How a connection is read.
ghost use Rattle.std.specs.Prelude.{◌≡◌, ◌<◌, ◌≤◌, ◌+◌, ◌==◌, length, take, drop, false, IsTrue, IsFalse, IfOk, OnErr};
ghost use Rattle.md_base.specs.Outside.{HasCause};
ghost use Rattle.md_http.specs.Heard.{IsDecided, most_bytes};
ghost use Rattle.md_http.specs.Reading.{HasRead, HasHeard, IsWaiting, StillWaits};

use crate::heard::{Heard, MOST_BYTES, hear};
use httparse::spans::HeaderSpan;
use md_base::{Failed, Link};

/// Reads a connection into room for as many bytes as are ever read, until they decide, and answers how many there are.
pub(crate) fn listen<C: Link>(
    link: &mut C,
    bytes: &mut [u8],
    room: &mut [HeaderSpan],
) -> Result<usize, Failed>
    requires size { length bytes.old ≡ most_bytes }
    requires room { length room.old ≡ 2731 }
    ensures within { IfOk result (λ count. count ≤ most_bytes) }
    ensures heard { IfOk result (λ count. HasHeard (C.stream link.old) (C.stream link.new) (take count bytes.new)) }
    ensures waits { OnErr result (StillWaits (C.stream link.old) (C.stream link.new)) }
    ensures cause { HasCause Failed.Device (C.read_faults link.old) (C.read_faults link.new) result }
    ensures beside { C.sink_beside link.new ≡ C.sink_beside link.old }
{
    let mut count = 0;
    while is_waiting(&bytes[..count], room) {
        let more = read_behind(link, bytes, count)?;
        if more == 0 {
            return Ok(count);
        }
        count += more;
    }
    Ok(count)
}

/// Whether more is to be read behind these bytes.
fn is_waiting(bytes: &[u8], room: &mut [HeaderSpan]) -> bool
    requires within { length bytes.now ≤ most_bytes }
    requires room { length room.old ≡ 2731 }
    ensures waits { IsTrue result → IsWaiting bytes.now }
    ensures decides { IsFalse result → IsDecided bytes.now false }
{
    match hear(bytes, room) {
        Heard::Open => bytes.len() < MOST_BYTES,
        Heard::Head(_) => false,
        Heard::Refused => false,
    }
}

/// Reads on behind the first bytes of a buffer, and answers how many more there are.
fn read_behind<C: Link>(link: &mut C, bytes: &mut [u8], count: usize) -> Result<usize, Failed>
    requires { count < length bytes.old }
    ensures within { IfOk result (λ more. count + more ≤ length bytes.old) }
    ensures front { take count bytes.new ≡ take count bytes.old }
    ensures read { IfOk result (λ more. HasRead (C.stream link.old) (C.stream link.new) (take more (drop count bytes.new)) (more == 0)) }
    ensures kept { OnErr result (C.stream link.new ≡ C.stream link.old) }
    ensures cause { HasCause Failed.Device (C.read_faults link.old) (C.read_faults link.new) result }
    ensures beside { C.sink_beside link.new ≡ C.sink_beside link.old }
{
    link.read(&mut bytes[count..])
}
