// How one connection is served.
ghost use Rattle.std.specs.Prelude.{◌≡◌, IfOk, OnOk, OnErr, IsErrOf, vec_len};
ghost use Rattle.md_base.specs.Outside.{HasCause, one_more, added, PartAdded};
ghost use Rattle.md_cost.specs.FileView.{IsFileView};
ghost use Rattle.md_cost.specs.View.{View};
ghost use Rattle.md_http.specs.Served.{IsServed, HasCauseOf, IsDue, ends};
ghost use Rattle.md_http.specs.Reading.{WasHeard, StillWaits, ReadNoFurther};
ghost use Rattle.md_http.specs.Heard.{most_bytes};

use crate::heard::{MOST_BYTES, fields_room};
use crate::reading::listen;
use crate::response::reply;
use md_base::{Failed, Link, WriteFault, write_whole};
use md_cost::Loaded;
use std::alloc::{AllocError, Global};

/// How serving a connection ended.
#[derive(Clone, Copy, Debug, PartialEq, Eq)]
pub enum Served {
    /// It was read until its bytes decided, and their whole response was written.
    Answered,
    /// A read failed.
    ReadFault,
    /// A write failed.
    WriteFault,
    NoMemory,
}

/// Serves a connection: reads it until its bytes decide, and writes their response. `ReadFault` and `WriteFault` come
/// exactly where the connection's count of faults of that kind rose, and then the other one didn't. Whichever way it ends,
/// at most 8,192 bytes were read.
pub fn serve_link<C: Link>(alloc: Global, loaded: &Loaded, link: &mut C) -> Served
    ensures served { (v : View) → IsFileView loaded.now.profile v → IsServed v
        (ends (C.stream link.old) (C.held link.old) (C.read_faults link.old) (C.write_faults link.old))
        (ends (C.stream link.new) (C.held link.new) (C.read_faults link.new) (C.write_faults link.new)) result }
    ensures viewed { (v : View) × IsFileView loaded.now.profile v }
    ensures cause { HasCauseOf
        (ends (C.stream link.old) (C.held link.old) (C.read_faults link.old) (C.write_faults link.old))
        (ends (C.stream link.new) (C.held link.new) (C.read_faults link.new) (C.write_faults link.new)) result }
{
    // What is served is the view of the profile, which has one.
    let _viewed = loaded.profile();
    match hear_link(alloc, loaded, link) {
        Ok(response) => answer_link(link, &response),
        Err(Failed::Device) => Served::ReadFault,
        Err(Failed::NoMemory) => Served::NoMemory,
    }
}

/// Reads a connection until its bytes decide, and gives their response.
fn hear_link<C: Link>(alloc: Global, loaded: &Loaded, link: &mut C) -> Result<Vec<u8>, Failed>
    ensures due { (v : View) → IsFileView loaded.now.profile v → IfOk result (λ response. IsDue v (C.stream link.old) (C.stream link.new) response.items) }
    ensures heard { OnOk result (WasHeard (C.stream link.old) (C.stream link.new)) }
    ensures waits { IsErrOf result Failed.Device → StillWaits (C.stream link.old) (C.stream link.new) }
    ensures some { OnErr result (ReadNoFurther (C.stream link.old) (C.stream link.new)) }
    ensures cause { HasCause Failed.Device (C.read_faults link.old) (C.read_faults link.new) result }
    ensures beside { C.sink_beside link.new ≡ C.sink_beside link.old }
{
    let mut bytes = bytes_room(alloc)?;
    let mut room = fields_room(alloc)?;
    let count = listen(link, &mut bytes, &mut room)?;
    let response = reply(alloc, loaded, &bytes[..count])?;
    Ok(response)
}

/// Writes the response that is due.
fn answer_link<C: Link>(link: &mut C, response: &[u8]) -> Served
    ensures whole { result ≡ Served.Answered → C.held link.new ≡ added response.now (C.held link.old) }
    ensures part { (result ≡ Served.Answered → ⊥) → PartAdded response.now (C.held link.old) (C.held link.new) }
    ensures fault { result ≡ Served.WriteFault → C.write_faults link.new ≡ one_more (C.write_faults link.old) }
    ensures well { (result ≡ Served.WriteFault → ⊥) → C.write_faults link.new ≡ C.write_faults link.old }
    ensures read { result ≡ Served.ReadFault → ⊥ }
    ensures beside { C.source_beside link.new ≡ C.source_beside link.old }
{
    match write_whole(link, response) {
        Ok(()) => Served::Answered,
        Err(WriteFault::Write) => Served::WriteFault,
        Err(WriteFault::NoMemory) => Served::NoMemory,
    }
}

/// Room for as many bytes as are ever read.
fn bytes_room(alloc: Global) -> Result<Vec<u8>, AllocError>
    ensures { IfOk result (λ bytes. vec_len bytes ≡ most_bytes) }
{
    vec![in alloc; 0; MOST_BYTES]
}
