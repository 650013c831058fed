// A profile written to a store, in pieces.
ghost use Rattle.std.specs.Prelude.{◌≡◌, ◌<◌, ◌≤◌, ◌^◌, ◌++◌, ℕ, List, [], length, take, Option, OnOk, OnErr, IfOk};
ghost use Rattle.md_base.specs.Files.{Files, HoldsPart, holding, extended};
ghost use Rattle.md_base.specs.Outside.{HasCause, Takes};
ghost use Rattle.md_dynamic.specs.Valid.{IsValid};
ghost use Rattle.md_deepfile.specs.Bytes.{each, file_bytes};
ghost use Rattle.md_deepfile.specs.Pieces.{WritesOn, StopsIn, table_bytes, row_bytes};

use crate::fields::{put_count, put_front};
use crate::spelled::Spelled;
use md_base::{Failed, Store, WriteFault};
use md_dynamic::Profile;
use std::alloc::Global;

/// The most bytes that one call hands to a store.
const PIECE: usize = 65_536;

/// No thing of a file has more bytes.
const THING: usize = 300;

/// Writes the file of a profile, in version 2: makes it empty, and adds the bytes in pieces of at most 65,536. The
/// profile is valid. One buffer is taken first, and the whole file is never held. Where it is refused, the file is as it
/// was, or it holds a front of the bytes. Other files stay as they are.
pub fn write_profile<S: Store>(
    alloc: Global,
    profile: &Profile,
    store: &mut S,
    name: &str,
) -> Result<(), WriteFault>
    requires { IsValid profile.now }
    ensures whole { OnOk result (S.held store.new ≡ holding name.now (file_bytes profile.now) (S.held store.old)) }
    ensures part { OnErr result (HoldsPart name.now (file_bytes profile.now) (S.held store.old) (S.held store.new)) }

    ensures cause { HasCause WriteFault.Write (S.write_faults store.old) (S.write_faults store.new) result }
    ensures reads { S.read_faults store.new ≡ S.read_faults store.old }
{
    let mut buffer = Vec::with_capacity(alloc, PIECE)?;
    match create_file(store, name) {
        Ok(()) => write_all(store, name, &mut buffer, profile),
        Err(fault) => Err(fault),
    }
}

/// Makes a file empty.
fn create_file<S: Store>(store: &mut S, name: &str) -> Result<(), WriteFault>
    ensures emptied { OnOk result (S.held store.new ≡ holding name.now [] (S.held store.old)) }
    ensures kept { OnErr result (S.held store.new ≡ S.held store.old) }
    ensures cause { HasCause WriteFault.Write (S.write_faults store.old) (S.write_faults store.new) result }
    ensures reads { S.read_faults store.new ≡ S.read_faults store.old }
{
    match store.create(name) {
        Ok(()) => Ok(()),
        Err(Failed::Device) => Err(WriteFault::Write),
        Err(Failed::NoMemory) => Err(WriteFault::NoMemory),
    }
}

/// Writes all fields of a profile to an empty file.
fn write_all<S: Store>(
    store: &mut S,
    name: &str,
    buffer: &mut Vec<u8>,
    profile: &Profile,
) -> Result<(), WriteFault>
    requires { IsValid profile.now }
    ensures on { OnOk result (WritesOn name.now (file_bytes profile.now) (S.held store.old) buffer.old.items (S.held store.new) []) }
    ensures stops { OnErr result (StopsIn name.now (file_bytes profile.now) (S.held store.old) buffer.old.items (S.held store.new)) }
    ensures cause { HasCause WriteFault.Write (S.write_faults store.old) (S.write_faults store.new) result }
    ensures reads { S.read_faults store.new ≡ S.read_faults store.old }
{
    if let Err(fault) = write_tables(store, name, buffer, profile) {
        return Err(fault);
    }
    if let Err(fault) = write_rows(store, name, buffer, profile) {
        return Err(fault);
    }
    empty(store, name, buffer)
}

/// Writes what stands before the contexts.
fn write_tables<S: Store>(
    store: &mut S,
    name: &str,
    buffer: &mut Vec<u8>,
    profile: &Profile,
) -> Result<(), WriteFault>
    requires { IsValid profile.now }
    ensures on { OnOk result (WritesOn name.now (table_bytes profile.now) (S.held store.old) buffer.old.items (S.held store.new) buffer.new.items) }
    ensures stops { OnErr result (StopsIn name.now (table_bytes profile.now) (S.held store.old) buffer.old.items (S.held store.new)) }
    ensures cause { HasCause WriteFault.Write (S.write_faults store.old) (S.write_faults store.new) result }
    ensures reads { S.read_faults store.new ≡ S.read_faults store.old }
{
    if let Err(_) = put_front(buffer, profile.finished()) {
        return Err(WriteFault::NoMemory);
    }
    if let Err(fault) = write_each(store, name, buffer, profile.statics().modules()) {
        return Err(fault);
    }
    if let Err(fault) = write_each(store, name, buffer, profile.statics().procs()) {
        return Err(fault);
    }
    write_each(store, name, buffer, profile.statics().sites())
}

/// Writes contexts and links.
fn write_rows<S: Store>(
    store: &mut S,
    name: &str,
    buffer: &mut Vec<u8>,
    profile: &Profile,
) -> Result<(), WriteFault>
    requires { IsValid profile.now }
    ensures on { OnOk result (WritesOn name.now (row_bytes profile.now) (S.held store.old) buffer.old.items (S.held store.new) buffer.new.items) }
    ensures stops { OnErr result (StopsIn name.now (row_bytes profile.now) (S.held store.old) buffer.old.items (S.held store.new)) }
    ensures cause { HasCause WriteFault.Write (S.write_faults store.old) (S.write_faults store.new) result }
    ensures reads { S.read_faults store.new ≡ S.read_faults store.old }
{
    if let Err(fault) = write_each(store, name, buffer, profile.nodes()) {
        return Err(fault);
    }
    write_each(store, name, buffer, profile.links())
}

/// Appends all these bytes to a file.
fn append_all<S: Store>(store: &mut S, name: &str, bytes: &[u8]) -> Result<(), WriteFault>
    ensures whole { OnOk result ((before : Option Files) (out : List ℕ) → S.held store.old ≡ holding name.now out before → S.held store.new ≡ holding name.now (out ++ bytes.now) before) }
    ensures part { OnErr result ((before : Option Files) (out : List ℕ) → S.held store.old ≡ holding name.now out before
        → (count : ℕ) × (S.held store.new ≡ holding name.now (out ++ take count bytes.now) before)) }
    ensures cause { HasCause WriteFault.Write (S.write_faults store.old) (S.write_faults store.new) result }
    ensures reads { S.read_faults store.new ≡ S.read_faults store.old }
{
    let mut done = 0;
    while done < bytes.len() {
        let end = bytes.len().min(done.saturating_add(PIECE));
        done += append_part(store, name, &bytes[done..end])?;
    }
    Ok(())
}

/// Adds a front of a piece of at most 65,536 bytes at the end of a file.
fn append_part<S: Store>(store: &mut S, name: &str, piece: &[u8]) -> Result<usize, WriteFault>
    requires short { length piece.now ≤ 65536 }
    ensures takes { IfOk result (λ n. Takes n piece.now) }
    ensures added { IfOk result (λ n. S.held store.new ≡ extended name.now (take n piece.now) (S.held store.old)) }
    ensures kept { OnErr result (S.held store.new ≡ S.held store.old) }
    ensures cause { HasCause WriteFault.Write (S.write_faults store.old) (S.write_faults store.new) result }
    ensures reads { S.read_faults store.new ≡ S.read_faults store.old }
{
    match store.append(name, piece) {
        Ok(count) => Ok(count),
        Err(Failed::Device) => Err(WriteFault::Write),
        Err(Failed::NoMemory) => Err(WriteFault::NoMemory),
    }
}

/// Appends the buffer to the file, and empties it.
fn empty<S: Store>(store: &mut S, name: &str, buffer: &mut Vec<u8>) -> Result<(), WriteFault>
    ensures on { OnOk result (WritesOn name.now [] (S.held store.old) buffer.old.items (S.held store.new) buffer.new.items) }
    ensures emptied { OnOk result (buffer.new.items ≡ []) }
    ensures stops { OnErr result (StopsIn name.now [] (S.held store.old) buffer.old.items (S.held store.new)) }
    ensures cause { HasCause WriteFault.Write (S.write_faults store.old) (S.write_faults store.new) result }
    ensures reads { S.read_faults store.new ≡ S.read_faults store.old }
{
    match append_all(store, name, buffer) {
        Ok(()) => {
            buffer.clear();
            Ok(())
        }
        Err(fault) => Err(fault),
    }
}

/// Makes room in the buffer for one more thing.
fn make_room<S: Store>(store: &mut S, name: &str, buffer: &mut Vec<u8>) -> Result<(), WriteFault>
    ensures on { OnOk result (WritesOn name.now [] (S.held store.old) buffer.old.items (S.held store.new) buffer.new.items) }
    ensures stops { OnErr result (StopsIn name.now [] (S.held store.old) buffer.old.items (S.held store.new)) }
    ensures cause { HasCause WriteFault.Write (S.write_faults store.old) (S.write_faults store.new) result }
    ensures reads { S.read_faults store.new ≡ S.read_faults store.old }
{
    if buffer.len() <= PIECE - THING {
        return Ok(());
    }
    empty(store, name, buffer)
}

/// Writes a thing through the buffer.
fn write_thing<S: Store, T: Spelled>(
    store: &mut S,
    name: &str,
    buffer: &mut Vec<u8>,
    thing: &T,
) -> Result<(), WriteFault>
    ensures on { OnOk result (WritesOn name.now (T.bytes thing.now) (S.held store.old) buffer.old.items (S.held store.new) buffer.new.items) }
    ensures stops { OnErr result (StopsIn name.now (T.bytes thing.now) (S.held store.old) buffer.old.items (S.held store.new)) }
    ensures cause { HasCause WriteFault.Write (S.write_faults store.old) (S.write_faults store.new) result }
    ensures reads { S.read_faults store.new ≡ S.read_faults store.old }
{
    match thing.put(buffer) {
        Ok(()) => make_room(store, name, buffer),
        Err(_) => Err(WriteFault::NoMemory),
    }
}

/// Writes a list through the buffer: how many there are, and each.
fn write_each<S: Store, T: Spelled>(
    store: &mut S,
    name: &str,
    buffer: &mut Vec<u8>,
    things: &[T],
) -> Result<(), WriteFault>
    requires { length things.now < 2 ^ 32 }
    ensures on { OnOk result (WritesOn name.now (each T.bytes things.now) (S.held store.old) buffer.old.items (S.held store.new) buffer.new.items) }
    ensures stops { OnErr result (StopsIn name.now (each T.bytes things.now) (S.held store.old) buffer.old.items (S.held store.new)) }
    ensures cause { HasCause WriteFault.Write (S.write_faults store.old) (S.write_faults store.new) result }
    ensures reads { S.read_faults store.new ≡ S.read_faults store.old }
{
    if put_count(buffer, things.len()).is_err() {
        return Err(WriteFault::NoMemory);
    }
    for thing in things {
        if let Err(fault) = write_thing(store, name, buffer, thing) {
            return Err(fault);
        }
    }
    Ok(())
}
