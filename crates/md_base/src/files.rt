// Whole files and whole texts over the outside: read to the end, written whole.
ghost use Rattle.std.specs.Prelude.{◌≡◌, ◌≤◌, [], length, take, IfOk, OnOk, OnErr, IsErrOf, vec_len};
ghost use Rattle.md_base.specs.Outside.{HasCause, Takes, added, PartAdded};
ghost use Rattle.md_base.specs.Files.{GivesFrom, FileIs, FileIsLonger, HoldsPart, holding, extended};
ghost use Rattle.md_base.specs.declared.files.ReadFault.TheVariants.{NoMemory as read_out_of_memory};
ghost use Rattle.md_base.specs.declared.files.WriteFault.TheVariants.{NoMemory as write_out_of_memory};

use crate::{Failed, Sink, Store};
use std::alloc::{AllocError, Global};
use std::error::Error;
use std::fmt;

/// Why a file wasn't read.
#[derive(Clone, Copy, Debug, PartialEq, Eq)]
pub enum ReadFault {
    Read,
    TooLarge,
    NoMemory,
}

impl fmt::Display for ReadFault {
    fn fmt<W: fmt::Write>(&self, f: &mut fmt::Formatter<W>) -> fmt::Result {
        f.write_str(match self {
            ReadFault::Read => "the file can't be read",
            ReadFault::TooLarge => "the file is too large",
            ReadFault::NoMemory => "want of memory",
        })
    }
}

impl Error for ReadFault {}

impl From<AllocError> for ReadFault {
    ghost from_gives = { λ _ fault. fault ≡ read_out_of_memory };

    fn from(_: AllocError) -> ReadFault {
        ReadFault::NoMemory
    }
}

/// Why a file or a text wasn't written whole.
#[derive(Clone, Copy, Debug, PartialEq, Eq)]
pub enum WriteFault {
    Write,
    NoMemory,
}

impl fmt::Display for WriteFault {
    fn fmt<W: fmt::Write>(&self, f: &mut fmt::Formatter<W>) -> fmt::Result {
        f.write_str(match self {
            WriteFault::Write => "the bytes can't be written",
            WriteFault::NoMemory => "want of memory",
        })
    }
}

impl Error for WriteFault {}

impl From<AllocError> for WriteFault {
    ghost from_gives = { λ _ fault. fault ≡ write_out_of_memory };

    fn from(_: AllocError) -> WriteFault {
        WriteFault::NoMemory
    }
}

/// The most bytes that one call asks of a store, or hands to it.
const PIECE: usize = 65_536;

/// Reads the named file from its first byte to its end, which is at most `max` bytes away.
pub fn read_all<S: Store>(
    alloc: Global,
    store: &mut S,
    name: &str,
    max: u64,
) -> Result<Vec<u8>, ReadFault>
    // The whole file.
    ensures bytes { IfOk result (λ bytes. FileIs (S.held store.old) name.now bytes.items) }
    ensures within { IfOk result (λ bytes. vec_len bytes ≤ max) }

    ensures cause { HasCause ReadFault.Read (S.read_faults store.old) (S.read_faults store.new) result }
    ensures too_large { IsErrOf result ReadFault.TooLarge → FileIsLonger (S.held store.old) name.now max }

    ensures kept { S.held store.new ≡ S.held store.old }
    ensures writes { S.write_faults store.new ≡ S.write_faults store.old }
{
    let mut buf = buffer(alloc, PIECE)?;
    read_through(alloc, store, name, max, &mut buf)
}

/// Room for this many bytes.
fn buffer(alloc: Global, size: usize) -> Result<Vec<u8>, AllocError>
    ensures { IfOk result (λ buf. vec_len buf ≡ size) }
{
    vec![in alloc; 0; size]
}

/// Reads the named file to its end, a buffer at a time.
fn read_through<S: Store>(
    alloc: Global,
    store: &mut S,
    name: &str,
    max: u64,
    buf: &mut [u8],
) -> Result<Vec<u8>, ReadFault>
    requires { 1 ≤ length buf.old }
    ensures bytes { IfOk result (λ bytes. FileIs (S.held store.old) name.now bytes.items) }
    ensures within { IfOk result (λ bytes. vec_len bytes ≤ max) }
    ensures cause { HasCause ReadFault.Read (S.read_faults store.old) (S.read_faults store.new) result }
    ensures too_large { IsErrOf result ReadFault.TooLarge → FileIsLonger (S.held store.old) name.now max }
    ensures kept { S.held store.new ≡ S.held store.old }
    ensures writes { S.write_faults store.new ≡ S.write_faults store.old }
{
    let mut bytes = Vec::new(alloc);
    while bytes.len() as u64 <= max {
        let count = read_some(store, name, bytes.len() as u64, buf)?;
        if count == 0 {
            return Ok(bytes);
        }
        bytes.extend_from_slice(&buf[..count])?;
    }
    Err(ReadFault::TooLarge)
}

/// Reads some bytes from a place of the file.
fn read_some<S: Store>(
    store: &mut S,
    name: &str,
    at: u64,
    buf: &mut [u8],
) -> Result<usize, ReadFault>
    ensures within { IfOk result (λ n. n ≤ length buf.old) }
    ensures bytes { IfOk result (λ n. GivesFrom (S.held store.old) name.now at n buf.new) }
    ensures kept { S.held store.new ≡ S.held store.old }
    ensures cause { HasCause ReadFault.Read (S.read_faults store.old) (S.read_faults store.new) result }
    ensures whole { IsErrOf result ReadFault.TooLarge → ⊥ }
    ensures writes { S.write_faults store.new ≡ S.write_faults store.old }
{
    match store.read_at(name, at, buf) {
        Ok(count) => Ok(count),
        Err(Failed::Device) => Err(ReadFault::Read),
        Err(Failed::NoMemory) => Err(ReadFault::NoMemory),
    }
}

/// Writes all these bytes to a sink. Where it is refused, a front of them was written.
pub fn write_whole<K: Sink>(sink: &mut K, bytes: &[u8]) -> Result<(), WriteFault>
    ensures whole { OnOk result (K.held sink.new ≡ added bytes.now (K.held sink.old)) }
    ensures part { OnErr result (PartAdded bytes.now (K.held sink.old) (K.held sink.new)) }

    ensures cause { HasCause WriteFault.Write (K.write_faults sink.old) (K.write_faults sink.new) result }

    // What is read from the same link stays as it is.
    ensures beside { K.source_beside sink.new ≡ K.source_beside sink.old }
{
    let mut done = 0;
    while done < bytes.len() {
        done += write_part(sink, &bytes[done..])?;
    }
    Ok(())
}

/// Writes a front of a piece.
fn write_part<K: Sink>(sink: &mut K, piece: &[u8]) -> Result<usize, WriteFault>
    ensures takes { IfOk result (λ n. Takes n piece.now) }
    ensures added { IfOk result (λ n. K.held sink.new ≡ added (take n piece.now) (K.held sink.old)) }
    ensures kept { OnErr result (K.held sink.new ≡ K.held sink.old) }
    ensures cause { HasCause WriteFault.Write (K.write_faults sink.old) (K.write_faults sink.new) result }
    ensures beside { K.source_beside sink.new ≡ K.source_beside sink.old }
{
    match sink.write(piece) {
        Ok(count) => Ok(count),
        Err(Failed::Device) => Err(WriteFault::Write),
        Err(Failed::NoMemory) => Err(WriteFault::NoMemory),
    }
}

/// Writes a file: makes it empty, and adds the bytes in pieces of at most 65,536. Where it is refused, the file is
/// as it was, or it holds a front of the bytes. Other files stay as they are.
pub fn write_file<S: Store>(store: &mut S, name: &str, bytes: &[u8]) -> Result<(), WriteFault>
    ensures whole { OnOk result (S.held store.new ≡ holding name.now bytes.now (S.held store.old)) }
    ensures part { OnErr result (HoldsPart name.now bytes.now (S.held store.old) (S.held store.new)) }

    ensures cause { HasCause WriteFault.Write (S.write_faults store.old) (S.write_faults store.new) result }
    ensures reads { S.read_faults store.new ≡ S.read_faults store.old }
{
    create_file(store, name)?;
    let mut done = 0;
    while done < bytes.len() {
        let end = bytes.len().min(done.saturating_add(PIECE));
        done += append_part(store, name, &bytes[done..end])?;
    }
    Ok(())
}

/// Makes a file empty.
fn create_file<S: Store>(store: &mut S, name: &str) -> Result<(), WriteFault>
    ensures emptied { OnOk result (S.held store.new ≡ holding name.now [] (S.held store.old)) }
    ensures kept { OnErr result (S.held store.new ≡ S.held store.old) }
    ensures cause { HasCause WriteFault.Write (S.write_faults store.old) (S.write_faults store.new) result }
    ensures reads { S.read_faults store.new ≡ S.read_faults store.old }
{
    match store.create(name) {
        Ok(()) => Ok(()),
        Err(Failed::Device) => Err(WriteFault::Write),
        Err(Failed::NoMemory) => Err(WriteFault::NoMemory),
    }
}

/// Adds a front of a piece of at most 65,536 bytes at the end of a file.
fn append_part<S: Store>(store: &mut S, name: &str, piece: &[u8]) -> Result<usize, WriteFault>
    requires short { length piece.now ≤ 65536 }
    ensures takes { IfOk result (λ n. Takes n piece.now) }
    ensures added { IfOk result (λ n. S.held store.new ≡ extended name.now (take n piece.now) (S.held store.old)) }
    ensures kept { OnErr result (S.held store.new ≡ S.held store.old) }
    ensures cause { HasCause WriteFault.Write (S.write_faults store.old) (S.write_faults store.new) result }
    ensures reads { S.read_faults store.new ≡ S.read_faults store.old }
{
    match store.append(name, piece) {
        Ok(count) => Ok(count),
        Err(Failed::Device) => Err(WriteFault::Write),
        Err(Failed::NoMemory) => Err(WriteFault::NoMemory),
    }
}
