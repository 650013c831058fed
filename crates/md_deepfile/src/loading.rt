// A profile read from a store, in pieces.
ghost use Rattle.std.specs.Prelude.{◌≡◌, ◌≤◌, List, ℕ, [], length, IfOk, IfErr, OnOk, vec_len};
ghost use Rattle.md_base.specs.Files.{GivesFrom};
ghost use Rattle.md_base.specs.Outside.{HasCause};
ghost use Rattle.md_dynamic.specs.Valid.{IsValid};
ghost use Rattle.md_deepfile.specs.Decoding.{HasTaken};
ghost use Rattle.md_deepfile.specs.Loads.{FileSpells, FileTaken, IsLoadFault, IsFinished, IsStoreFault};
ghost use Rattle.md_deepfile.specs.Spells.{Spells};
ghost use Rattle.md_deepfile.specs.declared.loading.LoadFault.TheVariants.{NoMemory as load_out_of_memory};

use crate::damage::{DecodeFault, Kind};
use crate::decoder::Decoder;
use md_base::{Failed, NoMemory, Store};
use md_dynamic::Profile;
use std::alloc::{AllocError, Global};
use std::error::Error;
use std::fmt;

/// Why a file gave no profile.
#[derive(Clone, Copy, Debug, PartialEq, Eq)]
pub enum LoadFault {
    /// The store failed.
    Read,
    /// The file has more bytes than may be.
    TooLarge,
    /// The file spells no profile: the first rule that it breaks, and its place.
    Damage { at: u64, kind: Kind },
    NoMemory,
}

impl fmt::Display for LoadFault {
    fn fmt<W: fmt::Write>(&self, f: &mut fmt::Formatter<W>) -> fmt::Result {
        match self {
            LoadFault::Read => write!(f, "the file can't be read"),
            LoadFault::TooLarge => write!(f, "the file is too large"),
            LoadFault::Damage { at, kind } => write!(f, "damaged at {at}: {kind}"),
            LoadFault::NoMemory => write!(f, "want of memory"),
        }
    }
}

impl Error for LoadFault {}

impl From<AllocError> for LoadFault {
    ghost from_gives = { λ _ fault. fault ≡ load_out_of_memory };

    fn from(_: AllocError) -> LoadFault {
        LoadFault::NoMemory
    }
}

impl From<NoMemory> for LoadFault {
    ghost from_gives = { λ _ fault. fault ≡ load_out_of_memory };

    fn from(_: NoMemory) -> LoadFault {
        LoadFault::NoMemory
    }
}

/// The most bytes that one call asks of a store.
const PIECE: usize = 65_536;

/// Reads a profile from a file of at most `max` bytes, in either version, a piece at a time. After a damage it reads on to
/// the end and keeps nothing, so a file that is too large is told before a damage of it.
pub fn load<S: Store>(
    alloc: Global,
    store: &mut S,
    name: &str,
    max: u64,
) -> Result<Profile, LoadFault>
    ensures found { IfOk result (λ f. FileSpells (S.held store.old) name.now max f) }
    ensures valid { IfOk result (λ f. IsValid f) }
    ensures fault { IfErr result (λ fault. IsLoadFault (S.held store.old) name.now max fault) }

    ensures cause { HasCause LoadFault.Read (S.read_faults store.old) (S.read_faults store.new) result }
    ensures kept { S.held store.new ≡ S.held store.old }
    ensures writes { S.write_faults store.new ≡ S.write_faults store.old }
{
    let mut decoder = Decoder::new(alloc)?;
    read_through(alloc, store, name, max, &mut decoder)?;
    finished(decoder)
}

/// Reads the named file to its end, and feeds the decoder.
fn read_through<S: Store>(
    alloc: Global,
    store: &mut S,
    name: &str,
    max: u64,
    decoder: &mut Decoder,
) -> Result<(), LoadFault>
    requires begun { HasTaken decoder.old [] }
    ensures whole { OnOk result (FileTaken (S.held store.old) name.now max decoder.new) }
    ensures fault { IfErr result (λ fault. IsLoadFault (S.held store.old) name.now max fault) }
    ensures cause { HasCause LoadFault.Read (S.read_faults store.old) (S.read_faults store.new) result }
    ensures kept { S.held store.new ≡ S.held store.old }
    ensures writes { S.write_faults store.new ≡ S.write_faults store.old }
{
    let mut buf = buffer(alloc, PIECE)?;
    read_on(store, name, max, &mut buf, decoder)
}

/// Room for this many bytes.
fn buffer(alloc: Global, size: usize) -> Result<Vec<u8>, AllocError>
    ensures { IfOk result (λ buf. vec_len buf ≡ size) }
{
    vec![in alloc; 0; size]
}

/// What a decoder that was fed a whole file gives.
fn finished(decoder: Decoder) -> Result<Profile, LoadFault>
    ensures found { IfOk result (λ f. (bytes : List ℕ) → HasTaken decoder bytes → Spells bytes f) }
    ensures fault { IfErr result (λ fault. (bytes : List ℕ) → HasTaken decoder bytes → IsFinished bytes fault) }
{
    match decoder.finish() {
        Ok(profile) => Ok(profile),
        Err(DecodeFault::Damage { at, kind }) => Err(LoadFault::Damage { at, kind }),
        Err(DecodeFault::NoMemory) => Err(LoadFault::NoMemory),
    }
}

/// Reads the named file to its end, a buffer at a time, and feeds the decoder, which remembers a damage.
fn read_on<S: Store>(
    store: &mut S,
    name: &str,
    max: u64,
    buf: &mut [u8],
    decoder: &mut Decoder,
) -> Result<(), LoadFault>
    requires room { 1 ≤ length buf.old }
    requires begun { HasTaken decoder.old [] }
    ensures whole { OnOk result (FileTaken (S.held store.old) name.now max decoder.new) }
    ensures fault { IfErr result (λ fault. IsLoadFault (S.held store.old) name.now max fault) }
    ensures cause { HasCause LoadFault.Read (S.read_faults store.old) (S.read_faults store.new) result }
    ensures kept { S.held store.new ≡ S.held store.old }
    ensures writes { S.write_faults store.new ≡ S.write_faults store.old }
{
    let mut at = 0;
    'pieces: loop {
        let count = match read_some(store, name, at, buf) {
            Ok(count) => count,
            Err(fault) => return Err(fault),
        };
        if count == 0 {
            return Ok(());
        }
        if count as u64 > max - at {
            return Err(LoadFault::TooLarge);
        }
        let _ = decoder.feed(&buf[..count]);
        at += count as u64;
    }
}

/// Reads some bytes from a place of the file.
fn read_some<S: Store>(
    store: &mut S,
    name: &str,
    at: u64,
    buf: &mut [u8],
) -> Result<usize, LoadFault>
    ensures within { IfOk result (λ n. n ≤ length buf.old) }
    ensures bytes { IfOk result (λ n. GivesFrom (S.held store.old) name.now at n buf.new) }
    ensures fault { IfErr result (λ fault. IsStoreFault fault) }
    ensures cause { HasCause LoadFault.Read (S.read_faults store.old) (S.read_faults store.new) result }
    ensures kept { S.held store.new ≡ S.held store.old }
    ensures writes { S.write_faults store.new ≡ S.write_faults store.old }
{
    match store.read_at(name, at, buf) {
        Ok(count) => Ok(count),
        Err(Failed::Device) => Err(LoadFault::Read),
        Err(Failed::NoMemory) => Err(LoadFault::NoMemory),
    }
}
