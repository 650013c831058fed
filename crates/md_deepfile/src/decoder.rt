// Bytes as a profile, in pieces of any size.
ghost use Rattle.std.specs.Prelude.{◌≡◌, ◌++◌, [], List, ℕ, None, Some, Err, IfOk, IfErr, IfSome, OnOk, IsErrOf};
ghost use Rattle.md_dynamic.specs.Profile.{ProfileRows};
ghost use Rattle.md_dynamic.specs.Valid.{IsValid};
ghost use Rattle.md_deepfile.specs.Fields.{profile_file};
ghost use Rattle.md_deepfile.specs.Format.{read};
ghost use Rattle.md_deepfile.specs.Decoding.{HasTaken, Tells, FollowsBytes};
ghost use Rattle.md_deepfile.specs.Spells.{Spells, IsFaultOf, Reads};
ghost use Rattle.md_deepfile.specs.State.{state_of, form_of, IsReady};

use crate::damage::DecodeFault;
use crate::reader::Reader;
use md_base::NoMemory;
use md_dynamic::Profile;
use std::alloc::Global;
use std::marker::Model;

/// Reads a profile file of either version that comes in pieces.
///
/// It grows with the bytes that came, never by a count that a field names, and it takes time linear in them, as far as
/// the hashing of names and links is: nobody chose them against its hash.
#[derive(Drop)]
pub struct Decoder {
    reader: Box<Reader>,
    stopped: Option<DecodeFault>,
}

impl Model for Decoder {
    ghost use Rattle.md_deepfile.specs.Decoding.{Decoding, IsOpen};
    ghost use Rattle.md_deepfile.specs.State.{state_of};

    ghost Value = { Decoding };

    ghost view = { λ d. record { stopped = d.stopped; state = state_of d.reader.value } };

    ghost invariant = { λ d. IsOpen d.stopped (state_of d.reader.value) };
}

impl Decoder {
    /// A decoder at the first byte of a file.
    pub fn new(alloc: Global) -> Result<Decoder, NoMemory>
        ensures { IfOk result (λ decoder. HasTaken decoder []) }
    {
        let reader = Reader::new(alloc)?;
        Ok(Decoder {
            reader: Box::new(alloc, reader)?,
            stopped: None,
        })
    }

    /// Takes the next bytes of the file. A damage comes as soon as all bytes so far have one that stays however they go on,
    /// and from then on every call answers it, as after want of memory every call answers that.
    pub fn feed(&mut self, piece: &[u8]) -> Result<(), DecodeFault>
        ensures taken { (bytes : List ℕ) → HasTaken self.old bytes → HasTaken self.new (bytes ++ piece.now) }
        ensures tells { (bytes : List ℕ) → HasTaken self.old bytes → Tells result (bytes ++ piece.now) }
        ensures goes_on { OnOk result (self.new.stopped ≡ None) }
        ensures stops { IfErr result (λ fault. self.new.stopped ≡ Some fault) }
        ensures stays { IfSome self.old.stopped (λ fault. result ≡ Err fault) }
    {
        if let Some(fault) = self.stopped {
            return Err(fault);
        }
        match take(&mut self.reader, piece) {
            Ok(()) => Ok(()),
            Err(fault) => {
                self.stopped = Some(fault);
                Err(fault)
            }
        }
    }

    /// The profile that all bytes spell, or the first rule that they break. Takes no memory: `NoMemory` comes only where
    /// it stopped for that.
    pub fn finish(self) -> Result<Profile, DecodeFault>
        ensures found { IfOk result (λ f. (bytes : List ℕ) → HasTaken self bytes → Spells bytes f) }
        ensures only { (bytes : List ℕ) (f : ProfileRows) → HasTaken self bytes → Spells bytes f → Reads f result }
        ensures damage { IfErr result (λ fault. (bytes : List ℕ) → HasTaken self bytes → IsFaultOf bytes fault) }
        ensures stays { IfSome self.stopped (λ fault. result ≡ Err fault) }
        ensures memory { IsErrOf result DecodeFault.NoMemory → self.stopped ≡ Some DecodeFault.NoMemory }
    {
        match self.ended() {
            Ok(()) => Ok(self.into_profile()),
            Err(fault) => Err(fault),
        }
    }

    /// Whether the bytes so far are a whole file.
    fn ended(&self) -> Result<(), DecodeFault>
        ensures whole { OnOk result ((bytes : List ℕ) → HasTaken self.now bytes → read profile_file 0 bytes ≡ Ok self.now.state.rows) }
        ensures damage { IfErr result (λ fault. (bytes : List ℕ) → HasTaken self.now bytes → IsFaultOf bytes fault) }
        ensures stays { IfSome self.now.stopped (λ fault. result ≡ Err fault) }
        ensures memory { IsErrOf result DecodeFault.NoMemory → self.now.stopped ≡ Some DecodeFault.NoMemory }
    {
        match self.stopped {
            Some(fault) => Err(fault),
            None => self.reader.ended(),
        }
    }

    fn into_profile(self) -> Profile
        ensures { result ≡ self.state.rows }
    {
        Box::into_inner(self.reader).into_profile()
    }
}

/// The profile that these bytes spell, all of them, in either version, or the first rule that they break.
pub fn decode(alloc: Global, bytes: &[u8]) -> Result<Profile, DecodeFault>
    ensures found { IfOk result (λ f. Spells bytes.now f) }
    ensures valid { IfOk result (λ f. IsValid f) }
    ensures only { (f : ProfileRows) → Spells bytes.now f → Reads f result }
    ensures damage { IfErr result (λ fault. IsFaultOf bytes.now fault) }
{
    let mut decoder = Decoder::new(alloc)?;
    match decoder.feed(bytes) {
        Ok(()) => decoder.finish(),
        Err(fault) => Err(fault),
    }
}

/// Takes these bytes.
fn take(reader: &mut Reader, piece: &[u8]) -> Result<(), DecodeFault>
    requires { IsReady (state_of reader.old) }
    ensures follows { FollowsBytes (form_of (state_of reader.old)) piece.now reader.old.at (state_of reader.new) result }
    ensures ready { OnOk result (IsReady (state_of reader.new)) }
{
    let mut done = 0;
    while done < piece.len() {
        match reader.some(&piece[done..]) {
            Ok(count) => done += count,
            Err(fault) => return Err(fault),
        }
    }
    Ok(())
}
