// Stores in memory.
ghost use Rattle.std.specs.Prelude.{◌≡◌, ◌≤◌, ◌<◌, ◌⊎◌, ◌↔◌, ◌++◌, ◌∷◌, [], Some, None, length, take, drop, min, Contains, IfOk, IfSome, IfNone, OnOk, OnErr, IsErrOf, slice_set, string_bytes, vec_len};
ghost use Rattle.md_base.specs.Outside.{HasCause, Takes, Gives, one_more};
ghost use Rattle.md_base.specs.Files.{GivesFrom, with_file, bytes_in, holding, extended};
ghost use Rattle.test_memory.specs.Memory.{listed, file_in, any_file_in, IsPlaceOf, name_at, bytes_at, given_of, FailsNext, IsAfterCall};

use crate::failures::is_due;
use md_base::{Failed, NoMemory, Store};
use std::alloc::Global;
use std::marker::Model;

/// A store in memory that gives or takes a few bytes a call, and of which chosen calls fail.
#[derive(Drop)]
pub struct MemStore {
    files: Vec<(String, Vec<u8>)>,
    most: usize,
    fail: Vec<u64>,
    calls: u64,
    read_faults: u64,
    write_faults: u64,
}

impl Model for MemStore {
    ghost use Rattle.std.specs.Prelude.{◌≤◌};
    ghost use Rattle.test_memory.specs.Memory.{FailingStore, listed};

    ghost Value = { FailingStore };

    ghost view = { λ s. record {
      files = listed s.files.items;
      most = s.most;
      fail = s.fail.items;
      calls = s.calls;
      read_faults = s.read_faults;
      write_faults = s.write_faults;
    } };

    ghost invariant = { λ s. 1 ≤ s.most };
}

impl MemStore {
    /// A store that holds these files, gives or takes at most `most` bytes a call, and fails at the calls whose
    /// numbers, counted from 1, are in `fail`. Of two files with one name the first counts.
    pub fn new(files: Vec<(String, Vec<u8>)>, most: usize, fail: Vec<u64>) -> MemStore
        requires { 1 ≤ most }
        ensures { result ≡ record {
          files = listed files.items;
          most = most;
          fail = fail.items;
          calls = 0;
          read_faults = 0;
          write_faults = 0;
        } }
    {
        MemStore {
            files,
            most,
            fail,
            calls: 0,
            read_faults: 0,
            write_faults: 0,
        }
    }

    /// What it holds.
    pub fn files(&self) -> &[(String, Vec<u8>)]
        ensures { listed result.now ≡ self.now.files }
    {
        self.files.as_slice()
    }

    /// Counts a fault of a read.
    fn read_fault(&mut self) -> Failed
        ensures device { result ≡ Failed.Device }
        ensures counted { self.new ≡ record self.old { read_faults = one_more self.old.read_faults } }
    {
        self.read_faults = self.read_faults.saturating_add(1);
        Failed::Device
    }

    /// Counts a fault of a write.
    fn write_fault(&mut self) -> Failed
        ensures device { result ≡ Failed.Device }
        ensures counted { self.new ≡ record self.old { write_faults = one_more self.old.write_faults } }
    {
        self.write_faults = self.write_faults.saturating_add(1);
        Failed::Device
    }
}

impl Store for MemStore {
    ghost held = { λ s. Some (file_in s.files) };

    ghost read_faults = { λ s. s.read_faults };

    ghost write_faults = { λ s. s.write_faults };

    fn read_at(&mut self, name: &str, at: u64, buf: &mut [u8]) -> Result<usize, Failed>
        ensures within { IfOk result (λ n. n ≤ length buf.old) }
        ensures bytes { IfOk result (λ n. GivesFrom (Some (file_in self.old.files)) name.now at n buf.new) }
        ensures kept { self.new.files ≡ self.old.files }
        ensures cause { HasCause Failed.Device self.old.read_faults self.new.read_faults result }
        ensures writes { self.new.write_faults ≡ self.old.write_faults }

        // It fails at a call that is to fail and for a name that isn't there, and there alone; never by want of memory.
        ensures device { IsErrOf result Failed.Device ↔ (FailsNext self.old ⊎ (file_in self.old.files name.now ≡ None)) }
        ensures memory { IsErrOf result Failed.NoMemory → ⊥ }
        ensures count { IfOk result (λ n. n ≡ given_of (length buf.old) self.old.most at (bytes_in (file_in self.old.files) name.now)) }
        ensures counted { IsAfterCall self.old self.new }
    {
        if is_due(&self.fail, &mut self.calls) {
            return Err(self.read_fault());
        }
        match give_named(&self.files, name, at, self.most, buf) {
            Some(count) => Ok(count),
            None => Err(self.read_fault()),
        }
    }

    fn create(&mut self, name: &str) -> Result<(), Failed>
        ensures emptied { OnOk result (file_in self.new.files ≡ with_file name.now [] (file_in self.old.files)) }
        ensures kept { OnErr result (self.new.files ≡ self.old.files) }
        ensures cause { HasCause Failed.Device self.old.write_faults self.new.write_faults result }
        ensures reads { self.new.read_faults ≡ self.old.read_faults }

        ensures due { IsErrOf result Failed.Device ↔ FailsNext self.old }
        ensures counted { IsAfterCall self.old self.new }
    {
        if is_due(&self.fail, &mut self.calls) {
            return Err(self.write_fault());
        }
        create_in(&mut self.files, name)?;
        Ok(())
    }

    fn append(&mut self, name: &str, piece: &[u8]) -> Result<usize, Failed>
        ensures takes { IfOk result (λ n. Takes n piece.now) }
        ensures added { IfOk result (λ n. file_in self.new.files ≡ with_file name.now
            (bytes_in (file_in self.old.files) name.now ++ take n piece.now) (file_in self.old.files)) }
        ensures kept { OnErr result (self.new.files ≡ self.old.files) }
        ensures cause { HasCause Failed.Device self.old.write_faults self.new.write_faults result }
        ensures reads { self.new.read_faults ≡ self.old.read_faults }

        ensures due { IsErrOf result Failed.Device ↔ FailsNext self.old }
        ensures count { IfOk result (λ n. n ≡ min (length piece.now) self.old.most) }
        ensures counted { IsAfterCall self.old self.new }
    {
        if is_due(&self.fail, &mut self.calls) {
            return Err(self.write_fault());
        }
        let count = piece.len().min(self.most);
        append_in(&mut self.files, name, &piece[..count])?;
        Ok(count)
    }
}

/// A store in memory that never fails. A file that isn't there is an empty one.
#[derive(Drop)]
pub struct SureStore {
    files: Vec<(String, Vec<u8>)>,
    most: usize,
}

impl Model for SureStore {
    ghost use Rattle.std.specs.Prelude.{◌≤◌};
    ghost use Rattle.test_memory.specs.Memory.{WholeStore, listed};

    ghost Value = { WholeStore };

    ghost view = { λ s. record { files = listed s.files.items; most = s.most } };

    ghost invariant = { λ s. 1 ≤ s.most };
}

impl SureStore {
    /// A store that holds these files, and gives or takes at most `most` bytes a call. Of two files with one name
    /// the first counts.
    pub fn new(files: Vec<(String, Vec<u8>)>, most: usize) -> SureStore
        requires { 1 ≤ most }
        ensures { result ≡ record { files = listed files.items; most = most } }
    {
        SureStore { files, most }
    }

    /// What it holds.
    pub fn files(&self) -> &[(String, Vec<u8>)]
        ensures { listed result.now ≡ self.now.files }
    {
        self.files.as_slice()
    }
}

impl Store for SureStore {
    ghost held = { λ s. Some (any_file_in s.files) };

    ghost read_faults = { λ _. 0 };

    ghost write_faults = { λ _. 0 };

    fn read_at(&mut self, name: &str, at: u64, buf: &mut [u8]) -> Result<usize, Failed>
        ensures within { IfOk result (λ n. n ≤ length buf.old) }
        ensures bytes { IfOk result (λ n. GivesFrom (Some (any_file_in self.old.files)) name.now at n buf.new) }
        ensures kept { Some (any_file_in self.new.files) ≡ Some (any_file_in self.old.files) }
        ensures cause { HasCause Failed.Device 0 0 result }

        // It never fails, and gives nothing of a name that isn't there.
        ensures count { result ≡ Ok (given_of (length buf.old) self.old.most at (bytes_in (file_in self.old.files) name.now)) }
        ensures same { self.new.most ≡ self.old.most }
    {
        match give_named(&self.files, name, at, self.most, buf) {
            Some(count) => Ok(count),
            None => Ok(0),
        }
    }

    fn create(&mut self, name: &str) -> Result<(), Failed>
        ensures emptied { OnOk result (Some (any_file_in self.new.files) ≡ holding name.now [] (Some (any_file_in self.old.files))) }
        ensures kept { OnErr result (Some (any_file_in self.new.files) ≡ Some (any_file_in self.old.files)) }
        ensures cause { HasCause Failed.Device 0 0 result }

        ensures same { self.new.most ≡ self.old.most }
    {
        create_in(&mut self.files, name)?;
        Ok(())
    }

    fn append(&mut self, name: &str, piece: &[u8]) -> Result<usize, Failed>
        ensures takes { IfOk result (λ n. Takes n piece.now) }
        ensures added { IfOk result (λ n. Some (any_file_in self.new.files) ≡ extended name.now (take n piece.now) (Some (any_file_in self.old.files))) }
        ensures kept { OnErr result (Some (any_file_in self.new.files) ≡ Some (any_file_in self.old.files)) }
        ensures cause { HasCause Failed.Device 0 0 result }

        ensures count { IfOk result (λ n. n ≡ min (length piece.now) self.old.most) }
        ensures same { self.new.most ≡ self.old.most }
    {
        let count = piece.len().min(self.most);
        append_in(&mut self.files, name, &piece[..count])?;
        Ok(count)
    }
}

/// The first file of a name.
fn place_of(files: &[(String, Vec<u8>)], name: &str) -> Option<usize>
    ensures within { IfSome result (λ place. place < length files.now) }
    ensures there { IfSome result (λ place. IsPlaceOf (listed files.now) name.now place) }
    ensures absent { IfNone result (file_in (listed files.now) name.now ≡ None) }
{
    for (place, file) in files.iter().enumerate() {
        if name == file.0.as_str() {
            return Some(place);
        }
    }
    None
}

/// Gives what is left of a file, at most `most` bytes.
fn give(bytes: &[u8], at: u64, most: usize, buf: &mut [u8]) -> usize
    requires { 1 ≤ most }
    ensures gives { Gives (drop at bytes.now) result buf.new }
    ensures count { result ≡ given_of (length buf.old) most at bytes.now }
{
    if at >= bytes.len() as u64 {
        return 0;
    }
    let left = &bytes[at as usize..];
    let count = buf.len().min(most).min(left.len());
    buf[..count].copy_from_slice(&left[..count]);
    count
}

/// Gives what is left of the named file, or answers `None` where there is no such file.
fn give_named(
    files: &[(String, Vec<u8>)],
    name: &str,
    at: u64,
    most: usize,
    buf: &mut [u8],
) -> Option<usize>
    requires { 1 ≤ most }
    ensures within { IfSome result (λ n. n ≤ length buf.old) }
    ensures gives { IfSome result (λ n. GivesFrom (Some (file_in (listed files.now))) name.now at n buf.new) }
    ensures of_any { IfSome result (λ n. GivesFrom (Some (any_file_in (listed files.now))) name.now at n buf.new) }
    ensures absent { IfNone result (file_in (listed files.now) name.now ≡ None) }
    ensures nothing { IfNone result (GivesFrom (Some (any_file_in (listed files.now))) name.now at 0 buf.new) }
    ensures there { IfSome result (λ _. file_in (listed files.now) name.now ≡ None → ⊥) }
    ensures count { IfSome result (λ n. n ≡ given_of (length buf.old) most at (bytes_in (file_in (listed files.now)) name.now)) }
    ensures no_bytes { IfNone result (given_of (length buf.old) most at (bytes_in (file_in (listed files.now)) name.now) ≡ 0) }
{
    let place = place_of(files, name)?;
    let file = &files[place];
    Some(give(&file.1, at, most, buf))
}

/// Makes the named file empty, or adds it.
fn create_in(files: &mut Vec<(String, Vec<u8>)>, name: &str) -> Result<(), NoMemory>
    ensures emptied { OnOk result (file_in (listed files.new.items)
        ≡ with_file name.now [] (file_in (listed files.old.items))) }
    ensures kept { OnErr result (listed files.new.items ≡ listed files.old.items) }
{
    match place_of(files, name) {
        Some(place) => {
            make_empty(files, place);
            Ok(())
        }
        None => add(files, name, &[]),
    }
}

/// Adds a piece at the end of the named file, or adds the file.
fn append_in(files: &mut Vec<(String, Vec<u8>)>, name: &str, piece: &[u8]) -> Result<(), NoMemory>
    ensures added { OnOk result (file_in (listed files.new.items) ≡ with_file name.now
        (bytes_in (file_in (listed files.old.items)) name.now ++ piece.now) (file_in (listed files.old.items))) }
    ensures kept { OnErr result (listed files.new.items ≡ listed files.old.items) }
{
    match place_of(files, name) {
        Some(place) => extend(files, place, piece),
        None => add(files, name, piece),
    }
}

/// Makes a file empty.
fn make_empty(files: &mut Vec<(String, Vec<u8>)>, place: usize)
    requires { place < vec_len files.old }
    ensures { listed files.new.items ≡ slice_set (listed files.old.items) place (name_at (listed files.old.items) place, []) }
{
    let file = &mut files[place];
    file.1.clear();
}

/// Adds a piece at the end of a file.
fn extend(files: &mut Vec<(String, Vec<u8>)>, place: usize, piece: &[u8]) -> Result<(), NoMemory>
    requires { place < vec_len files.old }
    ensures added { OnOk result (listed files.new.items ≡ slice_set (listed files.old.items) place
        (name_at (listed files.old.items) place, bytes_at (listed files.old.items) place ++ piece.now)) }
    ensures kept { OnErr result (listed files.new.items ≡ listed files.old.items) }
{
    let file = &mut files[place];
    file.1.extend_from_slice(piece)?;
    Ok(())
}

/// Adds a file behind the others.
fn add(files: &mut Vec<(String, Vec<u8>)>, name: &str, piece: &[u8]) -> Result<(), NoMemory>
    ensures added { OnOk result (listed files.new.items ≡ listed files.old.items ++ (name.now, piece.now) ∷ []) }
    ensures kept { OnErr result (listed files.new.items ≡ listed files.old.items) }
{
    let alloc: Global = *files.allocator();
    let name = String::from_str(alloc, name)?;
    let bytes = Vec::from_slice(alloc, piece)?;
    files.push((name, bytes))?;
    Ok(())
}
