// The files of the machine as a store.
ghost use Rattle.std.specs.Prelude.{◌≡◌, ◌≤◌, None, length, IfOk};
ghost use Rattle.md_base.specs.Outside.{Takes, HasCause};

use crate::place::{Begun, Finder, Identity};
use crate::tries::{counted, failed, read_some, write_some};
use md_base::{Failed, Store};
use std::alloc::Global;
use std::fs;
use std::fs::File;
use std::io::{Seek, SeekFrom};
use std::rt::Files;

/// An open file that is read, and the place where the next read begins.
#[derive(Drop)]
struct Reading {
    name: String,
    file: File,
    at: u64,
}

/// A file that is written at its end.
#[derive(Drop)]
struct Writing {
    name: String,
    begun: Begun,
}

/// The files of the machine. It tells nothing of what they hold. The file that was read last and the one that was
/// written last stay open, so that a file is read or written through without searching for the place each time.
///
/// What is written stands beside its target until `settle` gives it the target's name, or takes it away. A file that was
/// read isn't written.
#[derive(Drop)]
pub struct StdStore<R: Files<File = File>> {
    alloc: Global,
    files: R,
    process: u32,
    read: Vec<Identity>,
    reading: Option<Reading>,
    writing: Option<Writing>,
    read_faults: u64,
    write_faults: u64,
}

impl<R: Files<File = File>> StdStore<R> {
    /// The files of this runtime, for the process of this number, with counts of 0.
    pub fn new(alloc: Global, files: R, process: u32) -> StdStore<R>
        ensures reads { result.read_faults ≡ 0 }
        ensures writes { result.write_faults ≡ 0 }
    {
        StdStore {
            alloc,
            files,
            process,
            read: Vec::new(alloc),
            reading: None,
            writing: None,
            read_faults: 0,
            write_faults: 0,
        }
    }

    /// Ends the writing: the file that was written last takes its name where it is kept, and else goes, so that what
    /// had the name stays as it was.
    pub fn settle(&mut self, kept: bool) -> Result<(), Failed>
        ensures cause { HasCause Failed.Device self.old.write_faults self.new.write_faults result }
        ensures reads { self.new.read_faults ≡ self.old.read_faults }
    {
        let settled = end(&self.files, &mut self.writing, kept);
        counted(&mut self.write_faults, settled)
    }
}

impl<R: Files<File = File>> Store for StdStore<R> {
    ghost held = { λ _. None };

    ghost read_faults = { λ s. s.read_faults };

    ghost write_faults = { λ s. s.write_faults };

    fn read_at(&mut self, name: &str, at: u64, buf: &mut [u8]) -> Result<usize, Failed> {
        let place = place_of(&self.writing, name);
        let count = match turn_to(
            self.alloc,
            &self.files,
            &mut self.read,
            self.reading.take(),
            name,
            place,
        ) {
            Ok(open) => read_open(open, &mut self.reading, at, buf),
            Err(fault) => Err(fault),
        };
        counted(&mut self.read_faults, count)
    }

    fn create(&mut self, name: &str) -> Result<(), Failed> {
        self.reading = None;
        let finder = Finder {
            alloc: self.alloc,
            files: &self.files,
            process: self.process,
        };
        let created = create_open(&finder, &self.read, &mut self.writing, name);
        counted(&mut self.write_faults, created)
    }

    fn append(&mut self, name: &str, piece: &[u8]) -> Result<usize, Failed> {
        let finder = Finder {
            alloc: self.alloc,
            files: &self.files,
            process: self.process,
        };
        let added = append_open(&finder, &self.read, &mut self.writing, name, piece);
        counted(&mut self.write_faults, added)
    }
}

/// Where the bytes of the named file are: where they are written, if they are.
fn place_of<'a>(writing: &'a Option<Writing>, name: &'a str) -> &'a str {
    match writing {
        Some(open) if open.name.as_str() == name => open.begun.place_or(name),
        _ => name,
    }
}

/// The open file where it is the named one, and else that one, opened.
fn turn_to<R: Files<File = File>>(
    alloc: Global,
    files: &R,
    read: &mut Vec<Identity>,
    open: Option<Reading>,
    name: &str,
    place: &str,
) -> Result<Reading, Failed> {
    match open {
        Some(open) if open.name.as_str() == name => Ok(open),
        _ => open_at(alloc, files, read, name, place),
    }
}

/// Opens a file to be read, and keeps in mind which it is. A device or a pipe may be written all the same.
fn open_at<R: Files<File = File>>(
    alloc: Global,
    files: &R,
    read: &mut Vec<Identity>,
    name: &str,
    place: &str,
) -> Result<Reading, Failed> {
    let file = fs::open(files, place).map_err(failed)?;
    let there = file.metadata().map_err(failed)?;
    let identity = Identity::of(&there);
    if there.is_file() && !read.contains(&identity) {
        read.push(identity)?;
    }
    let name = String::from_str(alloc, name)?;
    Ok(Reading { name, file, at: 0 })
}

/// Reads on in the open file, which stays open where that succeeds.
fn read_open(
    open: Reading,
    reading: &mut Option<Reading>,
    at: u64,
    buf: &mut [u8],
) -> Result<usize, Failed>
    ensures { IfOk result (λ n. n ≤ length buf.old) }
{
    let mut open = open;
    if open.at != at {
        open.file.seek(SeekFrom::Start(at)).map_err(failed)?;
    }
    let count = read_some(&mut open.file, buf, 0)?;
    open.at = at.saturating_add(count as u64);
    *reading = Some(open);
    Ok(count)
}

/// Ends the file that was written last, where there is one.
fn end<R: Files<File = File>>(
    files: &R,
    writing: &mut Option<Writing>,
    kept: bool,
) -> Result<(), Failed> {
    match writing.take() {
        Some(open) => open.begun.end(files, kept),
        None => Ok(()),
    }
}

/// Begins the named file anew, and keeps it open. The one that was written before is whole: it takes its name.
fn create_open<R: Files<File = File>>(
    finder: &Finder<'_, R>,
    read: &[Identity],
    writing: &mut Option<Writing>,
    name: &str,
) -> Result<(), Failed> {
    let again = matches!(writing, Some(open) if open.name.as_str() == name);
    end(finder.files, writing, !again)?;
    let kept = String::from_str(finder.alloc, name)?;
    let begun = finder.begin(name, read)?;
    *writing = Some(Writing { name: kept, begun });
    Ok(())
}

/// Writes on in the open file where it is the named one, and else goes on with that one first.
fn append_open<R: Files<File = File>>(
    finder: &Finder<'_, R>,
    read: &[Identity],
    writing: &mut Option<Writing>,
    name: &str,
    piece: &[u8],
) -> Result<usize, Failed>
    ensures { IfOk result (λ n. Takes n piece.now) }
{
    if let Some(open) = writing {
        if open.name.as_str() == name {
            return write_some(&mut open.begun.file, piece, 0);
        }
    }
    end(finder.files, writing, true)?;
    let kept = String::from_str(finder.alloc, name)?;
    let mut begun = finder.go_on(name, read)?;
    let count = write_some(&mut begun.file, piece, 0)?;
    *writing = Some(Writing { name: kept, begun });
    Ok(count)
}
