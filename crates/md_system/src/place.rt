// Where the bytes of a file go while it is written: beside it under a temporary name, or into the file itself.
use crate::tries::{failed, outcome};
use md_base::Failed;
use std::alloc::Global;
use std::fs::{File, Metadata, OpenOptions};
use std::io::ErrorKind;
use std::os::fd::IntoRawFd;
use std::os::unix::fs::{MetadataExt, OpenOptionsExt, chown};
use std::path::{Path, PathBuf};
use std::rt::Files;
use std::{fs, io};

/// The most symbolic links that are followed from a name.
const MOST_LINKS: u32 = 40;

/// The most temporary names that are tried.
const MOST_NAMES: u32 = 100;

/// The mode that a new file is made with, which the system narrows.
const NEW_MODE: u32 = 0o666;

/// A file of the machine: its device, and its number there.
#[derive(Clone, Copy, Debug, PartialEq, Eq)]
pub(crate) struct Identity {
    device: u64,
    number: u64,
}

impl Identity {
    pub(crate) fn of(there: &Metadata) -> Identity {
        Identity {
            device: there.dev(),
            number: there.ino(),
        }
    }
}

/// Where the bytes of a file that is being written are.
#[derive(Drop)]
pub(crate) enum Place {
    /// In the file itself.
    Itself,
    /// In a file of its own folder under a temporary name, which takes the target's name once it is whole.
    Beside { temporary: PathBuf, target: PathBuf },
}

/// A file that is being written.
#[derive(Drop)]
pub(crate) struct Begun {
    pub(crate) file: File,
    pub(crate) place: Place,
}

/// What is needed to find a place: the machine's files, and the number of this process.
#[derive(Clone, Copy)]
pub(crate) struct Finder<'a, R> {
    pub(crate) alloc: Global,
    pub(crate) files: &'a R,
    pub(crate) process: u32,
}

impl<'a, R: Files<File = File>> Finder<'a, R> {
    /// Begins the named file, which is to be none of those that were read.
    pub(crate) fn begin(&self, name: &str, read: &[Identity]) -> Result<Begun, Failed> {
        match fs::metadata(self.files, name) {
            Ok(there) if there.is_file() => self.begin_over(name, &there, read),
            Ok(_) => self.begin_itself(name),
            Err(error) if error.kind() == ErrorKind::NotFound => self.begin_new(name),
            Err(error) => Err(failed(error)),
        }
    }

    /// Begins a file in place of one that is there. One that was read, or that may not be written, stays.
    fn begin_over(&self, name: &str, there: &Metadata, read: &[Identity]) -> Result<Begun, Failed> {
        let identity = Identity::of(there);
        if read.contains(&identity) {
            return Err(Failed::Device);
        }
        let mut options = OpenOptions::new();
        options.write(true);
        drop(options.open(self.files, name).map_err(failed)?);
        if self.is_a_stream(identity) {
            return self.begin_itself(name);
        }
        let target = self.followed(name)?;
        if !self.is_at(target.as_path().as_str(), identity) {
            return self.begin_itself(name);
        }
        self.begin_beside(name, target, Some(there))
    }

    /// Begins a file that isn't there.
    fn begin_new(&self, name: &str) -> Result<Begun, Failed> {
        let target = self.followed(name)?;
        if target.file_name().is_none() || name.ends_with('/') {
            return self.begin_itself(name);
        }
        self.begin_beside(name, target, None)
    }

    /// Empties the named file, or makes it, to be written itself.
    fn begin_itself(&self, name: &str) -> Result<Begun, Failed> {
        let file = fs::create(self.files, name).map_err(failed)?;
        Ok(Begun {
            file,
            place: Place::Itself,
        })
    }

    /// Opens the named file to be written on at its end. It is to be none of those that were read.
    pub(crate) fn go_on(&self, name: &str, read: &[Identity]) -> Result<Begun, Failed> {
        let mut options = OpenOptions::new();
        options.append(true);
        options.create(true);
        let file = options.open(self.files, name).map_err(failed)?;
        let there = file.metadata().map_err(failed)?;
        if there.is_file() && read.contains(&Identity::of(&there)) {
            return Err(Failed::Device);
        }
        Ok(Begun {
            file,
            place: Place::Itself,
        })
    }

    /// Begins a file beside the target. Where its folder takes none that could stand for it, the named file is written
    /// itself.
    fn begin_beside(
        &self,
        name: &str,
        target: PathBuf,
        there: Option<&Metadata>,
    ) -> Result<Begun, Failed> {
        for number in 0..MOST_NAMES {
            let temporary = self.temporary(&target, number)?;
            match self.make(&temporary, there) {
                Ok(file) if self.stands_for(&file, &temporary, there) => {
                    let place = Place::Beside { temporary, target };
                    return Ok(Begun { file, place });
                }
                Ok(_) => {
                    // What stays of it is an empty file.
                    let _removed = fs::remove_file(self.files, &temporary);
                    return self.begin_itself(name);
                }
                Err(error) if error.kind() == ErrorKind::AlreadyExists => {}
                Err(error) if is_refused(error.kind()) => return self.begin_itself(name),
                Err(error) => return Err(failed(error)),
            }
        }
        Err(Failed::Device)
    }

    /// A temporary name beside the target.
    fn temporary(&self, target: &PathBuf, number: u32) -> Result<PathBuf, Failed> {
        let process = self.process;
        let name = format!(in self.alloc; ".mdprof-{process}-{number}")?;
        Ok(target.with_file_name(self.alloc, name.as_str())?)
    }

    /// Makes a new file, open to no more than the one that is there.
    fn make(&self, temporary: &PathBuf, there: Option<&Metadata>) -> io::Result<File> {
        let mode = match there {
            Some(there) => there.mode() & NEW_MODE,
            None => NEW_MODE,
        };
        let mut options = OpenOptions::new();
        options.write(true);
        options.create_new(true);
        options.mode(mode);
        options.open(self.files, temporary)
    }

    /// Gives a new file the mode of the one that is there, and its owner and group where the system lets it. Answers
    /// whether it can take that one's name.
    fn stands_for(&self, file: &File, temporary: &PathBuf, there: Option<&Metadata>) -> bool {
        let Some(there) = there else {
            return true;
        };
        let Ok(made) = file.metadata() else {
            return false;
        };
        if made.dev() != there.dev() {
            return false;
        }
        if made.uid() != there.uid() || made.gid() != there.gid() {
            self.give(temporary, there);
        }
        file.set_permissions(there.permissions()).is_ok()
    }

    /// Gives a file the owner and the group of the one that is there, or the group alone.
    fn give(&self, temporary: &PathBuf, there: &Metadata) {
        let (owner, group) = (Some(there.uid()), Some(there.gid()));
        if chown(self.files, temporary, owner, group).is_err() {
            let _given = chown(self.files, temporary, None, group);
        }
    }

    /// What a name leads to by the symbolic links at its end.
    fn followed(&self, name: &str) -> Result<PathBuf, Failed> {
        let mut path = PathBuf::from_str(self.alloc, name)?;
        for _ in 0..MOST_LINKS {
            let Ok(text) = self.files.read_link(self.alloc, path.as_path().as_str()) else {
                return Ok(path);
            };
            path = match path.parent() {
                Some(folder) => folder.join(self.alloc, &text)?,
                None => text,
            };
        }
        Ok(path)
    }

    /// Whether this file is at a path.
    fn is_at(&self, path: &str, identity: Identity) -> bool {
        match fs::metadata(self.files, path) {
            Ok(there) => Identity::of(&there) == identity,
            Err(_) => false,
        }
    }

    /// Whether standard output or standard error goes to this file.
    fn is_a_stream(&self, identity: Identity) -> bool {
        self.is_at("/dev/stdout", identity) || self.is_at("/dev/stderr", identity)
    }
}

/// Whether a folder refuses a new file where it may still let one that is there be written.
fn is_refused(kind: ErrorKind) -> bool {
    matches!(
        kind,
        ErrorKind::PermissionDenied | ErrorKind::ReadOnlyFilesystem | ErrorKind::InvalidFilename
    )
}

impl Begun {
    /// Where the bytes of this file of a name are.
    pub(crate) fn place_or<'a>(&'a self, name: &'a str) -> &'a str {
        match &self.place {
            Place::Itself => name,
            Place::Beside { temporary, .. } => temporary.as_path().as_str(),
        }
    }

    /// Ends the writing. A file that is kept takes its name; one that isn't goes where it stands beside its target.
    pub(crate) fn end<R: Files<File = File>>(self, files: &R, kept: bool) -> Result<(), Failed> {
        let Begun { file, place } = self;
        let closed = close(file);
        match place {
            Place::Itself if kept => outcome(closed),
            Place::Itself => Ok(()),
            Place::Beside { temporary, target } => {
                if !kept {
                    let _removed = fs::remove_file(files, &temporary);
                    return Ok(());
                }
                let named = closed.and_then(|()| fs::rename(files, &temporary, &target));
                if named.is_err() {
                    let _removed = fs::remove_file(files, &temporary);
                }
                outcome(named)
            }
        }
    }
}

/// Closes a file that was written. What the system couldn't keep of it may show only here.
fn close(file: File) -> io::Result<()> {
    if libc::close(file.into_raw_fd()) < 0 {
        return Err(io::Error::from(ErrorKind::Other));
    }
    Ok(())
}
