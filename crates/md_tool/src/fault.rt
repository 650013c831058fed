// Why a command ended without all that it was asked for, and the line that says so.
ghost use Rattle.std.specs.Prelude.{◌≡◌, Some, IfOk, string_bytes};
ghost use Rattle.md_deepfile.specs.Words.{damage_words};
ghost use Rattle.md_tool.specs.Fault.{status_of, fault_line, plain_line, uncaught_line, file_line, place_line, refusal_words, damaged_line_text, size_text, entries_text};

use md_deepfile::Kind;
use md_det::DetFault;
use md_modes::ModeFault;
use md_reader::Refused;
use std::alloc::{AllocError, Global};
use std::fmt;

/// Why a command ended without all that it was asked for.
#[derive(Drop)]
pub enum Fault {
    /// The words are no command.
    Usage,
    /// The file can't be read.
    Read,
    /// The file is longer than a program may be.
    TooLong,
    /// The text isn't accepted as a program.
    Refused { line: u32, why: Refusal },
    /// The run isn't finished within its budget.
    OutOfSteps,
    /// An exception with these bytes left the program's `main`.
    Thrown(Vec<u8>),
    /// The profile file breaks a rule at this place.
    Damaged { at: u64, kind: Kind },
    /// The profile file is longer than so many bytes.
    TooLarge(u64),
    /// A clique of the profile is entered by two links.
    TwoEntries { clique: u32, a: u32, b: u32 },
    /// The text of a profile breaks a rule at this line.
    DamagedLine(u32),
    /// The profile is of another program than the one before it.
    AnotherProgram,
    /// The profile has no such page.
    NoSuchPage,
    /// The net failed.
    Network,
    /// Something can't be written.
    Write,
    /// Memory was refused.
    NoMemory,
}

/// Why a command over several files ended, and the name of the file that is at fault, or none where that is no file's.
#[derive(Drop)]
pub struct Stopped<'a> {
    pub file: &'a str,
    pub fault: Fault,
}

/// Why a text isn't accepted as a program.
#[derive(Clone, Copy, PartialEq, Eq)]
pub enum Refusal {
    /// It spells no program.
    Text(Refused),
    /// Its program has a fault of modes.
    Modes(ModeFault),
    /// Its program has a fault of determinism.
    Determinism(DetFault),
}

impl fmt::Display for Refusal {
    ghost output = { λ refusal. Some (refusal_words refusal) };

    fn fmt<W: fmt::Write>(&self, f: &mut fmt::Formatter<W>) -> fmt::Result {
        match self {
            Refusal::Text(refused) => write!(f, "{refused}"),
            Refusal::Modes(fault) => write!(f, "{fault}"),
            Refusal::Determinism(fault) => write!(f, "{fault}"),
        }
    }
}

impl Fault {
    /// The exit status that tells of it.
    pub fn status(&self) -> u8
        ensures { result ≡ status_of self.now }
    {
        match self {
            Fault::Usage => 1,
            Fault::Read => 2,
            Fault::TooLong => 3,
            Fault::Refused { .. } => 3,
            Fault::OutOfSteps => 4,
            Fault::Damaged { .. } => 5,
            Fault::TooLarge(_) => 5,
            Fault::TwoEntries { .. } => 5,
            Fault::DamagedLine(_) => 5,
            Fault::NoSuchPage => 6,
            Fault::Network => 9,
            Fault::Thrown(_) => 10,
            Fault::AnotherProgram => 11,
            Fault::Write => 7,
            Fault::NoMemory => 8,
        }
    }

    /// The line that tells of it, with the name of the command's file.
    pub fn line(&self, alloc: Global, file: &str) -> Result<Vec<u8>, AllocError>
        ensures { IfOk result (λ line. line.items ≡ fault_line self.now file.now) }
    {
        match self {
            Fault::Usage => plain(alloc, "usage: see the table of commands"),
            Fault::Read => of_file(alloc, file, "read fault"),
            Fault::TooLong => of_file(alloc, file, "longer than 1048576 bytes"),
            Fault::Refused { line, why } => refused(alloc, file, *line, *why),
            Fault::OutOfSteps => plain(alloc, "out of steps"),
            Fault::Thrown(error) => uncaught(alloc, error),
            Fault::Damaged { at, kind } => damaged(alloc, file, *at, *kind),
            Fault::TooLarge(most) => too_large(alloc, file, *most),
            Fault::TwoEntries { clique, a, b } => two_entries(alloc, file, *clique, *a, *b),
            Fault::DamagedLine(line) => damaged_line(alloc, file, *line),
            Fault::AnotherProgram => of_file(alloc, file, "another program"),
            Fault::NoSuchPage => plain(alloc, "no such page"),
            Fault::Network => plain(alloc, "network fault"),
            Fault::Write => plain(alloc, "write fault"),
            Fault::NoMemory => plain(alloc, "want of memory"),
        }
    }
}

/// The line that tells of damage to a profile file.
fn damaged(alloc: Global, file: &str, at: u64, kind: Kind) -> Result<Vec<u8>, AllocError>
    ensures { IfOk result (λ told. told.items ≡ file_line file.now (damage_words at kind)) }
{
    let text = damage_text(alloc, at, kind)?;
    of_file(alloc, file, text.as_str())
}

fn damage_text(alloc: Global, at: u64, kind: Kind) -> Result<String, AllocError>
    ensures { IfOk result (λ text. string_bytes text ≡ damage_words at kind) }
{
    format!(in alloc; "damaged at {at}: {kind}")
}

/// The line that tells of damage to the text of a profile.
fn damaged_line(alloc: Global, file: &str, line: u32) -> Result<Vec<u8>, AllocError>
    ensures { IfOk result (λ told. told.items ≡ file_line file.now (damaged_line_text line)) }
{
    let text = damaged_line_text(alloc, line)?;
    of_file(alloc, file, text.as_str())
}

fn damaged_line_text(alloc: Global, line: u32) -> Result<String, AllocError>
    ensures { IfOk result (λ text. string_bytes text ≡ damaged_line_text line) }
{
    format!(in alloc; "damaged at line {line}")
}

/// The line that tells of a profile file that is too long.
fn too_large(alloc: Global, file: &str, most: u64) -> Result<Vec<u8>, AllocError>
    ensures { IfOk result (λ told. told.items ≡ file_line file.now (size_text most)) }
{
    let text = size_text(alloc, most)?;
    of_file(alloc, file, text.as_str())
}

fn size_text(alloc: Global, most: u64) -> Result<String, AllocError>
    ensures { IfOk result (λ text. string_bytes text ≡ size_text most) }
{
    format!(in alloc; "longer than {most} bytes")
}

/// The line that tells of a clique that two links enter.
fn two_entries(
    alloc: Global,
    file: &str,
    clique: u32,
    a: u32,
    b: u32,
) -> Result<Vec<u8>, AllocError>
    ensures { IfOk result (λ told. told.items ≡ file_line file.now (entries_text clique a b)) }
{
    let text = entries_text(alloc, clique, a, b)?;
    of_file(alloc, file, text.as_str())
}

fn entries_text(alloc: Global, clique: u32, a: u32, b: u32) -> Result<String, AllocError>
    ensures { IfOk result (λ text. string_bytes text ≡ entries_text clique a b) }
{
    format!(in alloc; "clique {clique} is entered by links {a} and {b}")
}

fn plain(alloc: Global, text: &str) -> Result<Vec<u8>, AllocError>
    ensures { IfOk result (λ line. line.items ≡ plain_line text.now) }
{
    let line = format!(in alloc; "mdprof: {text}\n")?;
    Ok(line.into_bytes())
}

/// The line that tells of an exception, with its bytes as they are.
fn uncaught(alloc: Global, error: &[u8]) -> Result<Vec<u8>, AllocError>
    ensures { IfOk result (λ line. line.items ≡ uncaught_line error.now) }
{
    let mut line = Vec::from_slice(alloc, b"mdprof: uncaught exception: ")?;
    line.extend_from_slice(error)?;
    line.push(b'\n')?;
    Ok(line)
}

fn of_file(alloc: Global, file: &str, text: &str) -> Result<Vec<u8>, AllocError>
    ensures { IfOk result (λ line. line.items ≡ file_line file.now text.now) }
{
    let line = format!(in alloc; "mdprof: {file}: {text}\n")?;
    Ok(line.into_bytes())
}

/// The line that tells why a text isn't accepted.
fn refused(alloc: Global, file: &str, line: u32, why: Refusal) -> Result<Vec<u8>, AllocError>
    ensures { IfOk result (λ told. told.items ≡ place_line file.now line (refusal_words why)) }
{
    let told = format!(in alloc; "mdprof: {file}:{line}: {why}\n")?;
    Ok(told.into_bytes())
}
