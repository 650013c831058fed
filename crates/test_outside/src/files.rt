// Files of the machine: what comes of calls on them, under which names they stand, and what stays as it was.
use crate::input::{halves, number, show_bytes};
use crate::stores::{act, write};
use md_base::{Store, read_all};
use md_system::StdStore;
use std::alloc::{AllocError, Global};
use std::os::unix::fs::{PermissionsExt, symlink};
use std::{fs, io, process};
use test_cases::{Case, Field};

/// More bytes than any file of a case has.
const MOST: u64 = 1_000_000;

/// Does what the lines say, in order: those of every store, and `keep` and `forget`, which settle what was written.
/// `fresh NAME` reads a file through another store, and `also NAME BYTES` writes one through another. `symlink TARGET NAME`, `folder NAME`, `mode NAME MODE` and
/// `remove NAME` prepare files and take them away; `shown NAME` tells a file's mode, and what a link says.
pub fn show(rt: &HostRuntime, alloc: Global, case: &Case, found: &mut String) -> io::Result<()> {
    let mut store = StdStore::new(alloc, rt, process::id(rt.process()));
    for field in case.fields() {
        match field.key.as_str() {
            "keep" => settle(&mut store, true, found)?,
            "forget" => settle(&mut store, false, found)?,
            _ => {
                prepare(rt, alloc, field, found)?;
                act(alloc, field, &mut store, found)?;
            }
        }
    }
    Ok(())
}

fn settle(
    store: &mut StdStore<&HostRuntime>,
    kept: bool,
    found: &mut String,
) -> Result<(), AllocError> {
    match store.settle(kept) {
        Ok(()) => writeln!(found, "settled"),
        Err(failed) => writeln!(found, "not settled: {failed}"),
    }
}

/// Does what a line says that is no call on the store.
fn prepare(rt: &HostRuntime, alloc: Global, field: &Field, found: &mut String) -> io::Result<()> {
    let (name, rest) = halves(field.text.as_str());
    match field.key.as_str() {
        "fresh" => Ok(fresh(rt, alloc, name, found)?),
        "also" => Ok(also(rt, alloc, name, rest, found)?),
        "symlink" => symlink(rt, name, rest),
        "folder" => fs::create_dir(rt, name),
        "mode" => fs::set_permissions(rt, name, PermissionsExt::from_mode(octal(rest))),
        "shown" => shown(rt, alloc, name, found),
        "remove" => fs::remove_file(rt, name),
        "leave" => fs::remove_dir(rt, name),
        _ => Ok(()),
    }
}

/// What a store that has written nothing reads in a file.
fn fresh(
    rt: &HostRuntime,
    alloc: Global,
    name: &str,
    found: &mut String,
) -> Result<(), AllocError> {
    let mut store = StdStore::new(alloc, rt, process::id(rt.process()));
    match read_all(alloc, &mut store, name, MOST) {
        Ok(bytes) => {
            write!(found, "fresh ")?;
            show_bytes(alloc, &bytes, found)
        }
        Err(fault) => writeln!(found, "fresh: {fault}"),
    }
}

/// Writes a file through a store of its own.
fn also(
    rt: &HostRuntime,
    alloc: Global,
    name: &str,
    bytes: &str,
    found: &mut String,
) -> Result<(), AllocError> {
    let mut store = StdStore::new(alloc, rt, process::id(rt.process()));
    write(&mut store, name, bytes.as_bytes(), found)?;
    settle(&mut store, true, found)
}

/// The mode of a file, and what it says where it is a link.
fn shown(rt: &HostRuntime, alloc: Global, name: &str, found: &mut String) -> io::Result<()> {
    let mode = fs::metadata(rt, name)?.permissions().mode() % 0o1000;
    write!(found, "mode {mode:o}")?;
    if let Ok(text) = std::rt::Files::read_link(rt, alloc, name) {
        let text = text.as_path().as_str();
        write!(found, " link to {text}")?;
    }
    Ok(writeln!(found)?)
}

/// The number that these octal digits are, or 0.
fn octal(digits: &str) -> u32 {
    u32::from_str_radix(digits, 8).unwrap_or(0)
}
