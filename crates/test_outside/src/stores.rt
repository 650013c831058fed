// Stores: what comes of calls on them, and what they hold then.
use crate::input::{failing, halves, most, number, show_bytes};
use md_base::{Store, read_all, write_file};
use std::alloc::{AllocError, Global};
use test_cases::{Case, Field};
use test_memory::{MemStore, PieceStore, SureStore};

/// A store in memory with the files of the lines `file NAME BYTES`, of which the calls `fails NUMBER` fail.
pub fn show_failing(alloc: Global, case: &Case, found: &mut String) -> Result<(), AllocError> {
    let files = files(alloc, case)?;
    let fails = failing(alloc, case, "fails")?;
    let mut store = MemStore::new(files, most(case), fails);
    act_all(alloc, case, &mut store, found)?;
    show_files(alloc, store.files(), found)
}

/// A store in memory that never fails, with the same files.
pub fn show_sure(alloc: Global, case: &Case, found: &mut String) -> Result<(), AllocError> {
    let files = files(alloc, case)?;
    let mut store = SureStore::new(files, most(case));
    act_all(alloc, case, &mut store, found)?;
    show_files(alloc, store.files(), found)
}

/// A store that keeps how long the pieces are that it is handed: what comes of the calls, and how long each piece was.
pub fn show_pieces(alloc: Global, case: &Case, found: &mut String) -> Result<(), AllocError> {
    let mut store = PieceStore::new(alloc);
    act_all(alloc, case, &mut store, found)?;
    for length in store.lengths() {
        writeln!(found, "a piece of {length}")?;
    }
    Ok(())
}

fn files(alloc: Global, case: &Case) -> Result<Vec<(String, Vec<u8>)>, AllocError> {
    let mut files = Vec::new(alloc);
    for field in case.fields() {
        if field.key.as_str() == "file" {
            files.push(file(alloc, field.text.as_str())?)?;
        }
    }
    Ok(files)
}

fn file(alloc: Global, text: &str) -> Result<(String, Vec<u8>), AllocError> {
    let (name, bytes) = halves(text);
    let name = String::from_str(alloc, name)?;
    Ok((name, bytes.as_bytes().to_vec(alloc)?))
}

/// Adds a line for each file.
fn show_files(
    alloc: Global,
    files: &[(String, Vec<u8>)],
    found: &mut String,
) -> Result<(), AllocError> {
    for file in files {
        let name = file.0.as_str();
        write!(found, "left {name} ")?;
        show_bytes(alloc, file.1.as_slice(), found)?;
    }
    Ok(())
}

/// Does what the lines say, in order: `read NAME MOST` and `write NAME BYTES` a whole file, `fill NAME COUNT BYTES` with the
/// bytes so many times, and, by one call, `piece NAME PLACE COUNT`, `create NAME` and `append NAME BYTES`.
pub fn act_all<S: Store>(
    alloc: Global,
    case: &Case,
    store: &mut S,
    found: &mut String,
) -> Result<(), AllocError> {
    for field in case.fields() {
        act(alloc, field, store, found)?;
    }
    Ok(())
}

/// Does what one line says.
pub fn act<S: Store>(
    alloc: Global,
    field: &Field,
    store: &mut S,
    found: &mut String,
) -> Result<(), AllocError> {
    let (name, rest) = halves(field.text.as_str());
    match field.key.as_str() {
        "read" => read(alloc, store, name, number(rest), found),
        "write" => write(store, name, rest.as_bytes(), found),
        "fill" => fill(alloc, store, name, rest, found),
        "piece" => read_piece(alloc, store, name, rest, found),
        "create" => create(store, name, found),
        "append" => append(store, name, rest.as_bytes(), found),
        _ => Ok(()),
    }
}

fn read<S: Store>(
    alloc: Global,
    store: &mut S,
    name: &str,
    most: u64,
    found: &mut String,
) -> Result<(), AllocError> {
    match read_all(alloc, store, name, most) {
        Ok(bytes) => show_bytes(alloc, &bytes, found),
        Err(fault) => writeln!(found, "{fault}"),
    }
}

/// Writes a file whole.
pub fn write<S: Store>(
    store: &mut S,
    name: &str,
    bytes: &[u8],
    found: &mut String,
) -> Result<(), AllocError> {
    match write_file(store, name, bytes) {
        Ok(()) => writeln!(found, "written"),
        Err(fault) => writeln!(found, "{fault}"),
    }
}

/// Writes a file that has these bytes so many times.
fn fill<S: Store>(
    alloc: Global,
    store: &mut S,
    name: &str,
    text: &str,
    found: &mut String,
) -> Result<(), AllocError> {
    let (count, bytes) = halves(text);
    let mut copies = Vec::new(alloc);
    for _ in 0..number(count) {
        copies.extend_from_slice(bytes.as_bytes())?;
    }
    write(store, name, copies.as_slice(), found)
}

/// Reads by one call from a place, into room for so many bytes.
fn read_piece<S: Store>(
    alloc: Global,
    store: &mut S,
    name: &str,
    text: &str,
    found: &mut String,
) -> Result<(), AllocError> {
    let (place, count) = halves(text);
    let mut room = vec![in alloc; 0u8; number(count) as usize]?;
    match store.read_at(name, number(place), &mut room) {
        Ok(count) => show_bytes(alloc, room.get(..count).unwrap_or(&[]), found),
        Err(failed) => writeln!(found, "{failed}"),
    }
}

fn create<S: Store>(store: &mut S, name: &str, found: &mut String) -> Result<(), AllocError> {
    match store.create(name) {
        Ok(()) => writeln!(found, "created"),
        Err(failed) => writeln!(found, "{failed}"),
    }
}

fn append<S: Store>(
    store: &mut S,
    name: &str,
    piece: &[u8],
    found: &mut String,
) -> Result<(), AllocError> {
    match store.append(name, piece) {
        Ok(count) => writeln!(found, "added {count}"),
        Err(failed) => writeln!(found, "{failed}"),
    }
}
