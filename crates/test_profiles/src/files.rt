// Profile files, texts of profiles, and texts of feedback.
ghost use Rattle.std.specs.Prelude.{◌<◌, length};

use crate::lines::{add_debug, add_line, add_shown, add_text, failing, most};
use md_deepfile::{DecodeFault, Kind, decode, encode, load};
use md_dump::{DumpFault, dump, undump};
use md_feedback::{Feedback, read_feedback, write_feedback};
use std::alloc::{AllocError, Global};
use test_cases::Case;
use test_memory::MemStore;

/// How many of the cuts of a `file` are short at their ends.
pub fn cuts(alloc: Global, case: &Case, out: &mut String) -> Result<(), AllocError> {
    let file = case.bytes("file");
    let mut count = 0usize;
    for size in 0..file.len() {
        if is_short(alloc, &file[..size]) {
            count = count.wrapping_add(1);
        }
    }
    let size = file.len();
    add_line(
        out,
        format!(in alloc; "{count} of {size} cuts are short at their ends")?.as_str(),
    )
}

/// Whether a file is short at its end.
fn is_short(alloc: Global, file: &[u8]) -> bool {
    let short = DecodeFault::Damage {
        at: file.len() as u64,
        kind: Kind::Short,
    };
    decode(alloc, file).err() == Some(short)
}

/// What is told of loading a `file` of at most `limit` bytes from a store that gives at most so many a call, and whose call
/// of a number fails.
pub fn load_file(alloc: Global, case: &Case, out: &mut String) -> Result<(), AllocError> {
    let mut store = store_of(alloc, case)?;
    match load(alloc, &mut store, "p", case.number("limit")) {
        Ok(_) => add_line(out, "loaded"),
        Err(fault) => add_debug(alloc, &fault, out),
    }
}

/// A store that holds the file.
fn store_of(alloc: Global, case: &Case) -> Result<MemStore, AllocError> {
    let mut files = Vec::new(alloc);
    let name = String::from_str(alloc, "p")?;
    let file = case.bytes("file").to_vec(alloc)?;
    files.push((name, file))?;
    let fails = failing(alloc, case.number("fails"))?;
    Ok(MemStore::new(files, most(case), fails))
}

/// The text of a profile, told again from its file.
pub fn text_again(alloc: Global, case: &Case, out: &mut String) -> Result<(), AllocError> {
    let text = case.bytes("text");
    if text.len() >= 4_294_967_295 {
        return add_line(out, "a long text");
    }
    match file_of(alloc, text) {
        Ok(file) => add_profile(alloc, &file, out),
        Err(fault) => add_shown(alloc, &fault, out),
    }
}

/// The file of the profile that a text tells.
fn file_of(alloc: Global, text: &[u8]) -> Result<Vec<u8>, DumpFault>
    requires { length text.now < 4294967295 }
{
    let profile = undump(alloc, text)?;
    let file = encode(alloc, &profile)?;
    Ok(file)
}

/// Adds the text of the profile that a file has.
fn add_profile(alloc: Global, file: &[u8], out: &mut String) -> Result<(), AllocError> {
    match text_of(alloc, file) {
        Ok(text) => add_text(out, &text),
        Err(fault) => add_shown(alloc, &fault, out),
    }
}

/// The text of the profile that a file has.
fn text_of(alloc: Global, file: &[u8]) -> Result<Vec<u8>, DecodeFault> {
    let profile = decode(alloc, file)?;
    let text = dump(alloc, &profile)?;
    Ok(text)
}

/// What each `text` spells: its pairs and the text that they are written as, or where it spells none.
pub fn feedback_again(alloc: Global, case: &Case, out: &mut String) -> Result<(), AllocError> {
    for field in case
        .fields()
        .iter()
        .filter(|field| field.key.as_str() == "text")
    {
        add_feedback(alloc, field.bytes.as_slice(), out)?;
    }
    Ok(())
}

fn add_feedback(alloc: Global, text: &[u8], out: &mut String) -> Result<(), AllocError> {
    if text.len() >= 4_294_967_295 {
        return add_line(out, "a long text");
    }
    match read_feedback(alloc, text) {
        Ok(feedback) => add_pairs(alloc, &feedback, out),
        Err(fault) => add_shown(alloc, &fault, out),
    }
}

/// Adds the pairs of a feedback, and its text.
fn add_pairs(alloc: Global, feedback: &Feedback, out: &mut String) -> Result<(), AllocError> {
    for pair in feedback.pairs.as_slice() {
        add_debug(alloc, pair, out)?;
    }
    match write_feedback(alloc, feedback) {
        Ok(text) => add_text(out, &text),
        Err(fault) => add_shown(alloc, &fault, out),
    }
}
