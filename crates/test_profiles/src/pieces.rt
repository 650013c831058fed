// The pieces in which a profile is written.
ghost use Rattle.md_dynamic.specs.Valid.{IsValid};

use crate::lines::{add_line, add_shown};
use md_deepfile::write_profile;
use md_dump::undump;
use md_dynamic::Profile;
use std::alloc::{AllocError, Global};
use test_cases::Case;
use test_memory::PieceStore;

/// How long each piece is in which the profile of a text is written. The text is `before`, so many (`count`) times `site`,
/// `between`, and as often `left`, the number of the turn and `right`.
pub fn pieces(alloc: Global, case: &Case, out: &mut String) -> Result<(), AllocError> {
    let count = case.number("count");
    let mut text = Vec::new(alloc);
    text.extend_from_slice(case.bytes("before"))?;
    add_times(&mut text, case.bytes("site"), count)?;
    text.extend_from_slice(case.bytes("between"))?;
    add_numbered(alloc, &mut text, case, count)?;
    if text.len() >= 4_294_967_295 {
        return add_line(out, "a long text");
    }
    match undump(alloc, &text) {
        Ok(profile) => add_pieces(alloc, &profile, out),
        Err(fault) => add_shown(alloc, &fault, out),
    }
}

/// Adds these bytes so many times.
fn add_times(text: &mut Vec<u8>, bytes: &[u8], count: u64) -> Result<(), AllocError> {
    for _turn in 0..count {
        text.extend_from_slice(bytes)?;
    }
    Ok(())
}

/// Adds `left`, the number of the turn and `right` so many times.
fn add_numbered(
    alloc: Global,
    text: &mut Vec<u8>,
    case: &Case,
    count: u64,
) -> Result<(), AllocError> {
    for turn in 0..count {
        let number = format!(in alloc; "{turn}")?;
        text.extend_from_slice(case.bytes("left"))?;
        text.extend_from_slice(number.as_bytes())?;
        text.extend_from_slice(case.bytes("right"))?;
    }
    Ok(())
}

/// Adds a line for each piece in which a profile is written.
fn add_pieces(alloc: Global, profile: &Profile, out: &mut String) -> Result<(), AllocError>
    requires { IsValid profile.now }
{
    let mut store = PieceStore::new(alloc);
    if let Err(fault) = write_profile(alloc, profile, &mut store, "p") {
        return add_shown(alloc, &fault, out);
    }
    for length in store.lengths() {
        writeln!(out, "a piece of {length}")?;
    }
    Ok(())
}
