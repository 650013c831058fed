// What the lines of a case give, and bytes as they are shown.
ghost use Rattle.std.specs.Prelude.{◌≤◌};

use std::alloc::{AllocError, Global};
use test_cases::Case;

/// How many of the last bytes of a text are shown.
const SHOWN: usize = 16;

/// What stands on the two sides of the first space.
pub fn halves(text: &str) -> (&str, &str) {
    match text.split_once(' ') {
        Some(halves) => halves,
        None => (text, ""),
    }
}

/// The number that a text is, or 0.
pub fn number(text: &str) -> u64 {
    match text.parse() {
        Ok(number) => number,
        Err(_) => 0,
    }
}

/// How many bytes a call takes or gives at most: what the line `most` says.
pub fn most(case: &Case) -> usize
    ensures { 1 ≤ result }
{
    usize::try_from(case.number("most")).unwrap_or(1).max(1)
}

/// The numbers of the calls that fail: those of the lines with this key.
pub fn failing(alloc: Global, case: &Case, key: &str) -> Result<Vec<u64>, AllocError> {
    let mut calls = Vec::new(alloc);
    for field in case.fields() {
        if field.key.as_str() == key {
            calls.push(number(field.text.as_str()))?;
        }
    }
    Ok(calls)
}

/// Adds how many bytes these are, and the last of them.
pub fn show_bytes(alloc: Global, bytes: &[u8], found: &mut String) -> Result<(), AllocError> {
    let from = bytes.len().saturating_sub(SHOWN);
    let last = String::from_utf8_lossy(alloc, bytes.get(from..).unwrap_or(bytes))?;
    let last = last.as_str();
    writeln!(found, "{} bytes {last:?}", bytes.len())
}
