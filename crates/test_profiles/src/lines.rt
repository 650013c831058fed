// Lines of what was found, and numbers in the lines of a case.
ghost use Rattle.std.specs.Prelude.{◌≤◌};

use std::alloc::{AllocError, Global};
use std::fmt::{Debug, Display};
use std::str;
use test_cases::Case;

/// Adds a line.
pub fn add_line(out: &mut String, line: &str) -> Result<(), AllocError> {
    out.push_str(line)?;
    out.push('\n')?;
    Ok(())
}

/// Adds a line that shows something.
pub fn add_shown<T: Display>(alloc: Global, thing: &T, out: &mut String) -> Result<(), AllocError> {
    let line = format!(in alloc; "{thing}")?;
    add_line(out, line.as_str())
}

/// Adds a line that shows something as it is written in a program.
pub fn add_debug<T: Debug>(alloc: Global, thing: &T, out: &mut String) -> Result<(), AllocError> {
    let line = format!(in alloc; "{thing:?}")?;
    add_line(out, line.as_str())
}

/// Adds a text of whole lines.
pub fn add_text(out: &mut String, text: &[u8]) -> Result<(), AllocError> {
    match str::from_utf8(text) {
        Ok(text) => out.push_str(text)?,
        Err(_) => add_line(out, "not UTF-8")?,
    }
    Ok(())
}

/// A number of 32 bits that a text is, or 0.
pub fn small_number(text: &str) -> u32 {
    match text.parse() {
        Ok(number) => number,
        Err(_) => 0,
    }
}

/// The numbers of a line, with a space between them.
pub fn numbers(alloc: Global, text: &str) -> Result<Vec<u64>, AllocError> {
    let mut numbers = Vec::new(alloc);
    for word in text.split(' ') {
        let number: u64 = match word.parse() {
            Ok(number) => number,
            Err(_) => 0,
        };
        numbers.push(number)?;
    }
    Ok(numbers)
}

/// The most bytes that a call takes or gives: the number of the case, and at least 1.
pub fn most(case: &Case) -> usize
    ensures { 1 ≤ result }
{
    (case.number("most") as usize).max(1)
}

/// The numbers of the calls that fail, one number.
pub fn failing(alloc: Global, call: u64) -> Result<Vec<u64>, AllocError> {
    let mut calls = Vec::new(alloc);
    calls.push(call)?;
    Ok(calls)
}
