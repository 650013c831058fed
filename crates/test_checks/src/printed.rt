// Programs as text.
use crate::fault::Fault;
use crate::text::program;
use crate::words::readable;
use md_hlds::Program;
use md_printer::print;
use std::alloc::Global;

/// Adds the printed text of a program, and whether it is printed so again once it is read.
pub fn printed(alloc: Global, original: &Program, found: &mut String) -> Result<(), Fault> {
    let text = print(alloc, original)?;
    found.push_str(readable(text.as_slice()))?;
    let same = is_kept(alloc, text.as_slice())?;
    Ok(writeln!(found, "printed again: {same}")?)
}

/// Whether the program of a text is printed as this text.
fn is_kept(alloc: Global, text: &[u8]) -> Result<bool, Fault> {
    let program = program(alloc, text)?;
    let again = print(alloc, &program)?;
    Ok(again.as_slice() == text)
}
