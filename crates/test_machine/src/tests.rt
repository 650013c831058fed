// Runs of programs, with what they write and how they end, and against the plain program.

mod came;
mod examples;
mod heavy;
mod made;
mod order;
mod plain;
mod ports;
mod programs;
mod worked;

use md_det::{Checked, check_det};
use md_modes::check_modes;
use md_reader::read;
use std::alloc::Global;
use std::test::Fail;

/// The checked program of a text.
fn checked(alloc: Global, text: &[u8]) -> Result<Checked, Fail> {
    if text.len() > 1_048_576 {
        return Err(Fail::from("a short text"));
    }
    let program = read(alloc, text)?;
    let moded = check_modes(alloc, program)?;
    let checked = check_det(alloc, moded)?;
    Ok(checked)
}
