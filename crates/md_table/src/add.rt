// Words, numbers and spaces, added one behind the other. Where memory is refused, what was there stays in front.
ghost use Rattle.std.specs.Prelude.{◌≡◌, ◌≤◌, ◌++◌, decimal, length, OnOk, replicate};

use itoa::Buffer;
use std::alloc::AllocError;

/// Adds words.
pub(crate) fn add(out: &mut Vec<u8>, words: &[u8]) -> Result<(), AllocError>
    ensures added { OnOk result (out.new.items ≡ out.old.items ++ words.now) }
    ensures grown { length out.old.items ≤ length out.new.items }
{
    out.extend_from_slice(words)
}

/// Adds a number in decimal.
pub fn add_number(out: &mut Vec<u8>, number: u128) -> Result<(), AllocError>
    ensures added { OnOk result (out.new.items ≡ out.old.items ++ decimal number) }
    ensures grown { length out.old.items ≤ length out.new.items }
{
    let mut digits = Buffer::new();
    add(out, digits.format(number).as_bytes())
}

/// Adds spaces.
pub(crate) fn add_spaces(out: &mut Vec<u8>, count: usize) -> Result<(), AllocError>
    ensures { OnOk result (out.new.items ≡ out.old.items ++ replicate count 32) }
{
    match out.len().checked_add(count) {
        Some(len) => out.resize(len, b' '),
        None => Err(AllocError),
    }
}
