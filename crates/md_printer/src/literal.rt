// Integers and strings.
ghost use Rattle.std.specs.Prelude.{◌≡◌, ◌++◌, OnOk};
ghost use Rattle.md_printer.specs.Layout.{laid, spaced};
ghost use Rattle.md_printer.specs.Printed as spec;

use crate::layout::{sign, token};
use itoa::Buffer;
use md_base::NoMemory;

/// Adds an integer in decimal, with `-` as a token of its own.
#[tactic(auto, unfolding(crate::specs::Layout::laid))]
pub(crate) fn integer(text: &mut Vec<u8>, number: i64) -> Result<(), NoMemory>
    ensures { OnOk result (text.new.items ≡ text.old.items ++ laid (spec.integer number)) }
{
    if number < 0 {
        sign(text, "-")?;
    }
    let mut digits = Buffer::new();
    token(text, digits.format(number.unsigned_abs()).as_bytes())
}

/// Adds a string with its quotes, in which line feed, tab, the backslash and the quote are escaped.
#[tactic(auto, unfolding(crate::specs::Printed::quoted))]
pub(crate) fn quoted(text: &mut Vec<u8>, bytes: &[u8]) -> Result<(), NoMemory>
    ensures { OnOk result (text.new.items ≡ text.old.items ++ spaced (spec.quoted bytes.now)) }
{
    text.push(b'"')?;
    for byte in bytes {
        escaped(text, *byte)?;
    }
    text.extend_from_slice(b"\" ")?;
    Ok(())
}

#[tactic(auto, unfolding(crate::specs::Printed::escaped))]
fn escaped(text: &mut Vec<u8>, byte: u8) -> Result<(), NoMemory>
    ensures { OnOk result (text.new.items ≡ text.old.items ++ spec.escaped byte) }
{
    match byte {
        b'\n' => text.extend_from_slice(b"\\n")?,
        b'\t' => text.extend_from_slice(b"\\t")?,
        b'\\' => text.extend_from_slice(b"\\\\")?,
        b'"' => text.extend_from_slice(b"\\\"")?,
        _ => text.push(byte)?,
    }
    Ok(())
}
