// Words and numbers, put at the end of a vector.
ghost use Rattle.std.specs.Prelude.{◌≡◌, ◌++◌, ◌∷◌, [], decimal, flat_map, map, OnOk};
ghost use Rattle.md_dump.specs.Text.{or_dash};

use itoa::Buffer;
use std::alloc::AllocError;

/// Puts a number in decimal.
pub(crate) fn put_number(out: &mut Vec<u8>, number: u32) -> Result<(), AllocError>
    ensures { OnOk result (out.new.items ≡ out.old.items ++ decimal number) }
{
    let mut digits = Buffer::new();
    out.extend_from_slice(digits.format(number).as_bytes())
}

/// Puts a number, or `-` where there is none.
pub(crate) fn put_or_dash(out: &mut Vec<u8>, number: Option<u32>) -> Result<(), AllocError>
    ensures { OnOk result (out.new.items ≡ out.old.items ++ or_dash number) }
{
    match number {
        Some(number) => put_number(out, number),
        None => {
            out.push(b'-')?;
            Ok(())
        }
    }
}

/// Puts a word behind a space.
pub(crate) fn put_next(out: &mut Vec<u8>, word: &[u8]) -> Result<(), AllocError>
    ensures { OnOk result (out.new.items ≡ out.old.items ++ 32 ∷ word.now) }
{
    out.push(b' ')?;
    out.extend_from_slice(word)
}

/// Puts a number behind a space.
pub(crate) fn put_next_number(out: &mut Vec<u8>, number: u32) -> Result<(), AllocError>
    ensures { OnOk result (out.new.items ≡ out.old.items ++ 32 ∷ decimal number) }
{
    out.push(b' ')?;
    put_number(out, number)
}

/// Puts a number or `-` behind a space.
pub(crate) fn put_next_or_dash(out: &mut Vec<u8>, number: Option<u32>) -> Result<(), AllocError>
    ensures { OnOk result (out.new.items ≡ out.old.items ++ 32 ∷ or_dash number) }
{
    out.push(b' ')?;
    put_or_dash(out, number)
}

/// Puts numbers, each behind a space.
pub(crate) fn put_numbers(out: &mut Vec<u8>, numbers: &[u32]) -> Result<(), AllocError>
    ensures { OnOk result (out.new.items ≡ out.old.items ++ flat_map (λ n. 32 ∷ decimal n) numbers.now) }
{
    for number in numbers {
        put_next_number(out, *number)?;
    }
    Ok(())
}
