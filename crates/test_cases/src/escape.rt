// Bytes in a line of text: `\n`, `\t`, `\\` and `\xHH`, and any other byte as it is.
use std::alloc::{AllocError, Global};

/// What the bytes before the next one say of it.
#[derive(Clone, Copy)]
enum Place {
    Plain,
    Escaped,
    FirstDigit,
    SecondDigit(u8),
}

/// The bytes that a text is written for.
pub fn unescaped(alloc: Global, text: &str) -> Result<Vec<u8>, AllocError> {
    let mut bytes = Vec::new(alloc);
    let mut place = Place::Plain;
    for byte in text.as_bytes() {
        place = match place {
            Place::Plain if *byte == b'\\' => Place::Escaped,
            Place::Escaped if *byte == b'x' => Place::FirstDigit,
            Place::FirstDigit => Place::SecondDigit(digit(*byte)),
            Place::Plain => {
                bytes.push(*byte)?;
                Place::Plain
            }
            Place::Escaped => {
                bytes.push(meant(*byte))?;
                Place::Plain
            }
            Place::SecondDigit(high) => {
                bytes.push(high.wrapping_mul(16).wrapping_add(digit(*byte)))?;
                Place::Plain
            }
        };
    }
    Ok(bytes)
}

/// The byte that one letter behind `\` is written for.
fn meant(letter: u8) -> u8 {
    match letter {
        b'n' => b'\n',
        b't' => b'\t',
        other => other,
    }
}

/// The value of a hexadecimal digit.
fn digit(byte: u8) -> u8 {
    match byte {
        b'0'..=b'9' => byte - b'0',
        b'a'..=b'f' => byte - b'a' + 10,
        _ => 0,
    }
}
