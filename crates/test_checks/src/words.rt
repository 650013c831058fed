// Words, numbers and names in the lines of a case.
use crate::fault::Fault;
use md_base::Name;
use md_hlds::PredName;
use std::alloc::Global;

/// Bytes as text, or `?` where they are none.
pub fn readable(bytes: &[u8]) -> &str {
    match std::str::from_utf8(bytes) {
        Ok(text) => text,
        Err(_) => "?",
    }
}

/// What stands on the two sides of the first space.
pub fn halves(text: &str) -> (&str, &str) {
    match text.split_once(' ') {
        Some(halves) => halves,
        None => (text, ""),
    }
}

/// The number that a text is.
pub fn place_of(text: &str) -> Result<u32, Fault> {
    match text.parse() {
        Ok(number) => Ok(number),
        Err(_) => Err(Fault::Unknown),
    }
}

/// A length as a number of 32 bits.
pub fn count_of(length: usize) -> Result<u32, Fault> {
    match u32::try_from(length) {
        Ok(count) => Ok(count),
        Err(_) => Err(Fault::Unknown),
    }
}

/// The numbers that a text has between its spaces.
pub fn places_of(alloc: Global, text: &str) -> Result<Vec<u32>, Fault> {
    let mut places = Vec::new(alloc);
    for word in text.split_whitespace() {
        places.push(place_of(word)?)?;
    }
    Ok(places)
}

/// The name that a text is, with its module where it has one.
pub fn name_of(alloc: Global, text: &str) -> Result<PredName, Fault> {
    match text.split_once('.') {
        None => Ok(PredName {
            qualifier: None,
            name: plain_name(alloc, text)?,
        }),
        Some((module, name)) => Ok(PredName {
            qualifier: Some(plain_name(alloc, module)?),
            name: plain_name(alloc, name)?,
        }),
    }
}

/// The name that a text is as a whole.
pub fn plain_name(alloc: Global, text: &str) -> Result<Name, Fault> {
    match Name::from_bytes(alloc, text.as_bytes())? {
        Some(name) => Ok(name),
        None => Err(Fault::Unknown),
    }
}
