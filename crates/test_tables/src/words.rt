// Numbers in the lines of cases, read and written.
use std::fmt;

/// The number that a word is, or none.
pub fn number(word: Option<&str>) -> Option<u32> {
    word?.parse().ok()
}

/// The number that a word is, or 0.
pub fn number_or_zero(word: Option<&str>) -> u32 {
    number(word).unwrap_or(0)
}

/// A number, or a `-` where there is none.
#[derive(Clone, Copy)]
pub struct OrDash(pub Option<u32>);

impl fmt::Display for OrDash {
    fn fmt<W: fmt::Write>(&self, f: &mut fmt::Formatter<W>) -> fmt::Result {
        match self.0 {
            Some(number) => write!(f, "{number}"),
            None => write!(f, "-"),
        }
    }
}
