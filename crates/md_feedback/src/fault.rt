// Why a text is no feedback.
use md_base::NoMemory;
use std::alloc::{AllocError, AllocFailed};
use std::error::Error;
use std::fmt;

/// Why there is no feedback.
#[derive(Clone, Copy, Debug, PartialEq, Eq)]
pub enum FeedFault {
    /// The text spells none: its first line that is at fault, counted from 1.
    Line(u32),
    NoMemory,
}

impl fmt::Display for FeedFault {
    fn fmt<W: fmt::Write>(&self, f: &mut fmt::Formatter<W>) -> fmt::Result {
        match self {
            FeedFault::Line(line) => write!(f, "no feedback at line {line}"),
            FeedFault::NoMemory => write!(f, "want of memory"),
        }
    }
}

impl Error for FeedFault {}

impl From<NoMemory> for FeedFault {
    ghost use Rattle.std.specs.Prelude.{◌≡◌};
    ghost use Rattle.md_feedback.specs.declared.fault.FeedFault.TheVariants as fault;

    ghost from_gives = { λ _ e. e ≡ fault.NoMemory };

    fn from(_: NoMemory) -> FeedFault {
        FeedFault::NoMemory
    }
}
