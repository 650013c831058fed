// What is wrong with bytes that spell no profile, and where.
ghost use Rattle.std.specs.Prelude.{◌≡◌, Some};
ghost use Rattle.md_deepfile.specs.Words.{kind_words};
ghost use Rattle.md_deepfile.specs.declared.damage.DecodeFault.TheVariants.{NoMemory as out_of_memory};

use md_base::NoMemory;
use std::alloc::{AllocError, AllocFailed};
use std::error::Error;
use std::fmt;

/// A rule of the profile file.
#[derive(Clone, Copy, Debug, PartialEq, Eq)]
pub enum Kind {
    /// The first eight bytes name no version of the file.
    Magic,
    /// The file ends before a field is whole.
    Short,
    /// Bytes follow the last link.
    Trailing,
    /// A number is none that may stand there.
    Range,
    /// A name is no name, or it was there before.
    Text,
    /// A link's site isn't one of its caller's procedure, or doesn't call its callee's.
    SiteMismatch,
    /// A link was there before.
    DoubleLink,
    /// A context is reached from none of a lower number.
    Orphan,
    /// The finished byte is neither 0 nor 1.
    Flag,
}

impl fmt::Display for Kind {
    ghost output = { λ kind. Some (kind_words kind) };

    fn fmt<W: fmt::Write>(&self, f: &mut fmt::Formatter<W>) -> fmt::Result {
        match self {
            Kind::Magic => f.write_str("magic"),
            Kind::Short => f.write_str("short"),
            Kind::Trailing => f.write_str("trailing"),
            Kind::Range => f.write_str("range"),
            Kind::Text => f.write_str("text"),
            Kind::SiteMismatch => f.write_str("site mismatch"),
            Kind::DoubleLink => f.write_str("double link"),
            Kind::Orphan => f.write_str("orphan"),
            Kind::Flag => f.write_str("flag"),
        }
    }
}

/// Why bytes gave no profile: the first rule that they break and its place, or want of memory.
#[derive(Clone, Copy, Debug, PartialEq, Eq)]
pub enum DecodeFault {
    Damage { at: u64, kind: Kind },
    NoMemory,
}

impl fmt::Display for DecodeFault {
    fn fmt<W: fmt::Write>(&self, f: &mut fmt::Formatter<W>) -> fmt::Result {
        match self {
            DecodeFault::Damage { at, kind } => write!(f, "damaged at {at}: {kind}"),
            DecodeFault::NoMemory => write!(f, "want of memory"),
        }
    }
}

impl Error for DecodeFault {}

impl From<NoMemory> for DecodeFault {
    ghost from_gives = { λ _ fault. fault ≡ out_of_memory };

    fn from(_: NoMemory) -> DecodeFault {
        DecodeFault::NoMemory
    }
}

impl From<AllocError> for DecodeFault {
    ghost from_gives = { λ _ fault. fault ≡ out_of_memory };

    fn from(_: AllocError) -> DecodeFault {
        DecodeFault::NoMemory
    }
}

impl<T: Drop> From<AllocFailed<T>> for DecodeFault {
    ghost from_gives = { λ _ fault. fault ≡ out_of_memory };

    fn from(_: AllocFailed<T>) -> DecodeFault {
        DecodeFault::NoMemory
    }
}
