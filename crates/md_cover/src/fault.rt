ghost use Rattle.std.specs.Prelude.{◌≡◌};
ghost use Rattle.md_cover.specs.declared.fault.CoverFault.TheVariants.{NoMemory as out_of_memory};

use md_base::NoMemory;
use std::error::Error;
use std::fmt;

/// Why a procedure's goals weren't counted.
#[derive(Clone, Copy, Debug, PartialEq, Eq)]
pub enum CoverFault {
    /// The program has no procedure of that number.
    NoSuchProc,
    NoMemory,
}

impl fmt::Display for CoverFault {
    fn fmt<W: fmt::Write>(&self, f: &mut fmt::Formatter<W>) -> fmt::Result {
        match self {
            CoverFault::NoSuchProc => write!(f, "no such procedure"),
            CoverFault::NoMemory => write!(f, "want of memory"),
        }
    }
}

impl Error for CoverFault {}

impl From<NoMemory> for CoverFault {
    ghost from_gives = { λ _ fault. fault ≡ out_of_memory };

    fn from(_: NoMemory) -> CoverFault {
        CoverFault::NoMemory
    }
}
