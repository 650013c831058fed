// Why a text gave no profile.
ghost use Rattle.std.specs.Prelude.{◌≡◌};
ghost use Rattle.md_dump.specs.declared.fault.DumpFault.TheVariants.{NoMemory as out_of_memory};

use md_base::NoMemory;
use std::alloc::{AllocError, AllocFailed};
use std::error::Error;
use std::fmt;

/// Why a text gave no profile: the first line at fault, from 1, or want of memory.
#[derive(Clone, Copy, Debug, PartialEq, Eq)]
pub enum DumpFault {
    Line(u32),
    NoMemory,
}

impl fmt::Display for DumpFault {
    fn fmt<W: fmt::Write>(&self, f: &mut fmt::Formatter<W>) -> fmt::Result {
        match self {
            DumpFault::Line(line) => write!(f, "damaged at line {line}"),
            DumpFault::NoMemory => write!(f, "want of memory"),
        }
    }
}

impl Error for DumpFault {}

impl From<NoMemory> for DumpFault {
    ghost from_gives = { λ _ fault. fault ≡ out_of_memory };

    fn from(_: NoMemory) -> DumpFault {
        DumpFault::NoMemory
    }
}

impl From<AllocError> for DumpFault {
    ghost from_gives = { λ _ fault. fault ≡ out_of_memory };

    fn from(_: AllocError) -> DumpFault {
        DumpFault::NoMemory
    }
}

impl<T: Drop> From<AllocFailed<T>> for DumpFault {
    ghost from_gives = { λ _ fault. fault ≡ out_of_memory };

    fn from(_: AllocFailed<T>) -> DumpFault {
        DumpFault::NoMemory
    }
}
