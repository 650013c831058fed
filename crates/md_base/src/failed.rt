// Why a call on the outside was refused.
ghost use Rattle.std.specs.Prelude.{◌≡◌};
ghost use Rattle.md_base.specs.declared.failed.Failed.TheVariants.{NoMemory as out_of_memory};

use crate::NoMemory;
use std::alloc::{AllocError, AllocFailed};
use std::error::Error;
use std::fmt;

/// Why a call on a store, a stream or the net was refused: the thing itself failed, or memory was refused.
#[derive(Clone, Copy, Debug, PartialEq, Eq)]
pub enum Failed {
    Device,
    NoMemory,
}

impl fmt::Display for Failed {
    fn fmt<W: fmt::Write>(&self, f: &mut fmt::Formatter<W>) -> fmt::Result {
        f.write_str(match self {
            Failed::Device => "a device failed",
            Failed::NoMemory => "want of memory",
        })
    }
}

impl Error for Failed {}

impl From<NoMemory> for Failed {
    ghost from_gives = { λ _ failed. failed ≡ out_of_memory };

    fn from(_: NoMemory) -> Failed {
        Failed::NoMemory
    }
}

impl From<AllocError> for Failed {
    ghost from_gives = { λ _ failed. failed ≡ out_of_memory };

    fn from(_: AllocError) -> Failed {
        Failed::NoMemory
    }
}

impl<T: Drop> From<AllocFailed<T>> for Failed {
    ghost from_gives = { λ _ failed. failed ≡ out_of_memory };

    fn from(_: AllocFailed<T>) -> Failed {
        Failed::NoMemory
    }
}
