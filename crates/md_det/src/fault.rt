// Why a program is refused by the determinism checks.
ghost use Rattle.std.specs.Prelude.{◌≡◌, Some};
ghost use Rattle.md_det.specs.Words.{det_fault_words, det_fault_line};

use md_base::NoMemory;
use md_hlds::Det;
use std::alloc::{AllocError, AllocFailed};
use std::fmt;

/// The first fault of a program, with the line of the declaration or of the goal that is at fault.
#[derive(Clone, Copy, Debug, PartialEq, Eq)]
pub enum DetFault {
    /// A predicate whose body may fail or succeed more often than its declaration says.
    Declared {
        line: u32,
        declared: Det,
        inferred: Det,
    },
    /// A condition that may have many solutions and binds a variable that occurs outside it.
    ManyInCondition(u32),
    /// An io state where a run may come back: in a predicate that isn't `det`, in an alternative, or after a goal with
    /// many solutions.
    IoInBacktracking(u32),
    NoMemory,
}

impl DetFault {
    /// The line of the declaration or of the goal that is at fault, or `None` exactly where memory was refused.
    pub fn line(self) -> Option<u32>
        ensures { result ≡ det_fault_line self }
    {
        match self {
            DetFault::Declared { line, .. } => Some(line),
            DetFault::ManyInCondition(line) => Some(line),
            DetFault::IoInBacktracking(line) => Some(line),
            DetFault::NoMemory => None,
        }
    }
}

impl fmt::Display for DetFault {
    ghost output = { λ fault. Some (det_fault_words fault) };

    fn fmt<W: fmt::Write>(&self, f: &mut fmt::Formatter<W>) -> fmt::Result {
        match self {
            DetFault::Declared {
                declared,
                inferred,
                ..
            } => write!(f, "declared {declared}, inferred {inferred}"),
            DetFault::ManyInCondition(_) => f.write_str("condition with many solutions binds"),
            DetFault::IoInBacktracking(_) => f.write_str("io in backtracking"),
            DetFault::NoMemory => f.write_str("want of memory"),
        }
    }
}

impl From<NoMemory> for DetFault {
    ghost use Rattle.md_det.specs.declared.fault.DetFault.TheVariants as fault;

    ghost from_gives = { λ _ e. e ≡ fault.NoMemory };

    fn from(_: NoMemory) -> DetFault {
        DetFault::NoMemory
    }
}

impl From<AllocError> for DetFault {
    ghost use Rattle.md_det.specs.declared.fault.DetFault.TheVariants as fault;

    ghost from_gives = { λ _ e. e ≡ fault.NoMemory };

    fn from(_: AllocError) -> DetFault {
        DetFault::NoMemory
    }
}

impl<T: Drop> From<AllocFailed<T>> for DetFault {
    ghost use Rattle.md_det.specs.declared.fault.DetFault.TheVariants as fault;

    ghost from_gives = { λ _ e. e ≡ fault.NoMemory };

    fn from(_: AllocFailed<T>) -> DetFault {
        DetFault::NoMemory
    }
}
