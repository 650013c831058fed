// Why no more is found of a case.
use md_base::NoMemory;
use md_det::DetFault;
use md_modes::ModeFault;
use md_reader::Refused;
use std::alloc::{AllocError, AllocFailed};
use std::fmt;

/// Why no more is found: the text is refused, the program has a fault, or the case is not written as it has to be.
#[derive(Clone, Copy)]
pub enum Fault {
    Refused(Refused),
    Modes(ModeFault),
    Determinism(DetFault),
    NoMemory(NoMemory),
    /// A word of the case that names nothing.
    Unknown,
}

/// The fault, its line and its words.
impl fmt::Display for Fault {
    fn fmt<W: fmt::Write>(&self, f: &mut fmt::Formatter<W>) -> fmt::Result {
        match self {
            Fault::Refused(fault) => {
                let line = fault.line();
                write!(f, "{fault:?}, {line:?}: {fault}")
            }
            Fault::Modes(fault) => {
                let line = fault.line();
                write!(f, "{fault:?}, {line:?}: {fault}")
            }
            Fault::Determinism(fault) => {
                let line = fault.line();
                write!(f, "{fault:?}, {line:?}: {fault}")
            }
            Fault::NoMemory(fault) => write!(f, "{fault}"),
            Fault::Unknown => write!(f, "a word of the case is unknown"),
        }
    }
}

impl From<Refused> for Fault {
    fn from(fault: Refused) -> Fault {
        Fault::Refused(fault)
    }
}

impl From<ModeFault> for Fault {
    fn from(fault: ModeFault) -> Fault {
        Fault::Modes(fault)
    }
}

impl From<DetFault> for Fault {
    fn from(fault: DetFault) -> Fault {
        Fault::Determinism(fault)
    }
}

impl From<NoMemory> for Fault {
    fn from(fault: NoMemory) -> Fault {
        Fault::NoMemory(fault)
    }
}

impl From<AllocError> for Fault {
    fn from(_: AllocError) -> Fault {
        Fault::NoMemory(NoMemory)
    }
}

impl<T: Drop> From<AllocFailed<T>> for Fault {
    fn from(_: AllocFailed<T>) -> Fault {
        Fault::NoMemory(NoMemory)
    }
}
