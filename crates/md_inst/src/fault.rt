// Why a program is refused by the mode checks.
ghost use Rattle.std.specs.Prelude.{◌≡◌, Some};
ghost use Rattle.md_inst.specs.Words.{mode_fault_words, mode_fault_line};

use md_base::NoMemory;
use std::alloc::{AllocError, AllocFailed};
use std::fmt;

/// The first fault of a program, with the line of the declaration, the goal or the clause that is at fault.
#[derive(Clone, Copy, Debug, PartialEq, Eq)]
pub enum ModeFault {
    /// A type, a functor or a predicate that isn't declared.
    UnknownName(u32),
    /// A name with a number of arguments that it doesn't have.
    Arity(u32),
    /// A variable of another type than its place asks for, or a declaration that pairs a type with a mode that isn't its own.
    TypeClash(u32),
    /// A variable that isn't bound where it has to be.
    Unbound(u32),
    /// A variable that is bound where it has to be bound anew.
    BoundTwice(u32),
    /// A variable that occurs outside a branch and is bound in some of its arms only, or by a condition, a negation or `some`.
    BranchBinds(u32),
    /// An io state that was used before, or that is used within a condition, a negation or `some`.
    IoUsed(u32),
    /// Two closures that are compared, or a closure for a variable that is bound.
    ClosureTest(u32),
    /// No predicate `main(io::di, io::uo) is det`.
    NoMain(u32),
    NoMemory,
}

impl ModeFault {
    /// The line of the declaration, the goal or the clause that is at fault, or `None` exactly where memory was refused.
    pub fn line(self) -> Option<u32>
        ensures { result ≡ mode_fault_line self }
    {
        match self {
            ModeFault::UnknownName(line) => Some(line),
            ModeFault::Arity(line) => Some(line),
            ModeFault::TypeClash(line) => Some(line),
            ModeFault::Unbound(line) => Some(line),
            ModeFault::BoundTwice(line) => Some(line),
            ModeFault::BranchBinds(line) => Some(line),
            ModeFault::IoUsed(line) => Some(line),
            ModeFault::ClosureTest(line) => Some(line),
            ModeFault::NoMain(line) => Some(line),
            ModeFault::NoMemory => None,
        }
    }

    /// What is wrong.
    fn words(&self) -> &'static str
        ensures { result.now ≡ mode_fault_words self.now }
    {
        match self {
            ModeFault::UnknownName(_) => "unknown name",
            ModeFault::Arity(_) => "wrong number of arguments",
            ModeFault::TypeClash(_) => "type clash",
            ModeFault::Unbound(_) => "unbound variable",
            ModeFault::BoundTwice(_) => "variable bound twice",
            ModeFault::BranchBinds(_) => "branches bind differently",
            ModeFault::IoUsed(_) => "io used",
            ModeFault::ClosureTest(_) => "closure compared",
            ModeFault::NoMain(_) => "no main",
            ModeFault::NoMemory => "want of memory",
        }
    }
}

impl fmt::Display for ModeFault {
    ghost output = { λ fault. Some (mode_fault_words fault) };

    fn fmt<W: fmt::Write>(&self, f: &mut fmt::Formatter<W>) -> fmt::Result {
        f.write_str(self.words())
    }
}

impl From<NoMemory> for ModeFault {
    ghost use Rattle.md_inst.specs.declared.fault.ModeFault.TheVariants as fault;

    ghost from_gives = { λ _ e. e ≡ fault.NoMemory };

    fn from(_: NoMemory) -> ModeFault {
        ModeFault::NoMemory
    }
}

impl From<AllocError> for ModeFault {
    ghost use Rattle.md_inst.specs.declared.fault.ModeFault.TheVariants as fault;

    ghost from_gives = { λ _ e. e ≡ fault.NoMemory };

    fn from(_: AllocError) -> ModeFault {
        ModeFault::NoMemory
    }
}

impl<T: Drop> From<AllocFailed<T>> for ModeFault {
    ghost use Rattle.md_inst.specs.declared.fault.ModeFault.TheVariants as fault;

    ghost from_gives = { λ _ e. e ≡ fault.NoMemory };

    fn from(_: AllocFailed<T>) -> ModeFault {
        ModeFault::NoMemory
    }
}
