// Why a text is refused.
ghost use Rattle.std.specs.Prelude.{◌≡◌, Some};
ghost use Rattle.md_reader.specs.Words.{refused_words, refused_line};

use md_base::NoMemory;
use std::alloc::{AllocError, AllocFailed};
use std::fmt;

/// Where a token stands: its line, and how many tokens there are from it on.
#[derive(Clone, Copy, Debug, PartialEq, Eq)]
pub(crate) struct Place {
    pub line: u32,
    pub left: usize,
}

/// Why the rules refuse a token.
#[derive(Clone, Copy, Debug, PartialEq, Eq)]
pub(crate) enum Refusal {
    Syntax(Place),
    Limit(Place),
    /// Memory was refused.
    NoMemory,
}

impl From<NoMemory> for Refusal {
    ghost use Rattle.md_reader.specs.declared.refused.Refusal.TheVariants as refusal;

    ghost from_gives = { λ _ e. e ≡ refusal.NoMemory };

    fn from(_: NoMemory) -> Refusal {
        Refusal::NoMemory
    }
}

impl From<AllocError> for Refusal {
    ghost use Rattle.md_reader.specs.declared.refused.Refusal.TheVariants as refusal;

    ghost from_gives = { λ _ e. e ≡ refusal.NoMemory };

    fn from(_: AllocError) -> Refusal {
        Refusal::NoMemory
    }
}

impl<T: Drop> From<AllocFailed<T>> for Refusal {
    ghost use Rattle.md_reader.specs.declared.refused.Refusal.TheVariants as refusal;

    ghost from_gives = { λ _ e. e ≡ refusal.NoMemory };

    fn from(_: AllocFailed<T>) -> Refusal {
        Refusal::NoMemory
    }
}

/// Why a text is refused, with the line of what is at fault.
#[derive(Clone, Copy, Debug, PartialEq, Eq)]
pub enum Refused {
    /// The first token at fault begins no program of the grammar with those before it.
    Syntax(u32),
    /// The first token at fault is beyond a limit.
    Limit(u32),
    /// The first second declaration of a type, of a functor with its arity, or of a predicate.
    Duplicate(u32),
    /// Memory was refused, and nothing else.
    NoMemory,
}

impl Refused {
    /// The line of what is at fault, or `None` exactly where memory was refused.
    pub fn line(self) -> Option<u32>
        ensures { result ≡ refused_line self }
    {
        match self {
            Refused::Syntax(line) => Some(line),
            Refused::Limit(line) => Some(line),
            Refused::Duplicate(line) => Some(line),
            Refused::NoMemory => None,
        }
    }
}

impl fmt::Display for Refused {
    ghost output = { λ refused. Some (refused_words refused) };

    fn fmt<W: fmt::Write>(&self, f: &mut fmt::Formatter<W>) -> fmt::Result {
        match self {
            Refused::Syntax(_) => f.write_str("syntax"),
            Refused::Limit(_) => f.write_str("limit"),
            Refused::Duplicate(_) => f.write_str("duplicate"),
            Refused::NoMemory => f.write_str("want of memory"),
        }
    }
}

impl From<NoMemory> for Refused {
    ghost use Rattle.md_reader.specs.declared.refused.Refused.TheVariants as refused;

    ghost from_gives = { λ _ e. e ≡ refused.NoMemory };

    fn from(_: NoMemory) -> Refused {
        Refused::NoMemory
    }
}
