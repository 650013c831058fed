// The numbers that name things. Each kind is a type of its own, which contracts see as a number.
ghost use Rattle.std.specs.Prelude.{ℕ, ◌≡◌};

use std::alloc::{AllocError, AllocFailed};
use std::fmt;
use std::marker::Model;

/// Memory was refused.
#[derive(Clone, Copy, Debug, PartialEq, Eq, PartialOrd, Ord, Hash)]
pub struct NoMemory;

impl fmt::Display for NoMemory {
    fn fmt<W: fmt::Write>(&self, f: &mut fmt::Formatter<W>) -> fmt::Result {
        write!(f, "want of memory")
    }
}

impl From<AllocError> for NoMemory {
    fn from(_: AllocError) -> NoMemory {
        NoMemory
    }
}

impl<T: Drop> From<AllocFailed<T>> for NoMemory {
    fn from(_: AllocFailed<T>) -> NoMemory {
        NoMemory
    }
}

/// A procedure: the place of a predicate among the predicates of a program, from 0 in text order.
#[derive(Clone, Copy, Debug, PartialEq, Eq, PartialOrd, Ord, Hash)]
pub struct ProcId(u32);

impl Model for ProcId {
    ghost Value = { ℕ };

    ghost view = { λ id. id.0 };

    ghost inverse = { λ n. record { 0 = n } };
}

impl ProcId {
    /// The procedure of this number.
    pub const fn new(number: u32) -> ProcId
        ensures { result ≡ number }
    {
        ProcId(number)
    }

    /// The procedure's number.
    pub const fn number(self) -> u32
        ensures { result ≡ self }
    {
        self.0
    }
}

/// A call site, plain or higher-order: its place among the call sites of a program, from 0 in text order.
#[derive(Clone, Copy, Debug, PartialEq, Eq, PartialOrd, Ord, Hash)]
pub struct SiteId(u32);

impl Model for SiteId {
    ghost Value = { ℕ };

    ghost view = { λ id. id.0 };

    ghost inverse = { λ n. record { 0 = n } };
}

impl SiteId {
    /// The site of this number.
    pub const fn new(number: u32) -> SiteId
        ensures { result ≡ number }
    {
        SiteId(number)
    }

    /// The site's number.
    pub const fn number(self) -> u32
        ensures { result ≡ self }
    {
        self.0
    }
}

/// A context (a ProcDynamic of Conway and Somogyi 2001), from 0 in the order in which contexts are made.
#[derive(Clone, Copy, Debug, PartialEq, Eq, PartialOrd, Ord, Hash)]
pub struct PdId(u32);

impl Model for PdId {
    ghost Value = { ℕ };

    ghost view = { λ id. id.0 };

    ghost inverse = { λ n. record { 0 = n } };
}

impl PdId {
    /// The context of this number.
    pub const fn new(number: u32) -> PdId
        ensures { result ≡ number }
    {
        PdId(number)
    }

    /// The context's number.
    pub const fn number(self) -> u32
        ensures { result ≡ self }
    {
        self.0
    }
}

/// A link between contexts (a CallSiteDynamic of Conway and Somogyi 2001), from 0 in the order of first calls.
#[derive(Clone, Copy, Debug, PartialEq, Eq, PartialOrd, Ord, Hash)]
pub struct CsdId(u32);

impl Model for CsdId {
    ghost Value = { ℕ };

    ghost view = { λ id. id.0 };

    ghost inverse = { λ n. record { 0 = n } };
}

impl CsdId {
    /// The link of this number.
    pub const fn new(number: u32) -> CsdId
        ensures { result ≡ number }
    {
        CsdId(number)
    }

    /// The link's number.
    pub const fn number(self) -> u32
        ensures { result ≡ self }
    {
        self.0
    }
}
