// What a run leaves: contexts and links with their counts, beside the tables of the program.
ghost use Rattle.std.specs.Prelude.{◌≡◌};
ghost use Rattle.md_dynamic.specs.declared.profile.CheckFault.TheVariants.{NoMemory as out_of_memory};

use crate::check::are_valid;
use crate::link::LinkRow;
use md_base::{NoMemory, ProcId};
use md_static::Statics;
use std::error::Error;
use std::fmt;
use std::marker::Model;

/// Why a profile wasn't found valid.
#[derive(Clone, Copy, Debug, PartialEq, Eq)]
pub enum CheckFault {
    Broken,
    NoMemory,
}

impl fmt::Display for CheckFault {
    fn fmt<W: fmt::Write>(&self, f: &mut fmt::Formatter<W>) -> fmt::Result {
        match self {
            CheckFault::Broken => write!(f, "the profile breaks a rule"),
            CheckFault::NoMemory => write!(f, "want of memory"),
        }
    }
}

impl Error for CheckFault {}

impl From<NoMemory> for CheckFault {
    ghost from_gives = { λ _ fault. fault ≡ out_of_memory };

    fn from(_: NoMemory) -> CheckFault {
        CheckFault::NoMemory
    }
}

/// A profile: the program's tables, each context's procedure, the links, and whether the run was finished.
#[derive(Drop)]
pub struct Profile {
    statics: Statics,
    nodes: Vec<ProcId>,
    links: Vec<LinkRow>,
    finished: bool,
}

impl Model for Profile {
    ghost use Rattle.md_dynamic.specs.Profile.{ProfileRows};

    ghost Value = { ProfileRows };

    ghost view = { λ p. record { statics = p.statics; nodes = p.nodes.items; links = p.links.items; finished = p.finished } };
}

impl Profile {
    ghost use Rattle.std.specs.Prelude.{◌≡◌, OnOk, IsErrOf};
    ghost use Rattle.md_dynamic.specs.Valid.{IsValid};

    /// A profile of these parts. Takes no memory.
    pub fn from_parts(
        statics: Statics,
        nodes: Vec<ProcId>,
        links: Vec<LinkRow>,
        finished: bool,
    ) -> Profile
        ensures { result ≡ record { statics = statics; nodes = nodes.items; links = links.items; finished = finished } }
    {
        Profile {
            statics,
            nodes,
            links,
            finished,
        }
    }

    /// The program's tables.
    pub fn statics(&self) -> &Statics
        ensures { result.now ≡ self.now.statics }
    {
        &self.statics
    }

    /// The procedure of each context, by number.
    pub fn nodes(&self) -> &[ProcId]
        ensures { result.now ≡ self.now.nodes }
    {
        self.nodes.as_slice()
    }

    /// The links, by number.
    pub fn links(&self) -> &[LinkRow]
        ensures { result.now ≡ self.now.links }
    {
        self.links.as_slice()
    }

    /// Whether the run was finished.
    pub fn finished(&self) -> bool
        ensures { result ≡ self.now.finished }
    {
        self.finished
    }

    /// Ok exactly where the profile is valid.
    pub fn check(&self) -> Result<(), CheckFault>
        ensures valid { OnOk result (IsValid self.now) }
        ensures broken { IsErrOf result CheckFault.Broken → IsValid self.now → ⊥ }
    {
        if are_valid(
            *self.nodes.allocator(),
            &self.statics,
            &self.nodes,
            &self.links,
        )? {
            Ok(())
        } else {
            Err(CheckFault::Broken)
        }
    }
}
