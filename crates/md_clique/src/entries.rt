// The links that enter cliques.
ghost use Rattle.std.specs.Prelude.{◌≡◌, ◌<◌, ◌^◌, All, IfOk, IfErr, IfSome, length};
ghost use Rattle.md_trace.specs.Cliques.{AreCliques};
ghost use Rattle.md_clique.specs.Entries.{AreEntries, AreReached, MayFault, edges_of, is_outside};
ghost use Rattle.md_clique.specs.Found.{is_lower};

use crate::clique::Cliques;
use md_base::NoMemory;
use std::alloc::{AllocError, Global};
use std::fmt;

/// Why the entering links of the cliques were not found.
#[derive(Clone, Copy, Debug, PartialEq, Eq)]
pub enum EnterFault {
    /// The links at the places `a` and `b` both enter the clique.
    TwoEntries { clique: u32, a: u32, b: u32 },
    NoMemory,
}

impl fmt::Display for EnterFault {
    fn fmt<W: fmt::Write>(&self, f: &mut fmt::Formatter<W>) -> fmt::Result {
        match self {
            EnterFault::TwoEntries { clique, a, b } => {
                write!(f, "clique {clique} is entered by links {a} and {b}")
            }
            EnterFault::NoMemory => write!(f, "want of memory"),
        }
    }
}

impl From<NoMemory> for EnterFault {
    ghost use Rattle.std.specs.Prelude.{◌≡◌};
    ghost use Rattle.md_clique.specs.declared.entries.EnterFault.TheVariants as faults;

    ghost from_gives = { λ _ e. e ≡ faults.NoMemory };

    fn from(_: NoMemory) -> EnterFault {
        EnterFault::NoMemory
    }
}

impl From<AllocError> for EnterFault {
    ghost use Rattle.std.specs.Prelude.{◌≡◌};
    ghost use Rattle.md_clique.specs.declared.entries.EnterFault.TheVariants as faults;

    ghost from_gives = { λ _ e. e ≡ faults.NoMemory };

    fn from(_: AllocError) -> EnterFault {
        EnterFault::NoMemory
    }
}

/// For each clique the place of the one link that enters it. A link is given as the node where it starts, if any, and
/// the one where it ends; it enters the clique of its end where it starts in another clique or nowhere.
///
/// The answer is `TwoEntries` exactly where some clique is entered by two links. It names the lowest such clique and
/// the first two links that enter it.
pub fn entering(
    alloc: Global,
    cliques: &Cliques,
    links: &[(Option<u32>, u32)],
) -> Result<Vec<u32>, EnterFault>
    requires cliques { AreCliques (length cliques.now) (edges_of links.now) cliques.now }
    requires ends { All (λ link. (link.1 < length cliques.now) × IfSome link.0 (λ from. from < length cliques.now)) links.now }
    requires reached { AreReached links.now (length cliques.now) }
    requires few { length links.now < 2 ^ 32 }
    ensures one { IfOk result (λ found. AreEntries cliques.now links.now found.items) }
    ensures two { IfErr result (λ fault. MayFault cliques.now links.now fault) }
{
    let mut found = Entrances::new(alloc, cliques)?;
    for (place, link) in links.iter().enumerate() {
        found.add(cliques, place as u32, link.0, link.1);
    }
    found.into_places()
}

/// A clique that is entered by two links, the first two of which stand at these places.
#[derive(Clone, Copy)]
pub struct Twice {
    pub clique: u32,
    pub a: u32,
    pub b: u32,
}

/// What is known of the links that enter cliques, after some links.
#[derive(Drop)]
pub struct Entrances {
    /// For each clique the place of the first link that enters it, or `NONE`.
    pub first: Vec<u32>,
    /// The lowest clique that is entered by two.
    pub twice: Option<Twice>,
}

/// The place of no link: there are no more than so many.
const NONE: u32 = 4_294_967_295;

impl Entrances {
    ghost use Rattle.std.specs.Prelude.{◌≡◌, ◌<◌, ◌+◌, ℕ, List, Option, Some, IfOk, IfErr, IfSome, length, slice_get};
    ghost use Rattle.md_trace.specs.Cliques.{AreCliques};
    ghost use Rattle.md_clique.specs.Cliques.{clique_count};
    ghost use Rattle.md_clique.specs.Entries.{AreEntries, AreReached, MayFault, edges_of};
    ghost use Rattle.md_clique.specs.Found.{AreFound};

    /// Before any link.
    pub fn new(alloc: Global, cliques: &Cliques) -> Result<Entrances, NoMemory>
        ensures each { IfOk result (λ found. length found.first.items ≡ clique_count cliques.now) }
        ensures none { (links : List (Option ℕ × ℕ)) → IfOk result (λ found. AreFound cliques.now links 0 found.first.items found.twice) }
    {
        Ok(Entrances {
            first: vec![in alloc; NONE; cliques.count() as usize]?,
            twice: None,
        })
    }

    /// Takes in the next link, which stands at this place: the node where it starts, if any, and the one where it ends.
    /// Takes no memory.
    pub fn add(&mut self, cliques: &Cliques, place: u32, start: Option<u32>, end: u32)
        requires place { place < 4294967295 }
        requires start { IfSome start (λ from. from < length cliques.now) }
        requires end { end < length cliques.now }
        requires each { length self.old.first.items ≡ clique_count cliques.now }
        ensures each { length self.new.first.items ≡ clique_count cliques.now }
        ensures found { (links : List (Option ℕ × ℕ)) → AreFound cliques.now links place self.old.first.items self.old.twice → slice_get links place ≡ Some (start, end) → AreFound cliques.now links (place + 1) self.new.first.items self.new.twice }
    {
        let clique = cliques.of(end);
        if starts_outside(cliques, clique, start) {
            let first = self.first[clique as usize];
            if first == NONE {
                self.first[clique as usize] = place;
            } else if is_lower(clique, self.twice) {
                self.twice = Some(Twice {
                    clique,
                    a: first,
                    b: place,
                });
            }
        }
    }

    /// The place of the one link that enters each clique, after all links. Takes no memory.
    pub fn into_places(self) -> Result<Vec<u32>, EnterFault>
        ensures one { (cliques : List ℕ) (links : List (Option ℕ × ℕ)) → AreFound cliques links (length links) self.first.items self.twice → AreCliques (length cliques) (edges_of links) cliques → AreReached links (length cliques) → IfOk result (λ found. AreEntries cliques links found.items) }
        ensures two { (cliques : List ℕ) (links : List (Option ℕ × ℕ)) → AreFound cliques links (length links) self.first.items self.twice → AreCliques (length cliques) (edges_of links) cliques → AreReached links (length cliques) → IfErr result (λ fault. MayFault cliques links fault) }
    {
        let Entrances { first, twice } = self;
        match twice {
            None => Ok(first),
            Some(Twice { clique, a, b }) => Err(EnterFault::TwoEntries { clique, a, b }),
        }
    }
}

/// Whether a clique is lower than the one that is known to be entered twice, if there is one.
fn is_lower(clique: u32, twice: Option<Twice>) -> bool
    ensures { result ≡ is_lower clique twice }
{
    match twice {
        None => true,
        Some(twice) => clique < twice.clique,
    }
}

/// Whether a link with this start comes from outside the clique.
fn starts_outside(cliques: &Cliques, clique: u32, start: Option<u32>) -> bool
    requires { IfSome start (λ from. from < length cliques.now) }
    ensures { result ≡ is_outside cliques.now clique start }
{
    match start {
        None => true,
        Some(from) => cliques.of(from) != clique,
    }
}
