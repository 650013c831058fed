// Pairs of calls, and the feedback that lists them.
ghost use Rattle.std.specs.Prelude.{◌≡◌, ◌↔◌, ◌++◌, [], ◌∷◌, length, IsTrue, OnOk, OnErr};
ghost use Rattle.md_feedback.specs.Text.{IsBefore, Rise};

use md_base::{Name, NoMemory, ProcId, SiteId};
use std::alloc::Global;
use std::marker::Model;

/// Two calls of one conjunction, the second behind the first and not depending on it, each of which takes long.
#[derive(Clone, Copy, Debug, PartialEq, Eq)]
pub struct Pair {
    /// The procedure in whose clause they stand.
    pub proc: ProcId,
    pub first: SiteId,
    pub second: SiteId,
    /// The total calls of the first site.
    pub a: u64,
    /// The total calls of the second site.
    pub b: u64,
}

/// A list of pairs, which contracts see as a list.
#[derive(Drop)]
pub struct Pairs {
    items: Vec<Pair>,
}

/// The pairs of a program's calls that could run side by side with profit.
#[derive(Drop)]
pub struct Feedback {
    /// The program's module.
    pub module: Name,
    /// A call takes long where its total calls are at least so many times its own.
    pub least: u64,
    pub pairs: Pairs,
}

impl Model for Pairs {
    ghost use Rattle.std.specs.Prelude.{List};
    ghost use Rattle.md_feedback.specs.declared.pairs.Pair.{Pair};

    ghost Value = { List Pair };

    ghost view = { λ pairs. pairs.items.items };
}

impl Pairs {
    /// No pairs. Takes no memory.
    pub fn new(alloc: Global) -> Pairs
        ensures { result ≡ [] }
    {
        Pairs {
            items: Vec::new(alloc),
        }
    }

    /// These pairs. Takes no memory.
    pub fn from_vec(items: Vec<Pair>) -> Pairs
        ensures { result ≡ items.items }
    {
        Pairs { items }
    }

    /// Adds a pair at the end.
    pub fn push(&mut self, pair: Pair) -> Result<(), NoMemory>
        ensures ok { OnOk result (self.new ≡ self.old ++ pair ∷ []) }
        ensures err { OnErr result (self.new ≡ self.old) }
    {
        self.items.push(pair)?;
        Ok(())
    }

    /// How many there are.
    pub fn len(&self) -> usize
        ensures { result ≡ length self.now }
    {
        self.items.len()
    }

    /// The pairs in order.
    pub fn as_slice(&self) -> &[Pair]
        ensures { result.now ≡ self.now }
    {
        self.items.as_slice()
    }

    /// The pairs as a vector. Takes no memory.
    pub fn into_vec(self) -> Vec<Pair>
        ensures { result.items ≡ self }
    {
        let Pairs { items } = self;
        items
    }

    /// Whether a pair may follow these, which rise.
    pub(crate) fn may_be_followed_by(&self, pair: &Pair) -> bool
        ensures { Rise self.now → IsTrue result ↔ Rise (self.now ++ pair.now ∷ []) }
    {
        match self.as_slice().last() {
            None => true,
            Some(last) => is_before(last, pair),
        }
    }
}

/// Whether a pair comes before another: by the first site, and then by the second.
fn is_before(pair: &Pair, other: &Pair) -> bool
    ensures { IsTrue result ↔ IsBefore pair.now other.now }
{
    pair.first < other.first || pair.first == other.first && pair.second < other.second
}
