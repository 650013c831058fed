// Sums of counts.
use md_base::{Counts, Measure};

/// One sum for each measure, in the order in which they are always written.
#[derive(Clone, Copy, PartialEq, Eq)]
pub struct Sums {
    pub calls: u64,
    pub exits: u64,
    pub fails: u64,
    pub redos: u64,
    pub allocs: u64,
    pub words: u64,
    pub excps: u64,
}

impl Sums {
    ghost use Rattle.std.specs.Prelude.{◌≡◌, ◌+◌, ◌^◌, ◌<◌};
    ghost use Rattle.md_base.specs.declared.measure.Measure.{Measure};
    ghost use Rattle.md_base.specs.Counts.{count_of};
    ghost use Rattle.md_cost.specs.SumOf.{sum_of, zero_sums};

    /// No counts.
    pub const ZERO: Sums = Sums {
        calls: 0,
        exits: 0,
        fails: 0,
        redos: 0,
        allocs: 0,
        words: 0,
        excps: 0,
    };

    /// The counts as sums.
    pub fn from_counts(counts: Counts) -> Sums
        ensures value { (m : Measure) → sum_of result m ≡ count_of counts m }
        ensures small { (m : Measure) → sum_of result m < 2 ^ 32 }
    {
        Sums {
            calls: counts.calls as u64,
            exits: counts.exits as u64,
            fails: counts.fails as u64,
            redos: counts.redos as u64,
            allocs: counts.allocs as u64,
            words: counts.words as u64,
            excps: counts.excps as u64,
        }
    }

    /// The sum of one measure.
    pub fn of(&self, measure: Measure) -> u64
        ensures { result ≡ sum_of self.now measure }
    {
        match measure {
            Measure::Calls => self.calls,
            Measure::Exits => self.exits,
            Measure::Fails => self.fails,
            Measure::Redos => self.redos,
            Measure::Allocs => self.allocs,
            Measure::Words => self.words,
            Measure::Excps => self.excps,
        }
    }

    /// Both together.
    pub fn plus(self, more: Sums) -> Sums
        requires { (m : Measure) → sum_of self m + sum_of more m < 2 ^ 64 }
        ensures { (m : Measure) → sum_of result m ≡ sum_of self m + sum_of more m }
    {
        Sums {
            calls: self.calls + more.calls,
            exits: self.exits + more.exits,
            fails: self.fails + more.fails,
            redos: self.redos + more.redos,
            allocs: self.allocs + more.allocs,
            words: self.words + more.words,
            excps: self.excps + more.excps,
        }
    }
}
