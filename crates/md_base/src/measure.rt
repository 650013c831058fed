// What a profile counts.
ghost use Rattle.std.specs.Prelude.{◌≡◌};

/// What a profile counts: the four ports of the box model, allocations, the words allocated, and the port by which an
/// exception leaves an activation.
#[derive(Clone, Copy, Debug, PartialEq, Eq, PartialOrd, Ord, Hash)]
pub enum Measure {
    Calls,
    Exits,
    Fails,
    Redos,
    Allocs,
    Words,
    Excps,
}

/// One number for each measure, in the order in which they are always written.
#[derive(Clone, Copy, Debug, Default, PartialEq, Eq, Hash)]
pub struct Counts {
    pub calls: u32,
    pub exits: u32,
    pub fails: u32,
    pub redos: u32,
    pub allocs: u32,
    pub words: u32,
    pub excps: u32,
}

impl Counts {
    ghost use Rattle.md_base.specs.Counts.{count_of, with_more};

    /// The count of one measure.
    pub fn of(&self, measure: Measure) -> u32
        ensures { result ≡ count_of self.now measure }
    {
        match measure {
            Measure::Calls => self.calls,
            Measure::Exits => self.exits,
            Measure::Fails => self.fails,
            Measure::Redos => self.redos,
            Measure::Allocs => self.allocs,
            Measure::Words => self.words,
            Measure::Excps => self.excps,
        }
    }

    /// Adds to the count of one measure, which stands still at 4,294,967,295.
    pub fn add(&mut self, measure: Measure, by: u32)
        ensures { self.new ≡ with_more self.old measure by }
    {
        match measure {
            Measure::Calls => self.calls = self.calls.saturating_add(by),
            Measure::Exits => self.exits = self.exits.saturating_add(by),
            Measure::Fails => self.fails = self.fails.saturating_add(by),
            Measure::Redos => self.redos = self.redos.saturating_add(by),
            Measure::Allocs => self.allocs = self.allocs.saturating_add(by),
            Measure::Words => self.words = self.words.saturating_add(by),
            Measure::Excps => self.excps = self.excps.saturating_add(by),
        }
    }
}
