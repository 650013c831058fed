// What is known of a goal before it is laid out.
ghost use Rattle.std.specs.Prelude.{◌≡◌, ◌+◌, ◌||◌, IfOk};
ghost use Rattle.md_code.specs.Facts.{no_fact, both_facts, then_change, kept_with, charged_with, pending_behind};
ghost use Rattle.md_code.specs.Facts as facts;

use crate::number::plus;
use md_base::NoMemory;

/// How what is pending changes at a goal: what was pending before is so behind it, with a weight more; or it is charged there,
/// and a weight is pending.
#[derive(Clone, Copy)]
pub struct Change {
    pub keeps: bool,
    pub weight: u32,
}

impl Change {
    /// Of a goal that is charged later.
    pub const ONE: Change = Change {
        keeps: true,
        weight: 1,
    };

    /// Of a goal that is charged at once, with what was pending.
    pub const CHARGED: Change = Change {
        keeps: false,
        weight: 0,
    };

    /// What is pending behind the goal, where so much is before it.
    pub fn pending_behind(self, before: u32) -> Result<u32, NoMemory>
        ensures { IfOk result (λ behind. behind ≡ facts.pending_behind self before) }
    {
        if self.keeps {
            plus(before, self.weight)
        } else {
            Ok(self.weight)
        }
    }

    /// This one and then another.
    pub fn then(self, next: Change) -> Result<Change, NoMemory>
        ensures { IfOk result (λ change. change ≡ then_change self next) }
    {
        if !next.keeps {
            return Ok(next);
        }
        let weight = plus(self.weight, next.weight)?;
        Ok(Change {
            keeps: self.keeps,
            weight,
        })
    }
}

/// Whether a goal may leave a choice, how many heights it keeps, how many call sites it has, and how what is pending changes
/// at it.
#[derive(Clone, Copy)]
pub struct Fact {
    pub leaves: bool,
    pub heights: u32,
    pub sites: u32,
    pub change: Change,
}

impl Fact {
    /// Of nothing.
    pub const NOTHING: Fact = Fact {
        leaves: false,
        heights: 0,
        sites: 0,
        change: Change {
            keeps: true,
            weight: 0,
        },
    };

    /// Of one thing and then another.
    pub fn and(self, other: Fact) -> Result<Fact, NoMemory>
        ensures { IfOk result (λ both. both ≡ both_facts self other) }
    {
        let heights = plus(self.heights, other.heights)?;
        let sites = plus(self.sites, other.sites)?;
        let change = self.change.then(other.change)?;
        Ok(Fact {
            leaves: self.leaves || other.leaves,
            heights,
            sites,
            change,
        })
    }
}
