// Look-ups by numbers and by names.
ghost use Rattle.std.specs.Prelude.{◌≡◌, ◌+◌, None, Some, slice_get, IfOk, MatchOption};
ghost use Rattle.md_hlds.specs.Hlds.{Procedure, hlds_of, body_number};
ghost use Rattle.md_hlds.specs.Trace.{call_weight};
ghost use Rattle.md_modes.specs.Classes.{size_at};
ghost use Rattle.md_code.specs.Leaves.{leaves_table};
ghost use Rattle.md_code.specs.Tables.{functor_number, literal_number};
ghost use Rattle.md_code.specs.Facts.{fact_at, callee};

use crate::callee::Callee;
use crate::fact::Fact;
use crate::number::{plus, small};
use crate::tables::Tables;
use md_base::NoMemory;
use md_names::FunctorKey;

impl<'a> Tables<'a> {
    /// What is known of the goal of this number.
    pub fn fact(&self, goal: u32) -> Fact
        ensures { result ≡ fact_at (hlds_of self.now.source.checked.now) goal }
    {
        match self.kept_fact(goal) {
            None => Fact::NOTHING,
            Some(fact) => *fact,
        }
    }

    fn kept_fact(&self, goal: u32) -> Option<&Fact>
        ensures { MatchOption result (slice_get self.now.facts.items goal ≡ None) (λ fact. slice_get self.now.facts.items goal ≡ Some fact.now) }
    {
        self.facts.get(goal as usize)
    }

    /// Whether the goal of this number may leave a choice.
    pub fn leaves(&self, goal: u32) -> bool
        ensures { result ≡ leaves_table (hlds_of self.now.source.checked.now) goal }
    {
        self.fact(goal).leaves
    }

    /// The number that comes after those of the goal of this number.
    pub fn after(&self, goal: u32) -> Result<u32, NoMemory>
        ensures { IfOk result (λ after. after ≡ goal + size_at (hlds_of self.now.source.checked.now) goal) }
    {
        plus(goal, small(self.source.checked.moded().size(goal))?)
    }

    /// The number of the functor of this name and arity.
    pub fn functor(&self, name: &[u8], arity: usize) -> u32
        ensures { result ≡ functor_number (hlds_of self.now.source.checked.now) name.now arity }
    {
        let key = FunctorKey { name, arity };
        match self.functors.get(&key) {
            None => self.functor_count,
            Some(number) => *number,
        }
    }

    /// The number of a literal.
    pub fn literal(&self, bytes: &[u8]) -> u64
        ensures { result ≡ literal_number (hlds_of self.now.source.checked.now) bytes.now }
    {
        match self.literals.get_index_of(bytes) {
            None => self.literals.len() as u64,
            Some(number) => number as u64,
        }
    }

    /// What a call of the procedure of this number weighs, and the number of its body.
    pub fn callee(&self, procedure: u32) -> Callee
        ensures { (p : Procedure) → slice_get (hlds_of self.now.source.checked.now).procedures procedure ≡ Some p
            → result ≡ callee (call_weight p) (body_number (hlds_of self.now.source.checked.now) procedure) }
    {
        match self.kept_callee(procedure) {
            None => Callee { weight: 0, body: 0 },
            Some(callee) => *callee,
        }
    }

    fn kept_callee(&self, procedure: u32) -> Option<&Callee>
        ensures { MatchOption result (slice_get self.now.callees.items procedure ≡ None) (λ callee. slice_get self.now.callees.items procedure ≡ Some callee.now) }
    {
        self.callees.get(procedure as usize)
    }
}
