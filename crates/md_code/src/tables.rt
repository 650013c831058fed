// What is looked up while a program is laid out.
ghost use Rattle.std.specs.Prelude.{◌≡◌, length};
ghost use Rattle.md_hlds.specs.Hlds.{hlds_of, clause_goals};
ghost use Rattle.md_code.specs.Tables.{functors_of, literals_of};
ghost use Rattle.md_code.specs.Numbers.{AreNumbers, texts_of};
ghost use Rattle.md_code.specs.Facts.{facts_from, callees_from};

use crate::callee::Callee;
use crate::fact::Fact;
use crate::source::Source;
use indexmap::{IndexMap, IndexSet};
use md_names::FunctorKey;
use std::alloc::Global;

/// A program with the numbers of its functors and its literals, and what is known of its goals and procedures.
#[derive(Drop)]
pub struct Tables<'a> {
    pub alloc: Global,
    pub source: Source<'a>,
    pub functors: IndexMap<FunctorKey<'a>, u32>,
    pub functor_count: u32,
    pub literals: IndexSet<&'a [u8]>,
    pub facts: Vec<Fact>,
    pub callees: Vec<Callee>,
    pub ghost numbered: { AreNumbers functors (functors_of (hlds_of source.checked.now)) },
    pub ghost counted: { functor_count ≡ length (functors_of (hlds_of source.checked.now)) },
    pub ghost spelled: { texts_of literals.keys ≡ literals_of (hlds_of source.checked.now) },
    pub ghost surveyed: { facts.items ≡ facts_from (hlds_of source.checked.now) 0 (clause_goals (hlds_of source.checked.now).procedures) },
    pub ghost called: { callees.items ≡ callees_from 0 (hlds_of source.checked.now).procedures },
}
