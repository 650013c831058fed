// Totals: from the last clique up, each clique hands its total to where the link that enters it starts.
ghost use Rattle.std.specs.Prelude.{◌≡◌, ◌<◌, ◌^◌, ℕ, All, Some, length, slice_get, slice_index};
ghost use Rattle.md_base.specs.declared.measure.Measure.{Measure};
ghost use Rattle.md_clique.specs.Cliques.{clique_count};
ghost use Rattle.md_cost.specs.Climbing.{AreOwn, AreSmall, AreTotals, member_sum};
ghost use Rattle.md_dynamic.specs.declared.link.LinkRow.{LinkRow};
ghost use Rattle.md_cost.specs.Paths.{EntriesRise, start_of};
ghost use Rattle.md_cost.specs.SumOf.{sum_of};

use crate::Sums;
use md_clique::Cliques;
use md_dynamic::LinkRow;

/// Turns the own sums of contexts into their totals, each over the links whose path up has the context. `entries` has
/// the place of the link that enters each clique. Takes no memory.
#[inline(never)]
pub fn climb(cliques: &Cliques, entries: &[u32], links: &[LinkRow], sums: &mut [Sums])
    requires some { 0 < clique_count cliques.now }
    requires entries { length entries.now ≡ clique_count cliques.now }
    requires rise { EntriesRise cliques.now entries.now links.now }
    requires ends { All (λ link. link.callee < length cliques.now) links.now }
    requires few { length links.now < 2 ^ 32 }
    requires small { AreSmall links.now }
    requires own { AreOwn cliques.now links.now sums.old }
    ensures { AreTotals cliques.now entries.now links.now sums.new }
{
    for clique in (1..cliques.count()).rev() {
        let start = start_of_entry(entries, links, clique);
        let total = sum_of_members(cliques, sums, clique);
        let sum = sums[start as usize].plus(total);
        sums[start as usize] = sum;
    }
}

/// The sum over the contexts of a clique. Of their totals it is the clique's, since no path up has two of them.
pub fn sum_of_members(cliques: &Cliques, sums: &[Sums], clique: u32) -> Sums
    requires there { clique < clique_count cliques.now }
    requires each { length sums.now ≡ length cliques.now }
    requires room { (m : Measure) → member_sum cliques.now sums.now clique m < 2 ^ 64 }
    ensures { (m : Measure) → sum_of result m ≡ member_sum cliques.now sums.now clique m }
{
    let mut sum = Sums::ZERO;
    for member in cliques.members(clique) {
        sum = sum.plus(sums[*member as usize]);
    }
    sum
}

/// Where the link that enters a clique starts.
pub fn start_of_entry(entries: &[u32], links: &[LinkRow], clique: u32) -> u32
    requires there { clique < length entries.now }
    requires starts { (row : LinkRow) × (start : ℕ) × (slice_get links.now (slice_index entries.now clique) ≡ Some row) × (row.caller ≡ Some start) }
    ensures { result ≡ start_of links.now entries.now clique }
{
    links[entries[clique as usize] as usize]
        .caller
        .unwrap()
        .number()
}
