// The sums of some links.
ghost use Rattle.std.specs.Prelude.{◌≡◌, ◌<◌, ◌≤◌, ◌+◌, ◌^◌, ◌∷◌, [], Some, None, ℕ, All, IfOk, IfSome, length, map, slice_index_or};
ghost use Rattle.md_base.specs.declared.measure.Measure.{Measure};
ghost use Rattle.md_trace.specs.Context.{same_option};
ghost use Rattle.md_clique.specs.Places.{places};
ghost use Rattle.md_dynamic.specs.declared.link.LinkRow.{LinkRow};
ghost use Rattle.md_cost.specs.FileView.{IsFileView};
ghost use Rattle.md_cost.specs.SumOf.{sum_of};
ghost use Rattle.md_cost.specs.View.{View, OfLink};
ghost use Rattle.md_people.specs.Callers.{sum_some};
ghost use Rattle.md_people.specs.Gathered.{HasSmallTotal, IsWithin, gathered_of, slot_by, with_link};

use crate::called::callee_slot;
use crate::callee::total_of;
use crate::caller::caller_slot;
use md_base::{CsdId, Measure, NoMemory, ProcId, SiteId};
use md_cost::{Loaded, Sums};
use std::alloc::Global;

/// The sum of the totals of those of some links that have one, and the sums of their own counts.
#[derive(Clone, Copy)]
pub(crate) struct Gathered {
    pub total: Option<u128>,
    pub own: Sums,
}

/// Which links are added up, and to which slot each of them belongs.
#[derive(Clone, Copy)]
pub(crate) enum Slots {
    /// Those that lead to contexts of a procedure: the site of each, or the number past the last site for the root link.
    Callers(ProcId),
    /// Those at sites: the site of each.
    Sites,
    /// Those at a site: the procedure to which each leads.
    Callees(SiteId),
}

/// The sums of the links of each slot, where there are any. All links are looked at once.
pub(crate) fn gathered_by(
    alloc: Global,
    loaded: &Loaded,
    by: Measure,
    slots: &Slots,
    count: usize,
) -> Result<Vec<Option<Gathered>>, NoMemory>
    requires { All (λ s. IfSome s (λ k. k < count)) (map (slot_by slots.now loaded.now.profile) loaded.now.profile.links) }
    ensures each { IfOk result (λ found. length found.items ≡ count) }
    ensures sums { IfOk result (λ found. (v : View) (k : ℕ) → IsFileView loaded.now.profile v → k < count → slice_index_or found.items k None ≡ gathered_of v by (places (same_option (Some k)) (map (slot_by slots.now loaded.now.profile) loaded.now.profile.links))) }
    ensures small { IfOk result (λ found. (k : ℕ) → IfSome (slice_index_or found.items k None) HasSmallTotal) }
{
    let links = loaded.profile().links().len();
    let mut found = vec![in alloc; None; count]?;
    for link in 0..links {
        let id = CsdId::new(link as u32);
        if let Some(slot) = slot_of(loaded, slots, id) {
            let sum = with_link(loaded, by, found[slot as usize], id);
            found[slot as usize] = Some(sum);
        }
    }
    Ok(found)
}

/// The slot of a link, if it is one of those that are added up.
fn slot_of(loaded: &Loaded, slots: &Slots, link: CsdId) -> Option<u32>
    requires there { link < length loaded.now.profile.links }
    ensures { (row : LinkRow) → row ≡ slice_index_or loaded.now.profile.links link row → result ≡ slot_by slots.now loaded.now.profile row }
{
    match slots {
        Slots::Callers(id) => caller_slot(loaded, *id, link),
        Slots::Sites => site_of(loaded, link),
        Slots::Callees(site) => callee_slot(loaded, *site, link),
    }
}

/// The site of a link, if it has one.
fn site_of(loaded: &Loaded, link: CsdId) -> Option<u32>
    requires there { link < length loaded.now.profile.links }
    ensures { (row : LinkRow) → row ≡ slice_index_or loaded.now.profile.links link row → result ≡ row.site }
{
    match loaded.profile().links()[link.number() as usize].site {
        Some(site) => Some(site.number()),
        None => None,
    }
}

/// The sums of one link more.
fn with_link(loaded: &Loaded, by: Measure, sum: Option<Gathered>, link: CsdId) -> Gathered
    requires there { link < length loaded.now.profile.links }
    requires few { length loaded.now.profile.links < 2 ^ 32 }
    requires within { IfSome sum (IsWithin link) }
    ensures sums { (v : View) → IsFileView loaded.now.profile v → result ≡ with_link v by sum link }
    ensures within { IsWithin (link + 1) result }
{
    let total = total_of(loaded, by, link);
    let own = own_of(loaded, link);
    match sum {
        Some(sum) => Gathered {
            total: both(sum.total, total),
            own: sum.own.plus(own),
        },
        None => Gathered { total, own },
    }
}

/// The own counts of a link.
fn own_of(loaded: &Loaded, link: CsdId) -> Sums
    requires there { link < length loaded.now.profile.links }
    ensures own { (v : View) (m : Measure) → IsFileView loaded.now.profile v → v.own (OfLink link) m ≡ Some (sum_of result m) }
    ensures small { (m : Measure) → sum_of result m < 2 ^ 32 }
{
    Sums::from_counts(loaded.profile().links()[link.number() as usize].own)
}

/// The sum of two totals, where they are there.
fn both(sum: Option<u128>, more: Option<u128>) -> Option<u128>
    requires sum { IfSome sum (λ n. n < 2 ^ 100) }
    requires more { IfSome more (λ n. n < 2 ^ 64) }
    ensures { result ≡ sum_some (sum ∷ more ∷ []) }
{
    match sum {
        Some(sum) => match more {
            Some(more) => Some(sum + more),
            None => Some(sum),
        },
        None => more,
    }
}
