// Where the call sites of each procedure stand.
ghost use Rattle.std.specs.Prelude.{ℕ, ◌≡◌, ◌<◌, ◌^◌, length, All, IfOk, Some, slice_get};
ghost use Rattle.md_static.specs.Sites.{sites_of};
ghost use Rattle.md_dynamic.specs.Spans.{AreSpans};

use md_base::NoMemory;
use md_static::Site;
use std::alloc::Global;

/// The call sites of one procedure, which stand together: the first of them, and how many there are.
#[derive(Clone, Copy)]
pub struct Span {
    pub first: u32,
    pub count: u32,
}

/// Where the call sites of each procedure stand.
pub(crate) fn spans_of(alloc: Global, procs: usize, sites: &[Site]) -> Result<Vec<Span>, NoMemory>
    requires owners { All (λ x. x.owner < procs) sites.now }
    requires few { length sites.now < 2 ^ 32 }
    ensures { IfOk result (λ spans. AreSpans sites.now procs spans.items) }
{
    let counts = counts_of(alloc, procs, sites)?;
    let mut spans = Vec::with_capacity(alloc, procs)?;
    let mut first = 0u32;
    for count in &counts {
        spans.push(Span {
            first,
            count: *count,
        })?;
        first += *count;
    }
    Ok(spans)
}

/// How many call sites each procedure has.
fn counts_of(alloc: Global, procs: usize, sites: &[Site]) -> Result<Vec<u32>, NoMemory>
    requires owners { All (λ x. x.owner < procs) sites.now }
    requires few { length sites.now < 2 ^ 32 }
    ensures each { IfOk result (λ counts. length counts.items ≡ procs) }
    ensures right { IfOk result (λ counts. (p : ℕ) → p < procs → slice_get counts.items p ≡ Some (length (sites_of p sites.now))) }
{
    let mut counts = vec![in alloc; 0u32; procs]?;
    for site in sites {
        counts[site.owner.number() as usize] += 1;
    }
    Ok(counts)
}
