// Procedures in the order of their counts.
ghost use Rattle.std.specs.Prelude.{◌≡◌, ◌<◌, All, IfOk, length, map};
ghost use Rattle.std.specs.List.{range_with_len};
ghost use Rattle.md_cost.specs.FileView.{IsFileView};
ghost use Rattle.md_cost.specs.View.{View};
ghost use Rattle.md_people.specs.Hot.{sort_count};
ghost use Rattle.md_people.specs.Ranked.{ranked};

use crate::sort::Sort;
use md_base::{Measure, NoMemory, ProcId};
use md_cost::Loaded;
use std::alloc::Global;
use std::cmp::Reverse;

/// The procedures by their totals or own counts of a measure: the greatest comes first, and of equal ones the lower number.
pub fn ranked_procs(
    alloc: Global,
    loaded: &Loaded,
    by: Measure,
    sort: Sort,
) -> Result<Vec<u32>, NoMemory>
    ensures ranked { IfOk result (λ ids. (v : View) → IsFileView loaded.now.profile v → ids.items ≡ ranked (sort_count v by sort) (range_with_len 0 (length loaded.now.profile.statics.procs))) }
{
    let mut counted = counted_procs(alloc, loaded, by, sort)?;
    counted.sort_unstable();
    let mut ids = Vec::new(alloc);
    for pair in &counted {
        ids.push(pair.1)?;
    }
    Ok(ids)
}

/// Each procedure with its number, before which a greater one stands.
fn counted_procs(
    alloc: Global,
    loaded: &Loaded,
    by: Measure,
    sort: Sort,
) -> Result<Vec<(Reverse<u64>, u32)>, NoMemory>
    ensures ids { IfOk result (λ counted. map (λ x. x.1) counted.items ≡ range_with_len 0 (length loaded.now.profile.statics.procs)) }
    ensures counts { IfOk result (λ counted. (v : View) → IsFileView loaded.now.profile v → All (λ x. x.0.0 ≡ sort_count v by sort x.1) counted.items) }
{
    let profile = loaded.profile();
    let mut counted = Vec::new(alloc);
    for id in 0..profile.statics().procs().len() as u32 {
        let count = sort_count(loaded, by, sort, ProcId::new(id));
        counted.push((Reverse(count), id))?;
    }
    Ok(counted)
}

fn sort_count(loaded: &Loaded, by: Measure, sort: Sort, id: ProcId) -> u64
    requires { id < length loaded.now.profile.statics.procs }
    ensures { (v : View) → IsFileView loaded.now.profile v → result ≡ sort_count v by sort id }
{
    match sort {
        Sort::Total => loaded.proc_total(id).of(by),
        Sort::Own => loaded.proc_own(id).of(by),
    }
}
