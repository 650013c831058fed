// The call sites with many total calls.
ghost use Rattle.std.specs.Prelude.{◌≡◌, ◌↔◌, ◌*◌, ◌<◌, ◌≤◌, ◌^◌, length, All, IfOk, IfSome, IsTrue};
ghost use Rattle.md_cost.specs.FileView.{IsFileView};
ghost use Rattle.md_cost.specs.View.{View};
ghost use Rattle.md_feedback.specs.Search.{AreHeavy, TellsHeavy};

use md_base::{NoMemory, SiteId};
use md_cost::Loaded;
use std::alloc::Global;

/// For each call site its total calls, where its own calls are some and its total calls at least `least` times as many.
pub(crate) fn heavy_sites(
    alloc: Global,
    loaded: &Loaded,
    least: u64,
) -> Result<Vec<Option<u64>>, NoMemory>
    ensures heavy { IfOk result (λ heavy. (v : View) → IsFileView loaded.now.profile v → AreHeavy v least (length loaded.now.profile.statics.sites) heavy.items) }
    ensures few { length loaded.now.profile.statics.sites < 2 ^ 32 }
    ensures small { IfOk result (λ heavy. All (λ total. IfSome total (λ t. t < 2 ^ 64)) heavy.items) }
{
    let count = loaded.profile().statics().sites().len();
    let mut heavy = Vec::new(alloc);
    for site in 0..count {
        heavy.push(heavy_calls(loaded, SiteId::new(site as u32), least))?;
    }
    Ok(heavy)
}

/// The total calls of a site, where they are many.
fn heavy_calls(loaded: &Loaded, site: SiteId, least: u64) -> Option<u64>
    requires { site < length loaded.now.profile.statics.sites }
    ensures heavy { (v : View) → IsFileView loaded.now.profile v → TellsHeavy v least site result }
    ensures small { IfSome result (λ total. total < 2 ^ 64) }
{
    let own = loaded.site_own(site).calls;
    let total = loaded.site_total(site).calls;
    if own >= 1 && is_many(least, own, total) {
        Some(total)
    } else {
        None
    }
}

/// Whether the total is at least so many times the own calls.
fn is_many(least: u64, own: u64, total: u64) -> bool
    ensures { IsTrue result ↔ (least * own ≤ total) }
{
    match least.checked_mul(own) {
        Some(product) => product <= total,
        None => false,
    }
}
