// What procedures cost, by their full names.
ghost use Rattle.std.specs.Prelude.{◌≡◌, IfOk};
ghost use Rattle.md_cost.specs.FileView.{IsFileView};
ghost use Rattle.md_cost.specs.View.{View};
ghost use Rattle.md_compare.specs.Named.{AreCostsOf, cost_at};

use crate::cost::{Cost, cost_of};
use md_base::{Measure, NoMemory, ProcId};
use md_cost::Loaded;
use md_people::full_name;
use std::alloc::Global;
use std::collections::BTreeMap;

/// What each procedure costs, by its full name. Of one name the first procedure counts, which is put there last.
pub(crate) fn costs_by_name(
    alloc: Global,
    loaded: &Loaded,
    by: Measure,
) -> Result<BTreeMap<Vec<u8>, Cost>, NoMemory>
    ensures { IfOk result (λ costs. (v : View) → IsFileView loaded.now.profile v → AreCostsOf v by costs) }
{
    let statics = loaded.profile().statics();
    let mut costs = BTreeMap::new(alloc);
    for id in (0..statics.procs().len() as u32).rev() {
        let name = full_name(alloc, statics, id)?;
        costs.insert(name, cost_of(loaded, by, ProcId::new(id)))?;
    }
    Ok(costs)
}

/// What is kept under a name.
pub(crate) fn cost_at(costs: &BTreeMap<Vec<u8>, Cost>, name: &[u8]) -> Option<Cost>
    ensures { result ≡ cost_at costs.now name.now }
{
    costs.get(name).copied()
}
