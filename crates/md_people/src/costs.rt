// Tables of costs.
ghost use Rattle.std.specs.Prelude.{◌≡◌, ◌<◌, ◌^◌, ◌++◌, ◌∷◌, [], codes, decimal, length, OnOk};
ghost use Rattle.md_cost.specs.FileView.{IsFileView};
ghost use Rattle.md_cost.specs.SumOf.{sum_of};
ghost use Rattle.md_cost.specs.View.{View, OfProcedure, OfModule};
ghost use Rattle.md_people.specs.Costs.{calls_cell, costs_heading, costs_line, costs_of, counted_cells, is_calls};
ghost use Rattle.md_people.specs.Counts.{whole_of};
ghost use Rattle.md_table.specs.Table.{with_cells};

use md_base::{Measure, NoMemory, ProcId};
use md_cost::{Loaded, Sums};
use md_table::Lines;

/// The whole, of which shares are shares: the total of clique 0.
pub fn whole_of(loaded: &Loaded, by: Measure) -> u64
    ensures { (v : View) → IsFileView loaded.now.profile v → result ≡ whole_of v by }
{
    // it is valid and has a view, which `profile` says
    let _profile = loaded.profile();
    loaded.clique_total(0).of(by)
}

/// Adds the heading of a table of costs.
pub(crate) fn push_costs_heading(rows: &mut Lines, by: Measure, last: &[u8]) -> Result<(), NoMemory>
    ensures { OnOk result (rows.new.ended ≡ rows.old.ended ++ costs_heading by last.now ∷ []) }
{
    rows.begin();
    rows.add_words(b"total")?;
    rows.add_words(b"%")?;
    rows.add_words(b"own")?;
    rows.add_words(b"%")?;
    if !is_calls(by) {
        rows.add_words(b"calls")?;
    }
    rows.add_words(b"per call")?;
    rows.end(last)
}

/// Adds the line of a procedure.
pub(crate) fn push_proc_line(
    rows: &mut Lines,
    loaded: &Loaded,
    by: Measure,
    whole: u64,
    id: ProcId,
    name: &[u8],
) -> Result<(), NoMemory>
    requires there { id < length loaded.now.profile.statics.procs }
    requires whole { (v : View) → IsFileView loaded.now.profile v → whole ≡ whole_of v by }
    ensures { (v : View) → IsFileView loaded.now.profile v → OnOk result (rows.new.ended ≡ rows.old.ended ++ costs_of v by (OfProcedure id) name.now ∷ []) }
{
    let own = loaded.proc_own(id);
    let total = loaded.proc_total(id);
    push_costs_line(rows, by, whole, own, total, name)
}

/// Adds the line of a module.
pub(crate) fn push_module_line(
    rows: &mut Lines,
    loaded: &Loaded,
    by: Measure,
    whole: u64,
    id: u32,
    name: &[u8],
) -> Result<(), NoMemory>
    requires there { id < length loaded.now.profile.statics.modules }
    requires whole { (v : View) → IsFileView loaded.now.profile v → whole ≡ whole_of v by }
    ensures { (v : View) → IsFileView loaded.now.profile v → OnOk result (rows.new.ended ≡ rows.old.ended ++ costs_of v by (OfModule id) name.now ∷ []) }
{
    let own = loaded.module_own(id);
    let total = loaded.module_total(id);
    push_costs_line(rows, by, whole, own, total, name)
}

/// Adds a line of costs.
fn push_costs_line(
    rows: &mut Lines,
    by: Measure,
    whole: u64,
    own: Sums,
    total: Sums,
    last: &[u8],
) -> Result<(), NoMemory>
    ensures { OnOk result (rows.new.ended ≡ rows.old.ended ++ costs_line by whole (λ m. sum_of own m) (λ m. sum_of total m) last.now ∷ []) }
{
    rows.begin();
    push_counted(rows, total.of(by) as u128, whole)?;
    push_counted(rows, own.of(by) as u128, whole)?;
    if !is_calls(by) {
        rows.add_count(own.of(Measure::Calls) as u128)?;
    }
    rows.add_ratio(total.of(by), own.of(Measure::Calls))?;
    rows.end(last)
}

/// Adds a count and its share in the whole to the row that is begun.
pub fn push_counted(rows: &mut Lines, count: u128, whole: u64) -> Result<(), NoMemory>
    requires { count < 2 ^ 118 }
    ensures { OnOk result (rows.new ≡ with_cells rows.old (counted_cells count whole)) }
{
    rows.add_count(count)?;
    rows.add_share(count, whole)
}

fn is_calls(by: Measure) -> bool
    ensures { result ≡ is_calls by }
{
    match by {
        Measure::Calls => true,
        Measure::Exits => false,
        Measure::Fails => false,
        Measure::Redos => false,
        Measure::Allocs => false,
        Measure::Words => false,
        Measure::Excps => false,
    }
}
