// The procedures that cost most.
ghost use Rattle.std.specs.Prelude.{◌≡◌, ◌<◌, ◌++◌, ◌∷◌, [], All, IfOk, OnOk, length, map};
ghost use Rattle.md_cost.specs.FileView.{IsFileView};
ghost use Rattle.md_cost.specs.View.{View};
ghost use Rattle.md_people.specs.Counts.{whole_of};
ghost use Rattle.md_people.specs.Hot.{hot_table, proc_line};

use crate::costs::{push_costs_heading, push_proc_line, whole_of};
use crate::name::full_name;
use crate::ranking::ranked_procs;
use crate::sort::Sort;
use md_base::{Measure, NoMemory, ProcId};
use md_cost::Loaded;
use md_table::{Lines, Table};
use std::alloc::Global;

/// The first `n` procedures by their totals or own counts of a measure, with their costs.
pub fn hot_table(
    alloc: Global,
    loaded: &Loaded,
    by: Measure,
    n: u32,
    sort: Sort,
) -> Result<Table, NoMemory>
    ensures { IfOk result (λ table. (v : View) → IsFileView loaded.now.profile v → table ≡ hot_table v by n sort) }
{
    // it is valid and has a view, which `profile` says
    let _profile = loaded.profile();
    let whole = whole_of(loaded, by);
    let ids = ranked_procs(alloc, loaded, by, sort)?;
    let shown = ids.len().min(n as usize);
    let mut rows = Lines::new(alloc);
    push_costs_heading(&mut rows, by, b"procedure")?;
    push_procs(alloc, &mut rows, loaded, by, whole, &ids[..shown])?;
    Ok(Table::from_lines(rows))
}

/// Adds the lines of these procedures.
fn push_procs(
    alloc: Global,
    rows: &mut Lines,
    loaded: &Loaded,
    by: Measure,
    whole: u64,
    ids: &[u32],
) -> Result<(), NoMemory>
    requires there { All (λ id. id < length loaded.now.profile.statics.procs) ids.now }
    requires whole { (v : View) → IsFileView loaded.now.profile v → whole ≡ whole_of v by }
    ensures { (v : View) → IsFileView loaded.now.profile v → OnOk result (rows.new.ended ≡ rows.old.ended ++ map (proc_line v by) ids.now) }
{
    for id in ids {
        push_named(alloc, rows, loaded, by, whole, ProcId::new(*id))?;
    }
    Ok(())
}

/// Adds the line of a procedure with its full name.
fn push_named(
    alloc: Global,
    rows: &mut Lines,
    loaded: &Loaded,
    by: Measure,
    whole: u64,
    id: ProcId,
) -> Result<(), NoMemory>
    requires there { id < length loaded.now.profile.statics.procs }
    requires whole { (v : View) → IsFileView loaded.now.profile v → whole ≡ whole_of v by }
    ensures { (v : View) → IsFileView loaded.now.profile v → OnOk result (rows.new.ended ≡ rows.old.ended ++ proc_line v by id ∷ []) }
{
    let name = full_name(alloc, loaded.profile().statics(), id.number())?;
    push_proc_line(rows, loaded, by, whole, id, &name)
}
