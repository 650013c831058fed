// The procedures and modules in whose name a text is.
ghost use Rattle.std.specs.Prelude.{◌≡◌, ◌<◌, ◌++◌, IfOk, OnOk, length};
ghost use Rattle.md_cost.specs.FileView.{IsFileView};
ghost use Rattle.md_cost.specs.View.{View};
ghost use Rattle.md_people.specs.Counts.{whole_of};
ghost use Rattle.md_people.specs.Find.{found_modules_table, found_procs_table, module_rows, proc_rows};

use crate::costs::{push_costs_heading, push_module_line, push_proc_line, whole_of};
use crate::name::{full_name, module_name};
use crate::text::has_text;
use md_base::{Measure, NoMemory, ProcId};
use md_cost::Loaded;
use md_table::{Lines, Table};
use std::alloc::Global;

/// The procedures in whose full name the text is, in rising order, with their costs.
pub fn found_procs_table(
    alloc: Global,
    loaded: &Loaded,
    by: Measure,
    text: &[u8],
) -> Result<Table, NoMemory>
    ensures { IfOk result (λ table. (v : View) → IsFileView loaded.now.profile v → table ≡ found_procs_table v by text.now) }
{
    let whole = whole_of(loaded, by);
    let mut rows = Lines::new(alloc);
    push_costs_heading(&mut rows, by, b"procedure")?;
    for id in 0..loaded.profile().statics().procs().len() as u32 {
        push_proc(alloc, &mut rows, loaded, by, whole, text, ProcId::new(id))?;
    }
    Ok(Table::from_lines(rows))
}

/// The modules in whose name the text is, in rising order, with their costs.
pub fn found_modules_table(
    alloc: Global,
    loaded: &Loaded,
    by: Measure,
    text: &[u8],
) -> Result<Table, NoMemory>
    ensures { IfOk result (λ table. (v : View) → IsFileView loaded.now.profile v → table ≡ found_modules_table v by text.now) }
{
    let whole = whole_of(loaded, by);
    let mut rows = Lines::new(alloc);
    push_costs_heading(&mut rows, by, b"module")?;
    for id in 0..loaded.profile().statics().modules().len() as u32 {
        push_module(&mut rows, loaded, by, whole, text, id)?;
    }
    Ok(Table::from_lines(rows))
}

/// Adds the line of a procedure, where the text is in its full name.
fn push_proc(
    alloc: Global,
    rows: &mut Lines,
    loaded: &Loaded,
    by: Measure,
    whole: u64,
    text: &[u8],
    id: ProcId,
) -> Result<(), NoMemory>
    requires there { id < length loaded.now.profile.statics.procs }
    requires whole { (v : View) → IsFileView loaded.now.profile v → whole ≡ whole_of v by }
    ensures { (v : View) → IsFileView loaded.now.profile v → OnOk result (rows.new.ended ≡ rows.old.ended ++ proc_rows v by text.now id) }
{
    let name = full_name(alloc, loaded.profile().statics(), id.number())?;
    if has_text(text, &name) {
        push_proc_line(rows, loaded, by, whole, id, &name)?;
    }
    Ok(())
}

/// Adds the line of a module, where the text is in its name.
fn push_module(
    rows: &mut Lines,
    loaded: &Loaded,
    by: Measure,
    whole: u64,
    text: &[u8],
    id: u32,
) -> Result<(), NoMemory>
    requires there { id < length loaded.now.profile.statics.modules }
    requires whole { (v : View) → IsFileView loaded.now.profile v → whole ≡ whole_of v by }
    ensures { (v : View) → IsFileView loaded.now.profile v → OnOk result (rows.new.ended ≡ rows.old.ended ++ module_rows v by text.now id) }
{
    let name = module_name(loaded.profile().statics(), id);
    if has_text(text, name) {
        push_module_line(rows, loaded, by, whole, id, name)?;
    }
    Ok(())
}
