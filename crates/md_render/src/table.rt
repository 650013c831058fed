// Tables between the lines of a page.
ghost use Rattle.std.specs.Prelude.{◌≡◌, ◌++◌, OnOk};
ghost use Rattle.md_table.specs.Table.{text_of};

use md_table::Table;
use std::alloc::AllocError;

/// Adds a table with all its lines, as text.
pub(crate) fn add_table(out: &mut Vec<u8>, table: &Table) -> Result<(), AllocError>
    ensures { OnOk result (out.new.items ≡ out.old.items ++ text_of table.now) }
{
    match md_table::add_text(out, table) {
        Ok(()) => Ok(()),
        Err(_) => Err(AllocError),
    }
}
