// The full names of procedures. A number that isn't there stands for no name.
ghost use Rattle.std.specs.Prelude.{◌≡◌, ◌++◌, OnOk};
ghost use Rattle.md_cover.specs.Text.{module_name, full_name};

use crate::number::{add, add_number};
use md_static::Statics;
use std::alloc::AllocError;

/// Adds a procedure's module, name and number of arguments.
pub(crate) fn add_full_name(out: &mut Vec<u8>, statics: &Statics, id: u32) -> Result<(), AllocError>
    ensures { OnOk result (out.new.items ≡ out.old.items ++ full_name statics.now id) }
{
    let Some(proc) = statics.procs().get(id as usize) else {
        return Ok(());
    };
    add(out, module_name(statics, proc.module))?;
    add(out, b".")?;
    add(out, proc.name.as_bytes())?;
    add_number(out, b"/", proc.arity as u64)
}

fn module_name(statics: &Statics, id: u32) -> &[u8]
    ensures { result.now ≡ module_name statics.now id }
{
    match statics.modules().get(id as usize) {
        Some(name) => name.as_bytes(),
        None => b"",
    }
}
