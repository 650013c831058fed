// Names in tables.
ghost use Rattle.std.specs.Prelude.{◌≡◌, ◌<◌, ◌^◌, ◌++◌, decimal, length, IfOk, OnOk};
ghost use Rattle.md_people.specs.Words.{full_name, module_name, proc_named};

use itoa::Buffer;
use md_base::{NoMemory, ProcId};
use md_static::Statics;
use std::alloc::{AllocError, Global};

/// The first procedure of this full name: its module, name and number of arguments.
pub fn proc_named(alloc: Global, statics: &Statics, name: &[u8]) -> Result<Option<ProcId>, NoMemory>
    requires { length statics.now.procs < 2 ^ 32 }
    ensures { IfOk result (λ found. found ≡ proc_named statics.now name.now) }
{
    for id in 0..statics.procs().len() as u32 {
        let found = full_name(alloc, statics, id)?;
        if found.as_slice() == name {
            return Ok(Some(ProcId::new(id)));
        }
    }
    Ok(None)
}

/// The name of a module.
pub(crate) fn module_name(statics: &Statics, id: u32) -> &[u8]
    ensures { result.now ≡ module_name statics.now id }
{
    match statics.modules().get(id as usize) {
        Some(name) => name.as_bytes(),
        None => b"",
    }
}

/// A procedure's module, name and number of arguments. A number of no procedure has no name. Takes memory for the name.
pub fn full_name(alloc: Global, statics: &Statics, id: u32) -> Result<Vec<u8>, NoMemory>
    ensures { IfOk result (λ name. name.items ≡ full_name statics.now id) }
{
    let mut name = Vec::new(alloc);
    add_full_name(&mut name, statics, id)?;
    Ok(name)
}

/// Adds the full name of a procedure.
pub fn add_full_name(out: &mut Vec<u8>, statics: &Statics, id: u32) -> Result<(), AllocError>
    ensures { OnOk result (out.new.items ≡ out.old.items ++ full_name statics.now id) }
{
    let Some(proc) = statics.procs().get(id as usize) else {
        return Ok(());
    };
    add(out, module_name(statics, proc.module))?;
    add(out, b".")?;
    add(out, proc.name.as_bytes())?;
    add_number(out, b"/", proc.arity as u32)
}

/// Adds words, and a number behind them.
pub fn add_number(out: &mut Vec<u8>, words: &[u8], number: u32) -> Result<(), AllocError>
    ensures { OnOk result (out.new.items ≡ out.old.items ++ (words.now ++ decimal number)) }
{
    let mut digits = Buffer::new();
    add(out, words)?;
    add(out, digits.format(number).as_bytes())
}

pub(crate) fn add(out: &mut Vec<u8>, words: &[u8]) -> Result<(), AllocError>
    ensures { OnOk result (out.new.items ≡ out.old.items ++ words.now) }
{
    out.extend_from_slice(words)
}
