// The full names of all procedures.
ghost use Rattle.std.specs.Prelude.{◌≡◌, ◌<◌, ◌^◌, length, IfOk};
ghost use Rattle.md_people.specs.Words.{AreFullNames, full_name};

use crate::name::full_name;
use md_base::{NoMemory, Text};
use md_static::Statics;
use std::alloc::Global;

/// The full name of each procedure, made once for the many lines that have it.
#[derive(Drop)]
pub(crate) struct FullNames<'a> {
    pub statics: &'a Statics,
    names: Vec<Text>,
    ghost are: { AreFullNames statics.now names.items },
}

impl<'a> FullNames<'a> {
    ghost use Rattle.std.specs.Prelude.{◌≡◌, ◌<◌, ◌^◌, length, IfOk};
    ghost use Rattle.md_people.specs.Words.{full_name};

    /// The names of these procedures. Takes memory in proportion to them.
    pub(crate) fn of(alloc: Global, statics: &'a Statics) -> Result<FullNames<'a>, NoMemory>
        requires { length statics.now.procs < 2 ^ 32 }
        ensures { IfOk result (λ names. names.statics.now ≡ statics.now) }
    {
        let names = all_names(alloc, statics)?;
        Ok(FullNames { statics, names })
    }

    /// The name of a procedure. A number of no procedure has no name. Takes no memory.
    pub(crate) fn get(&self, id: u32) -> &[u8]
        ensures { result.now ≡ full_name self.now.statics.now id }
    {
        match self.names.get(id as usize) {
            Some(name) => name.as_bytes(),
            None => b"",
        }
    }
}

/// The full name of each of these procedures.
fn all_names(alloc: Global, statics: &Statics) -> Result<Vec<Text>, NoMemory>
    requires { length statics.now.procs < 2 ^ 32 }
    ensures { IfOk result (λ names. AreFullNames statics.now names.items) }
{
    let mut names = Vec::new(alloc);
    for id in 0..statics.procs().len() as u32 {
        let name = full_name(alloc, statics, id)?;
        names.push(Text::from_bytes(alloc, &name)?)?;
    }
    Ok(names)
}
