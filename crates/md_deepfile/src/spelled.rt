// What has a spelling in the file.
ghost use Rattle.std.specs.Prelude.{◌≡◌, ◌<◌, ◌^◌, ◌++◌, ℕ, List, length, OnOk};
ghost use Rattle.md_deepfile.specs.Bytes.{u32, name_bytes, proc_bytes, site_bytes, link_bytes, each};

use crate::fields::{put_context, put_count, put_link, put_name, put_proc, put_site};
use md_base::{Name, ProcId};
use md_dynamic::LinkRow;
use md_static::{Proc, Site};
use std::alloc::AllocError;

/// A thing of a list of the file.
pub(crate) trait Spelled {
    /// Its bytes.
    ghost bytes: { Self → List ℕ };

    /// Puts its bytes at the end of a vector.
    fn put(&self, out: &mut Vec<u8>) -> Result<(), AllocError>
        ensures { OnOk result (out.new.items ≡ out.old.items ++ bytes self.now) };
}

impl Spelled for Name {
    ghost bytes = { name_bytes };

    fn put(&self, out: &mut Vec<u8>) -> Result<(), AllocError> {
        put_name(out, self)
    }
}

impl Spelled for Proc {
    ghost bytes = { proc_bytes };

    fn put(&self, out: &mut Vec<u8>) -> Result<(), AllocError> {
        put_proc(out, self)
    }
}

impl Spelled for Site {
    ghost bytes = { site_bytes };

    fn put(&self, out: &mut Vec<u8>) -> Result<(), AllocError> {
        put_site(out, self)
    }
}

impl Spelled for ProcId {
    ghost bytes = { u32 };

    fn put(&self, out: &mut Vec<u8>) -> Result<(), AllocError> {
        put_context(out, *self)
    }
}

impl Spelled for LinkRow {
    ghost bytes = { link_bytes 7 };

    fn put(&self, out: &mut Vec<u8>) -> Result<(), AllocError> {
        put_link(out, self)
    }
}

/// Puts a list: how many there are, and each.
pub(crate) fn put_each<T: Spelled>(out: &mut Vec<u8>, things: &[T]) -> Result<(), AllocError>
    requires { length things.now < 2 ^ 32 }
    ensures { OnOk result (out.new.items ≡ out.old.items ++ each T.bytes things.now) }
{
    put_count(out, things.len())?;
    for thing in things {
        thing.put(out)?;
    }
    Ok(())
}
