// A profile as bytes in memory.
ghost use Rattle.std.specs.Prelude.{◌≡◌, ◌++◌, IfOk, OnOk};
ghost use Rattle.md_dynamic.specs.Valid.{IsValid};
ghost use Rattle.md_deepfile.specs.Bytes.{file_bytes};
ghost use Rattle.md_deepfile.specs.Pieces.{table_bytes, row_bytes};

use crate::fields::put_front;
use crate::spelled::put_each;
use md_base::NoMemory;
use md_dynamic::Profile;
use std::alloc::{AllocError, Global};

/// The file of a profile, in version 2. The profile is valid.
pub fn encode(alloc: Global, profile: &Profile) -> Result<Vec<u8>, NoMemory>
    requires { IsValid profile.now }
    ensures { IfOk result (λ bytes. bytes.items ≡ file_bytes profile.now) }
{
    let mut out = Vec::new(alloc);
    put_tables(&mut out, profile)?;
    put_rows(&mut out, profile)?;
    Ok(out)
}

/// Puts what stands before the contexts.
fn put_tables(out: &mut Vec<u8>, profile: &Profile) -> Result<(), AllocError>
    requires { IsValid profile.now }
    ensures { OnOk result (out.new.items ≡ out.old.items ++ table_bytes profile.now) }
{
    put_front(out, profile.finished())?;
    put_each(out, profile.statics().modules())?;
    put_each(out, profile.statics().procs())?;
    put_each(out, profile.statics().sites())
}

/// Puts contexts and links.
fn put_rows(out: &mut Vec<u8>, profile: &Profile) -> Result<(), AllocError>
    requires { IsValid profile.now }
    ensures { OnOk result (out.new.items ≡ out.old.items ++ row_bytes profile.now) }
{
    put_each(out, profile.nodes())?;
    put_each(out, profile.links())
}
