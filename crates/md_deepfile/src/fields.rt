// The fields of a profile, put at the end of a vector.
ghost use Rattle.std.specs.Prelude.{◌≡◌, ◌<◌, ◌≤◌, ◌^◌, ◌++◌, ◌∷◌, [], length, take, flat_map, OnOk};
ghost use Rattle.md_static.specs.Tables.{callee_of};
ghost use Rattle.md_deepfile.specs.Bytes.{u32, or_none, name_bytes, proc_bytes, site_bytes, numbers_of, link_bytes, each, magic, flag_byte};

use crate::part::NONE;
use md_base::{Counts, Name, PdId, ProcId, SiteId};
use md_dynamic::LinkRow;
use md_static::{Proc, Site, SiteKind};
use std::alloc::AllocError;

/// The bytes before the version.
pub(crate) const MAGIC: [u8; 7] = [77, 68, 80, 82, 79, 70, 48];

/// Puts the magic, version 2 and the flag.
pub(crate) fn put_front(out: &mut Vec<u8>, finished: bool) -> Result<(), AllocError>
    ensures { OnOk result (out.new.items ≡ out.old.items ++ (magic ++ 50 ∷ flag_byte finished ∷ [])) }
{
    out.extend_from_slice(&MAGIC)?;
    out.push(50)?;
    out.push(if finished { 1 } else { 0 })?;
    Ok(())
}

/// Puts a number of four bytes, the least one first.
#[tactic(auto, unfolding(crate::specs::Bytes::u32))]
pub(crate) fn put_number(out: &mut Vec<u8>, number: u32) -> Result<(), AllocError>
    ensures { OnOk result (out.new.items ≡ out.old.items ++ u32 number) }
{
    out.extend_from_slice(&number.to_le_bytes())
}

/// Puts how many there are.
pub(crate) fn put_count(out: &mut Vec<u8>, count: usize) -> Result<(), AllocError>
    requires { count < 2 ^ 32 }
    ensures { OnOk result (out.new.items ≡ out.old.items ++ u32 count) }
{
    put_number(out, count as u32)
}

/// Puts a name behind its length.
pub(crate) fn put_name(out: &mut Vec<u8>, name: &Name) -> Result<(), AllocError>
    ensures { OnOk result (out.new.items ≡ out.old.items ++ name_bytes name.now) }
{
    let bytes = name.as_bytes();
    out.push(bytes.len() as u8)?;
    out.extend_from_slice(bytes)
}

/// Puts a procedure: module, name, arity.
pub(crate) fn put_proc(out: &mut Vec<u8>, proc: &Proc) -> Result<(), AllocError>
    ensures { OnOk result (out.new.items ≡ out.old.items ++ proc_bytes proc.now) }
{
    put_number(out, proc.module)?;
    put_name(out, &proc.name)?;
    out.push(proc.arity)?;
    Ok(())
}

/// Puts a call site: owner, line, callee.
pub(crate) fn put_site(out: &mut Vec<u8>, site: &Site) -> Result<(), AllocError>
    ensures { OnOk result (out.new.items ≡ out.old.items ++ site_bytes site.now) }
{
    put_number(out, site.owner.number())?;
    put_number(out, site.line)?;
    put_number(out, callee_number(site.kind))
}

/// Puts a context: its procedure.
pub(crate) fn put_context(out: &mut Vec<u8>, proc: ProcId) -> Result<(), AllocError>
    ensures { OnOk result (out.new.items ≡ out.old.items ++ u32 proc) }
{
    put_number(out, proc.number())
}

/// Puts a link: caller, site, callee and its counts.
pub(crate) fn put_link(out: &mut Vec<u8>, link: &LinkRow) -> Result<(), AllocError>
    ensures { OnOk result (out.new.items ≡ out.old.items ++ link_bytes 7 link.now) }
{
    put_number(out, caller_number(link.caller))?;
    put_number(out, site_number(link.site))?;
    put_number(out, link.callee.number())?;
    put_counts(out, &link.own)
}

fn callee_number(kind: SiteKind) -> u32
    ensures { result ≡ or_none (callee_of kind) }
{
    match kind {
        SiteKind::Plain(callee) => callee.number(),
        SiteKind::HigherOrder => NONE,
    }
}

fn caller_number(caller: Option<PdId>) -> u32
    ensures { result ≡ or_none caller }
{
    match caller {
        Some(caller) => caller.number(),
        None => NONE,
    }
}

fn site_number(site: Option<SiteId>) -> u32
    ensures { result ≡ or_none site }
{
    match site {
        Some(site) => site.number(),
        None => NONE,
    }
}

/// Puts the seven counts of a link.
fn put_counts(out: &mut Vec<u8>, own: &Counts) -> Result<(), AllocError>
    ensures { OnOk result (out.new.items ≡ out.old.items ++ flat_map u32 (numbers_of own.now)) }
{
    let numbers = [
        own.calls, own.exits, own.fails, own.redos, own.allocs, own.words, own.excps,
    ];
    put_numbers(out, &numbers)
}

fn put_numbers(out: &mut Vec<u8>, numbers: &[u32]) -> Result<(), AllocError>
    ensures { OnOk result (out.new.items ≡ out.old.items ++ flat_map u32 numbers.now) }
{
    for number in numbers {
        put_number(out, *number)?;
    }
    Ok(())
}
