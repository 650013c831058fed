// What has a line in the text.
ghost use Rattle.std.specs.Prelude.{◌≡◌, ◌<◌, ◌^◌, ◌++◌, ◌∷◌, [], ℕ, List, length, flat_map, decimal, OnOk};
ghost use Rattle.md_static.specs.Tables.{callee_of};
ghost use Rattle.md_deepfile.specs.Bytes.{numbers_of};
ghost use Rattle.md_dump.specs.Text.{Words, line, module_words, proc_words, site_words, context_words, link_words, count_words, listed};

use crate::put::{
    put_next, put_next_number, put_next_or_dash, put_number, put_numbers, put_or_dash,
};
use md_base::{Counts, Name, ProcId};
use md_dynamic::LinkRow;
use md_static::{Proc, Site, SiteKind};
use std::alloc::AllocError;

/// A thing of a list of the text.
pub(crate) trait Told {
    /// The words of its line.
    ghost words: { Self → Words };

    /// Puts its line at the end of a vector.
    fn put(&self, out: &mut Vec<u8>) -> Result<(), AllocError>
        ensures { OnOk result (out.new.items ≡ out.old.items ++ line (words self.now)) };
}

impl Told for Name {
    ghost words = { module_words };

    fn put(&self, out: &mut Vec<u8>) -> Result<(), AllocError> {
        out.extend_from_slice(self.as_bytes())?;
        out.push(b'\n')?;
        Ok(())
    }
}

impl Told for Proc {
    ghost words = { proc_words };

    fn put(&self, out: &mut Vec<u8>) -> Result<(), AllocError> {
        put_number(out, self.module)?;
        put_next(out, self.name.as_bytes())?;
        put_next_number(out, self.arity as u32)?;
        out.push(b'\n')?;
        Ok(())
    }
}

impl Told for Site {
    ghost words = { site_words };

    fn put(&self, out: &mut Vec<u8>) -> Result<(), AllocError> {
        put_number(out, self.owner.number())?;
        put_next_number(out, self.line)?;
        put_next_or_dash(out, callee_number(self.kind))?;
        out.push(b'\n')?;
        Ok(())
    }
}

/// Puts a list: how many there are, and a line for each.
pub(crate) fn put_each<T: Told>(
    out: &mut Vec<u8>,
    name: &[u8],
    things: &[T],
) -> Result<(), AllocError>
    requires { length things.now < 2 ^ 32 }
    ensures { OnOk result (out.new.items ≡ out.old.items ++ flat_map line (listed name.now T.words things.now)) }
{
    put_count(out, name, things.len() as u32)?;
    for thing in things {
        thing.put(out)?;
    }
    Ok(())
}

impl Told for ProcId {
    ghost words = { context_words };

    fn put(&self, out: &mut Vec<u8>) -> Result<(), AllocError> {
        put_number(out, self.number())?;
        out.push(b'\n')?;
        Ok(())
    }
}

impl Told for LinkRow {
    ghost words = { link_words };

    fn put(&self, out: &mut Vec<u8>) -> Result<(), AllocError> {
        put_or_dash(out, self.caller.map(|caller| caller.number()))?;
        put_next_or_dash(out, self.site.map(|site| site.number()))?;
        put_next_number(out, self.callee.number())?;
        put_counts(out, &self.own)?;
        out.push(b'\n')?;
        Ok(())
    }
}

fn callee_number(kind: SiteKind) -> Option<u32>
    ensures { result ≡ callee_of kind }
{
    match kind {
        SiteKind::Plain(callee) => Some(callee.number()),
        SiteKind::HigherOrder => None,
    }
}

/// Puts the seven counts of a link, each behind a space.
fn put_counts(out: &mut Vec<u8>, own: &Counts) -> Result<(), AllocError>
    ensures { OnOk result (out.new.items ≡ out.old.items ++ flat_map (λ n. 32 ∷ decimal n) (numbers_of own.now)) }
{
    let numbers = [
        own.calls, own.exits, own.fails, own.redos, own.allocs, own.words, own.excps,
    ];
    put_numbers(out, &numbers)
}

/// Puts the line that says how many of a list there are.
fn put_count(out: &mut Vec<u8>, name: &[u8], count: u32) -> Result<(), AllocError>
    ensures { OnOk result (out.new.items ≡ out.old.items ++ line (count_words name.now count)) }
{
    out.extend_from_slice(name)?;
    put_next_number(out, count)?;
    out.push(b'\n')?;
    Ok(())
}
