// Whether tables are those of a program.
ghost use Rattle.std.specs.Prelude.{◌≡◌, ◌≢◌, ◌↔◌, ◌<◌, ◌≤◌, ◌^◌, length, map, All, AllPairs, IfOk, IfSome, IsTrue};
ghost use Rattle.md_static.specs.Tables.{callee_of};
ghost use Rattle.md_static.specs.Names.{is_lower, is_upper, is_digit, is_word, are_words, is_name};
ghost use Rattle.md_static.specs.Sites.{OwnersRiseFrom};
ghost use Rattle.md_static.specs.Sound.{IsSound, AreFew, HaveNames, HaveEnds, proc_key, key_seen};

use crate::{Proc, Site, SiteKind, Statics};
use md_base::{Name, NoMemory, all_differ};
use std::alloc::Global;

/// Whether these tables are those of a program: names are names and differ, numbers are those of things that are
/// there, lines count from 1, the sites of a procedure stand together, and no list has more than 4,294,967,295 members.
/// It takes time near linear in what the tables hold.
pub fn is_sound(alloc: Global, statics: &Statics) -> Result<bool, NoMemory>
    ensures { IfOk result (λ sound. IsTrue sound ↔ IsSound statics.now) }
{
    if !are_few(statics) || !have_names(statics) || !have_ends(statics) {
        return Ok(false);
    }
    if !names_differ(alloc, statics.modules())? {
        return Ok(false);
    }
    procs_differ(alloc, statics.procs())
}

/// Whether there are modules and procedures, and no list is too long.
fn are_few(statics: &Statics) -> bool
    ensures { IsTrue result ↔ AreFew statics.now }
{
    is_count(statics.modules().len())
        && is_count(statics.procs().len())
        && statics.sites().len() < 1 << 32
}

/// Whether this many is at least one, and at most 4,294,967,295.
fn is_count(count: usize) -> bool
    ensures { IsTrue result ↔ ((0 < count) × (count < 2 ^ 32)) }
{
    count > 0 && count < 1 << 32
}

/// Whether modules and procedures have names of a program.
fn have_names(statics: &Statics) -> bool
    ensures { IsTrue result ↔ HaveNames statics.now }
{
    are_program_names(statics.modules()) && have_program_names(statics.procs())
}

/// Whether each number is that of something that is there, each line is one, and the sites of a procedure stand together.
fn have_ends(statics: &Statics) -> bool
    ensures { IsTrue result ↔ HaveEnds statics.now }
{
    let procs = statics.procs().len();
    have_modules(statics.procs(), statics.modules().len())
        && have_owners(statics.sites(), procs)
        && have_callees(statics.sites(), procs)
        && have_lines(statics.sites())
        && owners_rise(statics.sites())
}

/// A lower-case letter of ASCII.
fn is_small(byte: u8) -> bool
    ensures { result ≡ is_lower byte }
{
    byte >= b'a' && byte <= b'z'
}

/// A letter of ASCII, a digit or `_`.
fn is_part(byte: u8) -> bool
    ensures { result ≡ is_word byte }
{
    is_small(byte)
        || (byte >= b'A' && byte <= b'Z')
        || (byte >= b'0' && byte <= b'9')
        || byte == b'_'
}

/// Whether each byte is a letter of ASCII, a digit or `_`.
fn are_parts(bytes: &[u8]) -> bool
    ensures { result ≡ are_words bytes.now }
{
    let mut rest = bytes;
    while let [first, after @ ..] = rest {
        if !is_part(*first) {
            return false;
        }
        rest = after;
    }
    true
}

/// Whether a name is one of a program: a lower-case letter, and then letters, digits and `_`.
fn is_program_name(name: &Name) -> bool
    ensures { result ≡ is_name name.now }
{
    match name.as_bytes() {
        [] => false,
        [first, rest @ ..] => is_small(*first) && are_parts(rest),
    }
}

fn are_program_names(names: &[Name]) -> bool
    ensures { IsTrue result ↔ All (λ name. IsTrue (is_name name)) names.now }
{
    names.iter().all(|name| is_program_name(name))
}

fn have_program_names(procs: &[Proc]) -> bool
    ensures { IsTrue result ↔ All (λ p. IsTrue (is_name p.name)) procs.now }
{
    procs.iter().all(|proc| is_program_name(&proc.name))
}

fn have_modules(procs: &[Proc], modules: usize) -> bool
    ensures { IsTrue result ↔ All (λ p. p.module < modules) procs.now }
{
    procs.iter().all(|proc| (proc.module as usize) < modules)
}

fn have_owners(sites: &[Site], procs: usize) -> bool
    ensures { IsTrue result ↔ All (λ x. x.owner < procs) sites.now }
{
    sites
        .iter()
        .all(|site| (site.owner.number() as usize) < procs)
}

fn have_lines(sites: &[Site]) -> bool
    ensures { IsTrue result ↔ All (λ x. 1 ≤ x.line) sites.now }
{
    sites.iter().all(|site| site.line >= 1)
}

fn is_callee(kind: SiteKind, procs: usize) -> bool
    ensures { IsTrue result ↔ IfSome (callee_of kind) (λ q. q < procs) }
{
    match kind {
        SiteKind::Plain(callee) => (callee.number() as usize) < procs,
        SiteKind::HigherOrder => true,
    }
}

fn have_callees(sites: &[Site], procs: usize) -> bool
    ensures { IsTrue result ↔ All (λ x. IfSome (callee_of x.kind) (λ q. q < procs)) sites.now }
{
    sites.iter().all(|site| is_callee(site.kind, procs))
}

/// Whether no site's owner is less than that of the site before.
fn owners_rise(sites: &[Site]) -> bool
    ensures { IsTrue result ↔ OwnersRiseFrom 0 sites.now }
{
    let mut least = 0;
    let mut rest = sites;
    while let [site, after @ ..] = rest {
        if site.owner.number() < least {
            return false;
        }
        least = site.owner.number();
        rest = after;
    }
    true
}

/// Whether no two names are equal.
fn names_differ(alloc: Global, names: &[Name]) -> Result<bool, NoMemory>
    ensures { IfOk result (λ differ. IsTrue differ ↔ AllPairs (λ m n. m ≢ n) names.now) }
{
    let keys = name_keys(alloc, names)?;
    all_differ(alloc, &keys)
}

/// The names, as keys.
fn name_keys<'a>(alloc: Global, names: &'a [Name]) -> Result<Vec<&'a Name>, NoMemory>
    ensures { IfOk result (λ keys. map (λ key. key.now) keys.items ≡ names.now) }
{
    Ok(names.iter().collect(alloc)?)
}

/// Whether no two procedures of one module have one name.
fn procs_differ(alloc: Global, procs: &[Proc]) -> Result<bool, NoMemory>
    ensures { IfOk result (λ differ. IsTrue differ ↔ AllPairs (λ p q. p.module ≡ q.module → p.name ≢ q.name) procs.now) }
{
    let keys = proc_keys(alloc, procs)?;
    all_differ(alloc, &keys)
}

/// The procedures' modules and names, as keys.
fn proc_keys<'a>(alloc: Global, procs: &'a [Proc]) -> Result<Vec<(u32, &'a Name)>, NoMemory>
    ensures { IfOk result (λ keys. map key_seen keys.items ≡ map proc_key procs.now) }
{
    let mut keys = Vec::with_capacity(alloc, procs.len())?;
    for proc in procs {
        keys.push((proc.module, &proc.name))?;
    }
    Ok(keys)
}
