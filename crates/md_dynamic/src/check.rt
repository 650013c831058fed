// Whether a profile is valid.
ghost use Rattle.std.specs.Prelude.{◌≡◌, ◌≢◌, ◌↔◌, ◌<◌, ◌^◌, ◌||◌, ℕ, true, length, map, drop, All, AllPairs, Some, IfOk, IfSome, IsSomeAnd, IsTrue, slice_get};
ghost use Rattle.std.specs.List.{list_any};
ghost use Rattle.std.specs.Option.{option_map};
ghost use Rattle.md_static.specs.Tables.{callee_of};
ghost use Rattle.md_dynamic.specs.Valid.{AreValid, HasRows, IsRoot, Fits, Joins, MayCall, link_key, whole_key, HasEnds, AllReached, is_below, leads_down};

use crate::link::LinkRow;
use md_base::{NoMemory, PdId, ProcId, SiteId, all_differ};
use md_static::{Site, SiteKind, Statics, is_sound};
use std::alloc::Global;

/// Whether contexts and links make a valid profile with these tables, in time near linear in their number.
pub(crate) fn are_valid(
    alloc: Global,
    statics: &Statics,
    nodes: &[ProcId],
    links: &[LinkRow],
) -> Result<bool, NoMemory>
    ensures { IfOk result (λ valid. IsTrue valid ↔ AreValid statics.now nodes.now links.now) }
{
    if !has_rows(statics, nodes, links) {
        return Ok(false);
    }
    if !is_sound(alloc, statics)? {
        return Ok(false);
    }
    if !others_are_valid(alloc, statics, nodes, others(links))? {
        return Ok(false);
    }
    all_reached(alloc, nodes.len(), links)
}

/// The links but the root link.
fn others(links: &[LinkRow]) -> &[LinkRow]
    ensures { result.now ≡ drop 1 links.now }
{
    match links {
        [] => links,
        [_, others @ ..] => others,
    }
}

/// Whether links other than the root link fit, and differ.
fn others_are_valid(
    alloc: Global,
    statics: &Statics,
    nodes: &[ProcId],
    links: &[LinkRow],
) -> Result<bool, NoMemory>
    ensures { IfOk result (λ valid. IsTrue valid ↔ (All (Fits statics.now nodes.now) links.now
        × AllPairs (λ a b. link_key nodes.now a ≢ link_key nodes.now b) links.now)) }
{
    if !links_fit(statics, nodes, links) {
        return Ok(false);
    }
    links_differ(alloc, nodes, links)
}

/// Whether there are contexts and links, not too many, each context has a procedure, and link 0 is the root link.
fn has_rows(statics: &Statics, nodes: &[ProcId], links: &[LinkRow]) -> bool
    ensures { IsTrue result ↔ HasRows statics.now nodes.now links.now }
{
    is_count(nodes.len())
        && is_count(links.len())
        && nodes_there(nodes, statics.procs().len())
        && has_root(links)
}

/// Whether this many is at least one, and at most 4,294,967,295.
fn is_count(count: usize) -> bool
    ensures { IsTrue result ↔ ((0 < count) × (count < 2 ^ 32)) }
{
    count > 0 && count < 1 << 32
}

fn nodes_there(nodes: &[ProcId], procs: usize) -> bool
    ensures { IsTrue result ↔ All (λ p. p < procs) nodes.now }
{
    nodes.iter().all(|proc| (proc.number() as usize) < procs)
}

fn has_root(links: &[LinkRow]) -> bool
    ensures { IsTrue result ↔ IsSomeAnd (slice_get links.now 0) IsRoot }
{
    match links.first() {
        Some(link) => is_root(link),
        None => false,
    }
}

fn is_root(link: &LinkRow) -> bool
    ensures { IsTrue result ↔ IsRoot link.now }
{
    link.caller.is_none() && link.site.is_none() && link.callee.number() == 0
}

fn links_fit(statics: &Statics, nodes: &[ProcId], links: &[LinkRow]) -> bool
    ensures { IsTrue result ↔ All (Fits statics.now nodes.now) links.now }
{
    links.iter().all(|link| fits(statics, nodes, link))
}

/// Whether a link leads from a context, at a call site, to a context that it may call.
fn fits(statics: &Statics, nodes: &[ProcId], link: &LinkRow) -> bool
    ensures { IsTrue result ↔ Fits statics.now nodes.now link.now }
{
    let Some(caller) = link.caller else {
        return false;
    };
    let Some(site) = link.site else {
        return false;
    };
    joins(statics, nodes, caller, site, link.callee)
}

/// Whether a site of one context's procedure may call that of another.
fn joins(statics: &Statics, nodes: &[ProcId], caller: PdId, site: SiteId, callee: PdId) -> bool
    ensures { IsTrue result ↔ Joins statics.now nodes.now caller site callee }
{
    let Some(from) = nodes.get(caller.number() as usize) else {
        return false;
    };
    let Some(row) = statics.sites().get(site.number() as usize) else {
        return false;
    };
    let Some(to) = nodes.get(callee.number() as usize) else {
        return false;
    };
    may_call(row, *from, *to)
}

/// Whether a site belongs to one procedure and may call another.
fn may_call(site: &Site, caller: ProcId, callee: ProcId) -> bool
    ensures { IsTrue result ↔ MayCall site.now caller callee }
{
    site.owner == caller && may_be_callee(site.kind, callee)
}

fn may_be_callee(kind: SiteKind, callee: ProcId) -> bool
    ensures { IsTrue result ↔ IfSome (callee_of kind) (λ q. q ≡ callee) }
{
    match kind {
        SiteKind::Plain(only) => only == callee,
        SiteKind::HigherOrder => true,
    }
}

/// Whether no two links have the same caller, site and procedure of the callee.
fn links_differ(alloc: Global, nodes: &[ProcId], links: &[LinkRow]) -> Result<bool, NoMemory>
    requires { All (HasEnds nodes.now) links.now }
    ensures { IfOk result (λ differ. IsTrue differ ↔ AllPairs (λ a b. link_key nodes.now a ≢ link_key nodes.now b) links.now) }
{
    let keys = link_keys(alloc, nodes, links)?;
    all_differ(alloc, &keys)
}

/// What tells the links apart, as numbers.
fn link_keys(
    alloc: Global,
    nodes: &[ProcId],
    links: &[LinkRow],
) -> Result<Vec<(u32, u32, u32)>, NoMemory>
    requires { All (HasEnds nodes.now) links.now }
    ensures { IfOk result (λ keys. map whole_key keys.items ≡ map (link_key nodes.now) links.now) }
{
    let mut keys = Vec::with_capacity(alloc, links.len())?;
    for link in links {
        keys.push(key_of(nodes, link))?;
    }
    Ok(keys)
}

fn key_of(nodes: &[ProcId], link: &LinkRow) -> (u32, u32, u32)
    requires { HasEnds nodes.now link.now }
    ensures { whole_key result ≡ link_key nodes.now link.now }
{
    let caller = link.caller.unwrap();
    let site = link.site.unwrap();
    let proc = nodes[link.callee.number() as usize];
    (caller.number(), site.number(), proc.number())
}

/// Whether each context but the first is reached from one of a lower number.
fn all_reached(alloc: Global, contexts: usize, links: &[LinkRow]) -> Result<bool, NoMemory>
    ensures { IfOk result (λ all. IsTrue all ↔ AllReached contexts links.now) }
{
    let reached = reached_contexts(alloc, contexts, links)?;
    Ok(all_but_first(&reached))
}

/// For each context, whether it is reached from one of a lower number.
fn reached_contexts(
    alloc: Global,
    contexts: usize,
    links: &[LinkRow],
) -> Result<Vec<bool>, NoMemory>
    ensures each { IfOk result (λ reached. length reached.items ≡ contexts) }
    ensures right { IfOk result (λ reached. (v : ℕ) → v < contexts → slice_get reached.items v ≡ Some (list_any (leads_down v) links.now)) }
{
    let mut reached = vec![in alloc; false; contexts]?;
    for link in links {
        mark(&mut reached, link);
    }
    Ok(reached)
}

/// Marks the context to which a link leads from one of a lower number.
fn mark(reached: &mut [bool], link: &LinkRow)
    ensures { (v : ℕ) → v < length reached.old → slice_get reached.new v ≡ option_map (λ was. was || leads_down v link.now) (slice_get reached.old v) }
{
    let callee = link.callee.number() as usize;
    if callee < reached.len() && comes_from_below(link.caller, link.callee) {
        reached[callee] = true;
    }
}

fn comes_from_below(caller: Option<PdId>, callee: PdId) -> bool
    ensures { result ≡ is_below caller callee }
{
    match caller {
        Some(caller) => caller.number() < callee.number(),
        None => false,
    }
}

/// Whether all but the first are true.
fn all_but_first(reached: &[bool]) -> bool
    ensures { IsTrue result ↔ ((v : ℕ) → 0 < v → v < length reached.now → slice_get reached.now v ≡ Some true) }
{
    match reached {
        [] => true,
        [_, rest @ ..] => rest.iter().all(|is_reached| *is_reached),
    }
}
