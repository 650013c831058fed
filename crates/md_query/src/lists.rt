// Which procedures, contexts and call sites a page lists.
ghost use Rattle.std.specs.Prelude.{◌≡◌, ◌<◌, ◌==◌, ◌^◌, ℕ, All, IfOk, length, slice_index};
ghost use Rattle.std.specs.List.{range_with_len, position};
ghost use Rattle.std.specs.Str.{bytes_eq};
ghost use Rattle.md_clique.specs.Places.{places};

use md_base::{Name, NoMemory, PdId, ProcId};
use md_cost::Loaded;
use md_static::{Proc, Site};
use std::alloc::Global;

/// The numbers below `count`.
pub fn numbers_below(alloc: Global, count: u32) -> Result<Vec<u32>, NoMemory>
    ensures { IfOk result (λ ids. ids.items ≡ range_with_len 0 count) }
{
    let mut ids = Vec::new(alloc);
    for id in 0..count {
        ids.push(id)?;
    }
    Ok(ids)
}

/// The first context of a procedure, if it has one.
pub fn first_context(loaded: &Loaded, id: ProcId) -> Option<PdId>
    requires { id < length loaded.now.profile.statics.procs }
    ensures { result ≡ position (λ p. p == id) loaded.now.profile.nodes }
{
    match loaded.contexts_of(id).first() {
        Some(node) => Some(PdId::new(*node)),
        None => None,
    }
}

/// The call sites of a procedure, in rising order.
pub fn sites_of(alloc: Global, sites: &[Site], id: ProcId) -> Result<Vec<u32>, NoMemory>
    requires { length sites.now < 2 ^ 32 }
    ensures { IfOk result (λ found. found.items ≡ places (λ s. s.owner == id) sites.now) }
{
    let mut found = Vec::new(alloc);
    for (number, site) in sites.iter().enumerate() {
        if site.owner.number() == id.number() {
            found.push(number as u32)?;
        }
    }
    Ok(found)
}

/// The procedures of a module, in rising order.
pub fn procs_of_module(alloc: Global, procs: &[Proc], id: u32) -> Result<Vec<u32>, NoMemory>
    requires { length procs.now < 2 ^ 32 }
    ensures { IfOk result (λ found. found.items ≡ places (λ p. p.«module» == id) procs.now) }
{
    let mut found = Vec::new(alloc);
    for (number, proc) in procs.iter().enumerate() {
        if proc.module == id {
            found.push(number as u32)?;
        }
    }
    Ok(found)
}

/// How many procedures each module has.
pub fn sizes_of_modules(alloc: Global, procs: &[Proc], count: usize) -> Result<Vec<u32>, NoMemory>
    requires few { length procs.now < 2 ^ 32 }
    requires below { All (λ p. p.«module» < count) procs.now }
    ensures each { IfOk result (λ sizes. length sizes.items ≡ count) }
    ensures sizes { IfOk result (λ sizes. (k : ℕ) → k < count → slice_index sizes.items k ≡ length (places (λ p. p.«module» == k) procs.now)) }
{
    let mut sizes = vec![in alloc; 0; count]?;
    for proc in procs {
        let size = sizes[proc.module as usize] + 1;
        sizes[proc.module as usize] = size;
    }
    Ok(sizes)
}

/// The number of the first module of this name.
pub fn module_named(names: &[Name], name: &[u8]) -> Option<u32>
    requires { length names.now < 2 ^ 32 }
    ensures { result ≡ position (λ m. bytes_eq m name.now) names.now }
{
    match place_of(names, name) {
        Some(number) => Some(number as u32),
        None => None,
    }
}

/// The place of the first of these names that is this one.
fn place_of(names: &[Name], name: &[u8]) -> Option<usize>
    ensures { result ≡ position (λ m. bytes_eq m name.now) names.now }
{
    names.iter().position(|found| found.as_bytes() == name)
}
