// Which contexts are the outermost with their keys: no context above them on their path has the same.
ghost use Rattle.std.specs.Prelude.{◌≡◌, ◌<◌, ◌^◌, IfOk, length};
ghost use Rattle.md_dynamic.specs.Valid.{IsValid};
ghost use Rattle.md_cost.specs.Outermost.{AreOutermost};
ghost use Rattle.md_cost.specs.Paths.{EntriesRise};
ghost use Rattle.md_cost.specs.Tree.{IsTree};

use crate::claims::Claims;
use crate::descent::{Children, below, descend};
use crate::keys::{Keys, keys_of};
use crate::tree::Tree;
use md_base::NoMemory;
use md_dynamic::Profile;
use std::alloc::Global;

/// For each kind of key and each context, whether it has a key of the kind and no context above it on its path has the
/// same.
#[derive(Drop)]
pub struct Outermost {
    pub procedures: Vec<bool>,
    pub modules: Vec<bool>,
    pub sites: Vec<bool>,
}

/// Finds the outermost contexts. Each context is entered once and left once, on a walk down from those of clique 0.
#[inline(never)]
pub fn find_outermost(alloc: Global, profile: &Profile, tree: &Tree) -> Result<Outermost, NoMemory>
    requires valid { IsValid profile.now }
    requires tree { IsTree (length profile.now.nodes) profile.now.links tree.now.cliques tree.now.entries.items }
    requires rise { EntriesRise tree.now.cliques tree.now.entries.items profile.now.links }
    ensures { IfOk result (λ found. AreOutermost profile.now tree.now.cliques tree.now.entries.items found) }
{
    let size = profile.nodes().len();
    let nodes = size as u32;
    let statics = profile.statics();
    let Children { first, next, up } = descend(alloc, tree, profile.links(), nodes)?;
    let mut walk = Walk {
        at: nodes,
        first,
        procedures: Claims::none(alloc, statics.procs().len(), size)?,
        modules: Claims::none(alloc, statics.modules().len(), size)?,
        sites: Claims::none(alloc, statics.sites().len(), size)?,
    };
    while !walk.is_over(nodes) {
        walk.step(profile, tree, &next, &up);
    }
    let Walk {
        at: _,
        first: _,
        procedures,
        modules,
        sites,
    } = walk;
    Ok(Outermost {
        procedures: procedures.outermost,
        modules: modules.outermost,
        sites: sites.outermost,
    })
}

impl Outermost {
    ghost use Rattle.std.specs.Prelude.{◌≡◌, ◌<◌, length};
    ghost use Rattle.md_cost.specs.Walking.{marked_by};

    /// The keys of which a context is the outermost.
    pub fn marks(&self, node: u32, keys: Keys) -> Keys
        requires procedures { node < length self.now.procedures.items }
        requires modules { node < length self.now.modules.items }
        requires sites { node < length self.now.sites.items }
        ensures procedures { result.procedures ≡ marked_by self.now.procedures.items node keys.procedures }
        ensures modules { result.modules ≡ marked_by self.now.modules.items node keys.modules }
        ensures sites { result.sites ≡ marked_by self.now.sites.items node keys.sites }
    {
        let node = node as usize;
        Keys {
            procedures: if self.procedures[node] {
                keys.procedures
            } else {
                None
            },
            modules: if self.modules[node] {
                keys.modules
            } else {
                None
            },
            sites: if self.sites[node] { keys.sites } else { None },
        }
    }
}

/// Where a walk is, the number past the last context being above all; a bound of the first context below each that was
/// not entered; and what it knows of the keys of each kind.
#[derive(Drop)]
pub struct Walk {
    pub at: u32,
    pub first: Vec<u32>,
    pub procedures: Claims,
    pub modules: Claims,
    pub sites: Claims,
}

impl Walk {
    ghost use Rattle.std.specs.Prelude.{◌≡◌, ◌<◌, ◌↔◌, IsTrue, length, map, slice_index, slice_set};
    ghost use Rattle.md_dynamic.specs.Valid.{IsValid};
    ghost use Rattle.md_cost.specs.Outermost.{Enters, Leaves, IsWithin, WalkStands};
    ghost use Rattle.md_cost.specs.Paths.{EntriesRise, start_of};
    ghost use Rattle.md_cost.specs.Tree.{IsTree};
    ghost use Rattle.md_cost.specs.Walking.{AreNexts, AreUps, above, at_bound, work};

    /// Whether it has come back with nothing left to enter.
    fn is_over(&self, nodes: u32) -> bool
        requires { self.now.at < length self.now.first.items }
        ensures { IsTrue result ↔ ((self.now.at ≡ nodes) × (slice_index self.now.first.items self.now.at ≡ 0)) }
    {
        self.at == nodes && self.first[self.at as usize] == 0
    }

    /// Enters the next context below, or leaves this one.
    fn step(&mut self, profile: &Profile, tree: &Tree, next: &[u32], up: &[u32])
        requires valid { IsValid profile.now }
        requires tree { IsTree (length profile.now.nodes) profile.now.links tree.now.cliques tree.now.entries.items }
        requires rise { EntriesRise tree.now.cliques tree.now.entries.items profile.now.links }
        requires nexts { AreNexts (length tree.now.cliques) (above tree.now.cliques (start_of profile.now.links tree.now.entries.items)) (map at_bound next.now) }
        requires ups { AreUps (length tree.now.cliques) (above tree.now.cliques (start_of profile.now.links tree.now.entries.items)) up.now }
        requires stands { WalkStands profile.now tree.now.cliques tree.now.entries.items self.old }
        requires more { (self.old.at ≡ length tree.now.cliques) × (slice_index self.old.first.items self.old.at ≡ 0) → ⊥ }
        ensures stands { WalkStands profile.now tree.now.cliques tree.now.entries.items self.new }
        ensures less { work tree.now.cliques (map at_bound self.new.first.items) self.new.at < work tree.now.cliques (map at_bound self.old.first.items) self.old.at }
    {
        match below(self.first[self.at as usize]) {
            Some(child) => {
                let keys = keys_of(profile, tree, child);
                self.enter(child, next[child as usize], keys);
            }
            None => {
                let keys = keys_of(profile, tree, self.at);
                self.leave(up[self.at as usize], keys);
            }
        }
    }

    /// Enters a context below, of which the next one has this bound.
    fn enter(&mut self, child: u32, next: u32, keys: Keys)
        requires at { self.old.at < length self.old.first.items }
        requires procedures { IsWithin child keys.procedures self.old.procedures }
        requires modules { IsWithin child keys.modules self.old.modules }
        requires sites { IsWithin child keys.sites self.old.sites }
        ensures at { self.new.at ≡ child }
        ensures first { self.new.first.items ≡ slice_set self.old.first.items self.old.at next }
        ensures procedures { Enters child keys.procedures self.old.procedures self.new.procedures }
        ensures modules { Enters child keys.modules self.old.modules self.new.modules }
        ensures sites { Enters child keys.sites self.old.sites self.new.sites }
    {
        self.first[self.at as usize] = next;
        self.procedures.enter(child, keys.procedures);
        self.modules.enter(child, keys.modules);
        self.sites.enter(child, keys.sites);
        self.at = child;
    }

    /// Leaves a context for the one above it.
    fn leave(&mut self, up: u32, keys: Keys)
        requires procedures { IsWithin self.old.at keys.procedures self.old.procedures }
        requires modules { IsWithin self.old.at keys.modules self.old.modules }
        requires sites { IsWithin self.old.at keys.sites self.old.sites }
        ensures at { self.new.at ≡ up }
        ensures first { self.new.first.items ≡ self.old.first.items }
        ensures procedures { Leaves self.old.at keys.procedures self.old.procedures self.new.procedures }
        ensures modules { Leaves self.old.at keys.modules self.old.modules self.new.modules }
        ensures sites { Leaves self.old.at keys.sites self.old.sites self.new.sites }
    {
        self.procedures.leave(self.at, keys.procedures);
        self.modules.leave(self.at, keys.modules);
        self.sites.leave(self.at, keys.sites);
        self.at = up;
    }
}
