// The contexts and links that were read.
ghost use Rattle.std.specs.Prelude.{◌≡◌, ◌++◌, ◌∷◌, [], ◌<◌, ◌-◌, not, true, false, length, slice_get, None, Some, IfOk, OnOk, OnErr, IsTrue};
ghost use Rattle.md_deepfile.specs.Rules.{has_any_key, orphan_from};

use crate::seats::LinkKeys;
use md_base::{Counts, NoMemory, PdId, ProcId, SiteId};
use md_dynamic::LinkRow;
use std::alloc::Global;
use std::marker::Model;

/// Contexts and links in their order. The links' callers, sites and called procedures are kept so that one that was there
/// before is found at once, and each context has a mark whether a link leads to it from one of a lower number.
#[derive(Drop)]
pub struct Graph {
    nodes: Vec<ProcId>,
    links: Vec<LinkRow>,
    keys: LinkKeys,
    reached: Vec<bool>,
}

impl Model for Graph {
    ghost use Rattle.md_deepfile.specs.Sets.{GraphRows, AreGraph, has_seated};

    ghost Value = { GraphRows };

    ghost view = { λ g. record { nodes = g.nodes.items; links = g.links.items } };

    ghost invariant = { λ g. AreGraph g.nodes.items g.links.items (has_seated g.keys) g.reached.items };
}

impl Graph {
    /// No contexts and no links.
    pub fn new(alloc: Global) -> Graph
        ensures { result ≡ record { nodes = []; links = [] } }
    {
        Graph {
            nodes: Vec::new(alloc),
            links: Vec::new(alloc),
            keys: LinkKeys::new(alloc),
            reached: Vec::new(alloc),
        }
    }

    /// The procedure of each context.
    pub fn nodes(&self) -> &[ProcId]
        ensures { result.now ≡ self.now.nodes }
    {
        self.nodes.as_slice()
    }

    /// How many links there are.
    pub fn link_count(&self) -> usize
        ensures { result ≡ length self.now.links }
    {
        self.links.len()
    }

    /// Adds a context of this procedure.
    pub fn add_context(&mut self, proc: ProcId) -> Result<(), NoMemory>
        ensures added { OnOk result (self.new ≡ record self.old { nodes = self.old.nodes ++ proc ∷ [] }) }
        ensures refused { OnErr result (self.new ≡ self.old) }
    {
        self.seat_context()?;
        self.nodes.reserve(1)?;
        self.reached.push(false)?;
        self.nodes.push(proc)?;
        Ok(())
    }

    /// Gives seats to a context more, where it comes before all links.
    fn seat_context(&mut self) -> Result<(), NoMemory>
        ensures { self.new ≡ self.old }
    {
        if self.links.is_empty() {
            self.keys.add_context()?;
        }
        Ok(())
    }

    /// Adds the root link with these counts.
    pub fn add_root(&mut self, own: Counts) -> Result<(), NoMemory>
        ensures added { OnOk result (self.new ≡ record self.old { links = self.old.links ++ record { caller = None; site = None; callee = 0; own = own } ∷ [] }) }
        ensures refused { OnErr result (self.new ≡ self.old) }
    {
        self.links.push(LinkRow {
            caller: None,
            site: None,
            callee: PdId::new(0),
            own,
        })?;
        Ok(())
    }

    /// Adds a link to a context that is there, and answers whether none of the same caller, site and procedure was there
    /// before. Otherwise nothing is added.
    pub fn add_link(
        &mut self,
        caller: u32,
        site: u32,
        callee: u32,
        own: Counts,
    ) -> Result<bool, NoMemory>
        requires { callee < length self.old.nodes }
        ensures added { IfOk result (λ added. added ≡ not (has_any_key self.old.nodes self.old.links caller site (slice_get self.old.nodes callee))) }
        ensures links { IfOk result (λ added. added ≡ true
            → self.new ≡ record self.old { links = self.old.links ++ record { caller = Some caller; site = Some site; callee = callee; own = own } ∷ [] }) }
        ensures kept { IfOk result (λ added. added ≡ false → self.new ≡ self.old) }
        ensures refused { OnErr result (self.new ≡ self.old) }
    {
        let proc = self.nodes[callee as usize].number();
        self.links.reserve(1)?;
        if !self.keys.insert(caller, site, proc)? {
            return Ok(false);
        }
        self.links.push(LinkRow {
            caller: Some(PdId::new(caller)),
            site: Some(SiteId::new(site)),
            callee: PdId::new(callee),
            own,
        })?;
        if caller < callee {
            self.reached[callee as usize] = true;
        }
        Ok(true)
    }

    /// The lowest context above 0 to which no link leads from one of a lower number.
    pub fn first_orphan(&self) -> Option<usize>
        ensures { result ≡ orphan_from self.now.links 1 (length self.now.nodes - 1) }
    {
        for context in 1..self.reached.len() {
            if !self.reached[context] {
                return Some(context);
            }
        }
        None
    }

    /// The contexts and the links. Takes no memory.
    pub fn into_rows(self) -> (Vec<ProcId>, Vec<LinkRow>)
        ensures nodes { result.0.items ≡ self.nodes }
        ensures links { result.1.items ≡ self.links }
    {
        (self.nodes, self.links)
    }
}
