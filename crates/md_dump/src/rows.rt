// What was read of a profile so far, line by line.
ghost use Rattle.std.specs.Prelude.{◌≡◌, ◌-◌, IfOk, length, option_map};
ghost use Rattle.md_deepfile.specs.Rules.{begun, last_owner, fits_site, orphan_from};
ghost use Rattle.md_dump.specs.Due.{must, lines_behind};
ghost use Rattle.md_dump.specs.Grown.{rows_of};
ghost use Rattle.md_dump.specs.Lines.{Next, module_due, proc_due, site_due, is_fine_site, is_there, kind_called, context_due, root_due, other_due, link_due, thing_due};

use crate::form::{SiteLine, context_form, link_form, proc_form, root_form, site_form};
use crate::section::Section;
use md_base::{NoMemory, ProcId};
use md_deepfile::{Graph, Modules, Procs, joins};
use md_dynamic::Profile;
use md_static::{Site, SiteKind, Statics};
use std::alloc::Global;

/// A profile that grows line by line, never by a count that a line names.
#[derive(Drop)]
pub(crate) struct Rows {
    pub(crate) alloc: Global,
    pub(crate) finished: bool,
    pub(crate) modules: Modules,
    pub(crate) procs: Procs,
    pub(crate) sites: Vec<Site>,
    pub(crate) graph: Graph,
}

// Each call adds what a line says, and answers whether the line is of its form and keeps the rules beside what came before.
impl Rows {
    pub(crate) fn new(alloc: Global, finished: bool) -> Rows
        ensures { rows_of result ≡ begun finished }
    {
        Rows {
            alloc,
            finished,
            modules: Modules::new(alloc),
            procs: Procs::new(alloc),
            sites: Vec::new(alloc),
            graph: Graph::new(alloc),
        }
    }

    /// Adds a line of a section.
    pub(crate) fn add(&mut self, section: Section, line: &[u8]) -> Result<bool, NoMemory>
        ensures { IfOk result (λ fine. (next : Next) → thing_due section (rows_of self.old) next line.now ≡ must fine (next (rows_of self.new))) }
    {
        match section {
            Section::Modules => self.add_module(line),
            Section::Procs => self.add_proc(line),
            Section::Sites => self.add_site(line),
            Section::Contexts => self.add_context(line),
            Section::Links => self.add_link(line),
        }
    }

    fn add_module(&mut self, line: &[u8]) -> Result<bool, NoMemory>
        ensures { IfOk result (λ fine. (next : Next) → module_due (rows_of self.old) next line.now ≡ must fine (next (rows_of self.new))) }
    {
        self.modules.add(self.alloc, line)
    }

    fn add_proc(&mut self, line: &[u8]) -> Result<bool, NoMemory>
        ensures { IfOk result (λ fine. (next : Next) → proc_due (rows_of self.old) next line.now ≡ must fine (next (rows_of self.new))) }
    {
        let Some(proc) = proc_form(line) else {
            return Ok(false);
        };
        if proc.home as usize >= self.modules.len() {
            return Ok(false);
        }
        if !self.procs.is_new(self.alloc, proc.home, proc.name)? {
            return Ok(false);
        }
        self.procs
            .push(self.alloc, proc.home, proc.name, proc.arity)?;
        Ok(true)
    }

    fn add_site(&mut self, line: &[u8]) -> Result<bool, NoMemory>
        ensures { IfOk result (λ fine. (next : Next) → site_due (rows_of self.old) next line.now ≡ must fine (next (rows_of self.new))) }
    {
        let Some(site) = site_form(line) else {
            return Ok(false);
        };
        if !self.is_fine_site(&site) {
            return Ok(false);
        }
        self.sites.push(Site {
            owner: ProcId::new(site.owner),
            line: site.line,
            kind: kind_called(site.callee),
        })?;
        Ok(true)
    }

    fn is_fine_site(&self, site: &SiteLine) -> bool
        ensures { result ≡ is_fine_site (rows_of self.now) site.now }
    {
        let procs = self.procs.len();
        (site.owner as usize) < procs
            && self.last_owner() <= site.owner
            && 1 <= site.line
            && is_there(procs, site.callee)
    }

    /// The owner of the last site, or 0.
    fn last_owner(&self) -> u32
        ensures { result ≡ last_owner (rows_of self.now).statics.sites }
    {
        match self.sites.last() {
            Some(site) => site.owner.number(),
            None => 0,
        }
    }

    fn add_context(&mut self, line: &[u8]) -> Result<bool, NoMemory>
        ensures { IfOk result (λ fine. (next : Next) → context_due (rows_of self.old) next line.now ≡ must fine (next (rows_of self.new))) }
    {
        let Some(proc) = context_form(line) else {
            return Ok(false);
        };
        if proc as usize >= self.procs.len() {
            return Ok(false);
        }
        self.graph.add_context(ProcId::new(proc))?;
        Ok(true)
    }

    fn add_link(&mut self, line: &[u8]) -> Result<bool, NoMemory>
        ensures { IfOk result (λ fine. (next : Next) → link_due (rows_of self.old).links (rows_of self.old) next line.now ≡ must fine (next (rows_of self.new))) }
    {
        if self.graph.link_count() == 0 {
            self.add_root(line)
        } else {
            self.add_other(line)
        }
    }

    fn add_root(&mut self, line: &[u8]) -> Result<bool, NoMemory>
        ensures { IfOk result (λ fine. (next : Next) → root_due (rows_of self.old) next line.now ≡ must fine (next (rows_of self.new))) }
    {
        let Some(own) = root_form(line) else {
            return Ok(false);
        };
        self.graph.add_root(own)?;
        Ok(true)
    }

    fn add_other(&mut self, line: &[u8]) -> Result<bool, NoMemory>
        ensures { IfOk result (λ fine. (next : Next) → other_due (rows_of self.old) next line.now ≡ must fine (next (rows_of self.new))) }
    {
        let Some(link) = link_form(line) else {
            return Ok(false);
        };
        if !self.fits(link.caller, link.site, link.callee) {
            return Ok(false);
        }
        self.graph
            .add_link(link.caller, link.site, link.callee, link.own)
    }

    /// Whether a site of one context's procedure may call that of another.
    fn fits(&self, caller: u32, site: u32, callee: u32) -> bool
        ensures { result ≡ fits_site (rows_of self.now) caller site callee }
    {
        let Some(from) = self.graph.nodes().get(caller as usize) else {
            return false;
        };
        let Some(row) = self.sites.get(site as usize) else {
            return false;
        };
        let Some(to) = self.graph.nodes().get(callee as usize) else {
            return false;
        };
        joins(row, *from, *to)
    }

    /// The line of the lowest context above 0 that is reached from none of a lower number, in a text of so many lines.
    pub(crate) fn orphan_line(&self, last: u32) -> Option<u32>
        ensures { result ≡ option_map (λ v. last - lines_behind (rows_of self.now) v) (orphan_from (rows_of self.now).links 1 (length (rows_of self.now).nodes - 1)) }
    {
        let context = self.graph.first_orphan()?;
        let contexts = self.graph.nodes().len().saturating_sub(context) as u64;
        let behind = contexts.saturating_add(self.graph.link_count() as u64);
        Some(u64::from(last).saturating_sub(behind) as u32)
    }

    /// The profile. Takes no memory.
    pub(crate) fn into_profile(self) -> Profile
        ensures { result ≡ rows_of self }
    {
        let (nodes, links) = self.graph.into_rows();
        let statics = Statics::from_parts(
            self.modules.into_names(),
            self.procs.into_procs(),
            self.sites,
        );
        Profile::from_parts(statics, nodes, links, self.finished)
    }
}

/// Whether a number, where there is one, is below this count.
fn is_there(count: usize, number: Option<u32>) -> bool
    ensures { result ≡ is_there count number }
{
    match number {
        Some(number) => (number as usize) < count,
        None => true,
    }
}

/// What a site calls.
fn kind_called(callee: Option<u32>) -> SiteKind
    ensures { result ≡ kind_called callee }
{
    match callee {
        Some(callee) => SiteKind::Plain(ProcId::new(callee)),
        None => SiteKind::HigherOrder,
    }
}
