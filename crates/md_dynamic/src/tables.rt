// Contexts and links by number, and one active context per procedure.
ghost use Rattle.std.specs.Prelude.{ℕ, ◌≡◌, ◌<◌, ◌≤◌, ◌+◌, ◌^◌, length, take, drop, slice_get, replicate, vec_capacity, IfOk, OnOk, Some};
ghost use Rattle.md_static.specs.Sites.{sites_of};
ghost use Rattle.md_dynamic.specs.Links.{link_row, root_row};

use crate::link::LinkRow;
use crate::profile::Profile;
use crate::slot::{CalleeKey, Slot, empty_slots, enter, find, push_empty};
use crate::span::{Span, spans_of};
use indexmap::IndexMap;
use md_base::{Counts, CsdId, Measure, NoMemory, PdId, ProcId, SiteId, Steps};
use md_static::{Site, Statics};
use std::alloc::Global;
use std::marker::Model;
use std::sync::ledger::Ledger;

/// The contexts and links of a run. Context 0 is that of the main procedure, and link 0, the root link, leads to it.
///
/// The slots of all contexts stand in one vector, and each context keeps where its own begin; the links of all higher-order
/// sites stand in one map, and the slot of such a site has the one that was used last, which is looked at first. So a context
/// with its link and one slot takes 60 bytes, beside the room that vectors grow by. There is no room for more than 4,294,967,295 slots.
///
/// Each call takes a number of table steps: a step is one read, one write or one adding of a row, a slot or an active
/// pointer, or one look-up or one adding in the map.
#[derive(Drop)]
pub struct Tables {
    statics: Statics,
    spans: Vec<Span>,
    nodes: Vec<ProcId>,
    /// For each context where its slots begin, less the number of its procedure's first site, by 32 bits.
    bases: Vec<u32>,
    slots: Vec<Slot>,
    callees: IndexMap<CalleeKey, CsdId>,
    links: Vec<LinkRow>,
    active: Vec<Option<PdId>>,
}

impl Model for Tables {
    ghost use Rattle.md_dynamic.specs.Rows.{Rows, AreTables};

    ghost Value = { Rows };

    ghost view = { λ t. record { statics = t.statics; nodes = t.nodes.items; links = t.links.items; active = t.active.items } };

    ghost invariant = { λ t. AreTables t.statics t.spans.items t.nodes.items t.bases.items t.slots.items t.callees.entries t.links.items t.active.items };
}

impl Tables {
    ghost use Rattle.std.specs.Prelude.{◌≡◌, ◌<◌, ◌≤◌, ◌+◌, ◌↔◌, length, slice_get, slice_set, IfSome, IfOk, IsTrue, OnOk, OnErr, Some};
    ghost use Rattle.std.specs.Option.{option_map};
    ghost use Rattle.md_trace.specs.Count.{with_more};
    ghost use Rattle.md_static.specs.Sites.{sites_of};
    ghost use Rattle.md_static.specs.Sound.{IsSound};
    ghost use Rattle.md_dynamic.specs.Spans.{span_of};
    ghost use Rattle.md_dynamic.specs.Rows.{Rows, Owns, IsPlainSite, IsHigherOrderSite, MayLead, IsFresh, Adds, AddsLink, AddsContext, add_cost, first_rows, place_in, link_in, callee_in};

    /// The tables of a run that has not begun: context 0 of the main procedure, link 0 to it with counts of 0, empty
    /// slots, no callees, and no active context.
    pub fn new(alloc: Global, statics: Statics, main: ProcId) -> Result<Tables, NoMemory>
        requires sound { IsSound statics }
        requires main_there { main < length statics.procs }
        ensures { IfOk result (λ tables. tables ≡ first_rows statics main) }
    {
        let procs = statics.procs().len();
        let spans = spans_of(alloc, procs, statics.sites())?;
        let own = spans[main.number() as usize];
        let slots = empty_slots(alloc, own.count)?;
        let nodes = vec![in alloc; main]?;
        let bases = vec![in alloc; 0u32.wrapping_sub(own.first)]?;
        let links = vec![in alloc; root_link()]?;
        let active = no_pointers(alloc, procs)?;
        Ok(Tables {
            statics,
            spans,
            nodes,
            bases,
            slots,
            callees: IndexMap::new(alloc),
            links,
            active,
        })
    }

    /// A call site, as the program's tables have it. No table step: these tables never change.
    pub fn site(&self, site: SiteId) -> Site
        requires { site < length self.now.statics.sites }
        ensures { slice_get self.now.statics.sites site ≡ Some result }
    {
        self.statics.sites()[site.number() as usize]
    }

    /// The procedure of a context. One table step.
    pub fn proc_of<L: Ledger>(&self, node: PdId, steps: &mut Steps<L>) -> ProcId
        requires { node < length self.now.nodes }
        ensures value { slice_get self.now.nodes node ≡ Some result }
        ensures cost { steps.new ≡ steps.old + 1 }
    {
        steps.tick();
        self.nodes[node.number() as usize]
    }

    /// The context to which a link leads. One table step.
    pub fn end_of<L: Ledger>(&self, link: CsdId, steps: &mut Steps<L>) -> PdId
        requires { link < length self.now.links }
        ensures value { option_map (λ row. row.callee) (slice_get self.now.links link) ≡ Some result }
        ensures cost { steps.new ≡ steps.old + 1 }
    {
        steps.tick();
        self.links[link.number() as usize].callee
    }

    /// The active context of a procedure, if there is one. One table step.
    pub fn active<L: Ledger>(&self, callee: ProcId, steps: &mut Steps<L>) -> Option<PdId>
        requires { callee < length self.now.statics.procs }
        ensures value { slice_get self.now.active callee ≡ Some result }
        ensures of_callee { IfSome result (λ v. slice_get self.now.nodes v ≡ Some callee) }
        ensures cost { steps.new ≡ steps.old + 1 }
    {
        steps.tick();
        self.active[callee.number() as usize]
    }

    /// Makes a context of the procedure, or none, its active one. One table step.
    pub fn set_active<L: Ledger>(&mut self, callee: ProcId, to: Option<PdId>, steps: &mut Steps<L>)
        requires there { callee < length self.old.statics.procs }
        requires of_callee { IfSome to (λ v. slice_get self.old.nodes v ≡ Some callee) }
        ensures value { self.new ≡ record self.old { active = slice_set self.old.active callee to } }
        ensures statics { self.new.statics ≡ self.old.statics }
        ensures cost { steps.new ≡ steps.old + 1 }
    {
        steps.tick();
        self.active[callee.number() as usize] = to;
    }

    /// The link of a plain site in a context, or none where its slot is empty. Two table steps.
    pub fn slot<L: Ledger>(&self, node: PdId, site: SiteId, steps: &mut Steps<L>) -> Option<CsdId>
        requires owned { Owns self.now node site }
        requires plain { IsPlainSite self.now site }
        ensures value { result ≡ link_in self.now node site }
        ensures cost { steps.new ≡ steps.old + 2 }
    {
        steps.tick();
        steps.tick();
        self.slots[self.place(node, site)].link()
    }

    /// The link of a callee at a higher-order site in a context, or none where the map has none. One table step.
    pub fn find<L: Ledger>(
        &self,
        node: PdId,
        site: SiteId,
        callee: ProcId,
        steps: &mut Steps<L>,
    ) -> Option<CsdId>
        requires owned { Owns self.now node site }
        requires higher_order { IsHigherOrderSite self.now site }
        ensures value { result ≡ callee_in self.now node site callee }
        ensures cost { steps.new ≡ steps.old + 1 }
    {
        steps.tick();
        self.look_up(self.place(node, site), CalleeKey { node, site, callee })
    }

    /// The same, after which the site's slot has the link that was found, so that the next look-up of this callee finds it
    /// there. One table step, since the slot is a part of the look-up.
    pub fn find_again<L: Ledger>(
        &mut self,
        node: PdId,
        site: SiteId,
        callee: ProcId,
        steps: &mut Steps<L>,
    ) -> Option<CsdId>
        requires owned { Owns self.old node site }
        requires higher_order { IsHigherOrderSite self.old site }
        ensures value { result ≡ callee_in self.old node site callee }
        ensures same { self.new ≡ self.old }
        ensures statics { self.new.statics ≡ self.old.statics }
        ensures cost { steps.new ≡ steps.old + 1 }
    {
        steps.tick();
        let place = self.place(node, site);
        let found = self.look_up(place, CalleeKey { node, site, callee });
        if let Some(link) = found {
            self.slots[place] = Slot::of(link);
        }
        found
    }

    /// Adds to a measure of a link, up to 4,294,967,295. Two table steps.
    pub fn count<L: Ledger>(&mut self, link: CsdId, measure: Measure, by: u32, steps: &mut Steps<L>)
        requires { link < length self.old.links }
        ensures value { IfSome (slice_get self.old.links link) (λ row. self.new ≡ record self.old { links = slice_set self.old.links link (record row { own = with_more row.own measure by }) }) }
        ensures statics { self.new.statics ≡ self.old.statics }
        ensures cost { steps.new ≡ steps.old + 2 }
    {
        steps.tick();
        steps.tick();
        self.links[link.number() as usize].own.add(measure, by);
    }

    /// Adds a link of a site in a context, with that many calls and other counts of 0, and puts it into the site's slot
    /// or into the map of callees. It leads to `to`, or to a new context of `callee` where there is none. Three table steps,
    /// or four and one for each call site of the callee where the context is new. Memory is taken first; where it is refused
    /// all is as before.
    pub fn add<L: Ledger>(
        &mut self,
        node: PdId,
        site: SiteId,
        callee: ProcId,
        to: Option<PdId>,
        calls: u32,
        steps: &mut Steps<L>,
    ) -> Result<CsdId, NoMemory>
        requires owned { Owns self.old node site }
        requires may_lead { MayLead self.old site callee }
        requires fresh { IsFresh self.old node site callee }
        requires of_callee { IfSome to (λ v. slice_get self.old.nodes v ≡ Some callee) }
        requires room { length self.old.links < 4294967295 }
        ensures ok { IfOk result (λ link. Adds self.old self.new node site callee to calls link) }
        ensures err { OnErr result (self.new ≡ self.old) }
        ensures statics { self.new.statics ≡ self.old.statics }
        ensures cost { OnOk result (steps.new ≡ steps.old + add_cost self.old callee to) }
        ensures cost_refused { OnErr result (steps.new ≤ steps.old + add_cost self.old callee to) }
        ensures forward { steps.old ≤ steps.new }
    {
        match to {
            Some(end) => self.add_link(node, site, callee, end, calls, steps),
            None => self.add_context(node, site, callee, calls, steps),
        }
    }

    /// Adds a link that leads to a context that is there.
    fn add_link<L: Ledger>(
        &mut self,
        node: PdId,
        site: SiteId,
        callee: ProcId,
        to: PdId,
        calls: u32,
        steps: &mut Steps<L>,
    ) -> Result<CsdId, NoMemory>
        requires owned { Owns self.old node site }
        requires fresh { IsFresh self.old node site callee }
        requires of_callee { slice_get self.old.nodes to ≡ Some callee }
        requires room { length self.old.links < 4294967295 }
        ensures ok { IfOk result (λ link. AddsLink self.old self.new node site callee to calls link) }
        ensures err { OnErr result (self.new ≡ self.old) }
        ensures statics { self.new.statics ≡ self.old.statics }
        ensures cost { OnOk result (steps.new ≡ steps.old + 3) }
        ensures cost_refused { OnErr result (steps.new ≤ steps.old + 3) }
        ensures forward { steps.old ≤ steps.new }
    {
        let place = self.place(node, site);
        let kind = self.site(site).kind;
        let link = CsdId::new(self.links.len() as u32);
        let key = CalleeKey { node, site, callee };
        self.links.reserve(1)?;
        steps.tick();
        steps.tick();
        enter(&mut self.slots, &mut self.callees, kind, place, key, link)?;
        steps.tick();
        self.links.push_reserved(row(node, site, to, calls));
        Ok(link)
    }

    /// Adds a context of the callee, and a link that leads to it.
    fn add_context<L: Ledger>(
        &mut self,
        node: PdId,
        site: SiteId,
        callee: ProcId,
        calls: u32,
        steps: &mut Steps<L>,
    ) -> Result<CsdId, NoMemory>
        requires owned { Owns self.old node site }
        requires may_lead { MayLead self.old site callee }
        requires fresh { IsFresh self.old node site callee }
        requires room { length self.old.links < 4294967295 }
        ensures ok { IfOk result (λ link. AddsContext self.old self.new node site callee calls link) }
        ensures err { OnErr result (self.new ≡ self.old) }
        ensures statics { self.new.statics ≡ self.old.statics }
        ensures cost { OnOk result (steps.new ≡ steps.old + (4 + length (sites_of callee self.old.statics.sites))) }
        ensures cost_refused { OnErr result (steps.new ≤ steps.old + (4 + length (sites_of callee self.old.statics.sites))) }
        ensures forward { steps.old ≤ steps.new }
    {
        let place = self.place(node, site);
        let kind = self.site(site).kind;
        let own = self.span(callee);
        let link = CsdId::new(self.links.len() as u32);
        let key = CalleeKey { node, site, callee };
        let (links, nodes) = (&mut self.links, &mut self.nodes);
        take_room(links, nodes, &mut self.bases, &mut self.slots, own.count)?;
        let base = (self.slots.len() as u32).wrapping_sub(own.first);
        let end = PdId::new(self.nodes.len() as u32);
        steps.tick();
        steps.tick();
        enter(&mut self.slots, &mut self.callees, kind, place, key, link)?;
        steps.tick();
        self.nodes.push_reserved(callee);
        self.bases.push_reserved(base);
        push_empty(&mut self.slots, own.count, steps);
        steps.tick();
        self.links.push_reserved(row(node, site, end, calls));
        Ok(link)
    }

    /// The link of a callee of a higher-order site: the one in the site's slot where it leads to a context of the callee,
    /// or the one that the map has.
    fn look_up(&self, place: usize, key: CalleeKey) -> Option<CsdId>
        requires owned { Owns self.now key.node key.site }
        requires higher_order { IsHigherOrderSite self.now key.site }
        requires place { place ≡ place_in self.now key.node key.site }
        ensures { result ≡ callee_in self.now key.node key.site key.callee }
    {
        match self.slots[place].link() {
            Some(link) if self.leads_to(link, key.callee) => Some(link),
            _ => find(&self.callees, key),
        }
    }

    /// Whether a link leads to a context of this procedure.
    fn leads_to(&self, link: CsdId, callee: ProcId) -> bool
        requires { link < length self.now.links }
        ensures { IfSome (slice_get self.now.links link) (λ row. IsTrue result ↔ slice_get self.now.nodes row.callee ≡ Some callee) }
    {
        let end = self.links[link.number() as usize].callee;
        self.nodes[end.number() as usize] == callee
    }

    /// Where the call sites of a procedure stand.
    fn span(&self, proc: ProcId) -> Span
        requires { proc < length self.now.statics.procs }
        ensures { result ≡ span_of self.now.statics.sites proc }
    {
        self.spans[proc.number() as usize]
    }

    /// The place of a site's slot in a context among all slots.
    fn place(&self, node: PdId, site: SiteId) -> usize
        requires { Owns self.now node site }
        ensures { result ≡ place_in self.now node site }
    {
        let base = self.bases[node.number() as usize];
        base.wrapping_add(site.number()) as usize
    }
}

/// Takes room for a link and for a context that has so many slots. There is none for more slots than numbers of 32 bits.
fn take_room(
    links: &mut Vec<LinkRow>,
    nodes: &mut Vec<ProcId>,
    bases: &mut Vec<u32>,
    slots: &mut Vec<Slot>,
    own: u32,
) -> Result<(), NoMemory>
    ensures links { links.new.items ≡ links.old.items }
    ensures nodes { nodes.new.items ≡ nodes.old.items }
    ensures bases { bases.new.items ≡ bases.old.items }
    ensures slots { slots.new.items ≡ slots.old.items }
    ensures link_room { OnOk result (length links.new.items < vec_capacity links.new) }
    ensures node_room { OnOk result (length nodes.new.items < vec_capacity nodes.new) }
    ensures first_room { OnOk result (length bases.new.items < vec_capacity bases.new) }
    ensures slot_room { OnOk result (length slots.new.items + own ≤ vec_capacity slots.new) }
    ensures few_slots { OnOk result (length slots.new.items + own < 2 ^ 32) }
{
    if slots.len() + own as usize > u32::MAX as usize {
        return Err(NoMemory);
    }
    links.reserve(1)?;
    nodes.reserve(1)?;
    bases.reserve(1)?;
    slots.reserve(own as usize)?;
    Ok(())
}

/// The root link before the run.
fn root_link() -> LinkRow
    ensures { result ≡ root_row }
{
    LinkRow {
        caller: None,
        site: None,
        callee: PdId::new(0),
        own: Counts::default(),
    }
}

/// No active context, for each procedure.
fn no_pointers(alloc: Global, procs: usize) -> Result<Vec<Option<PdId>>, NoMemory>
    ensures { IfOk result (λ active. active.items ≡ replicate procs None) }
{
    Ok(vec![in alloc; None; procs]?)
}

/// A link with that many calls and other counts of 0.
fn row(node: PdId, site: SiteId, to: PdId, calls: u32) -> LinkRow
    ensures { result ≡ link_row node site to calls }
{
    LinkRow {
        caller: Some(node),
        site: Some(site),
        callee: to,
        own: Counts {
            calls,
            ..Counts::default()
        },
    }
}

impl Tables {
    /// The profile of what the tables hold. Takes no memory.
    pub fn freeze(self, finished: bool) -> Profile
        ensures { result ≡ record { statics = self.statics; nodes = self.nodes; links = self.links; finished = finished } }
    {
        let Tables {
            statics,
            spans: _,
            nodes,
            bases: _,
            slots: _,
            callees: _,
            links,
            active: _,
        } = self;
        Profile::from_parts(statics, nodes, links, finished)
    }
}
