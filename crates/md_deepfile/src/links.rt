// The links of a file, field by field.
ghost use Rattle.std.specs.Prelude.{◌≡◌, ◌+◌, ◌-◌, ◌*◌, ◌<◌, ◌≤◌, ◌++◌, ◌∷◌, [], List, ℕ, length, slice_get, slice_index, OnOk, IfOk};
ghost use Rattle.md_deepfile.specs.Fields.{root_own, link_own};
ghost use Rattle.md_deepfile.specs.Format.{read, numbers};
ghost use Rattle.md_deepfile.specs.Rules.{counts_of, fits, fits_site, may_be, link_size};
ghost use Rattle.md_static.specs.Tables.{callee_of};
ghost use Rattle.md_deepfile.specs.State.{state_of, width, number_told, after_number, next_link, HasPlaces, IsReady, Follows, Leads};

use crate::damage::{DecodeFault, Kind};
use crate::part::{Field, NONE, Part};
use crate::reader::Reader;
use md_base::{Counts, ProcId};
use md_static::{Site, SiteKind};

impl Reader {
    pub(crate) fn link_count(&mut self, count: u32) -> Result<(), DecodeFault>
        requires { HasPlaces (after_number Field.LinkCount (state_of self.old)) (state_of self.old) }
        ensures follows { Follows (number_told Field.LinkCount (state_of self.old) count) self.old.at (state_of self.new) result }
        ensures ready { OnOk result (IsReady (state_of self.new)) }
    {
        if count < 1 {
            return Err(self.damage(4, Kind::Range));
        }
        self.more = count - 1;
        self.expect(Field::RootCaller);
        Ok(())
    }

    // The root link.

    pub(crate) fn root_caller(&mut self, caller: u32) -> Result<(), DecodeFault>
        requires { HasPlaces (after_number Field.RootCaller (state_of self.old)) (state_of self.old) }
        ensures follows { Follows (number_told Field.RootCaller (state_of self.old) caller) self.old.at (state_of self.new) result }
        ensures ready { OnOk result (IsReady (state_of self.new)) }
    {
        if caller != NONE {
            return Err(self.damage(4, Kind::Range));
        }
        self.expect(Field::RootSite);
        Ok(())
    }

    pub(crate) fn root_site(&mut self, site: u32) -> Result<(), DecodeFault>
        requires { HasPlaces (after_number Field.RootSite (state_of self.old)) (state_of self.old) }
        ensures follows { Follows (number_told Field.RootSite (state_of self.old) site) self.old.at (state_of self.new) result }
        ensures ready { OnOk result (IsReady (state_of self.new)) }
    {
        if site != NONE {
            return Err(self.damage(4, Kind::Range));
        }
        self.expect(Field::RootCallee);
        Ok(())
    }

    pub(crate) fn root_callee(&mut self, callee: u32) -> Result<(), DecodeFault>
        requires { HasPlaces (after_number Field.RootCallee (state_of self.old)) (state_of self.old) }
        ensures follows { Follows (number_told Field.RootCallee (state_of self.old) callee) self.old.at (state_of self.new) result }
        ensures ready { OnOk result (IsReady (state_of self.new)) }
    {
        if callee != 0 {
            return Err(self.damage(4, Kind::Range));
        }
        self.expect_counts(Field::RootOwn);
        Ok(())
    }

    /// The counts of a link come next.
    fn expect_counts(&mut self, field: Field)
        ensures { state_of self.new ≡ record (state_of self.old) { part = Part.Number field; left = 4; carry = []; wanted = width self.old.version - 1; own = [] } }
    {
        self.wanted = self.version.counts() - 1;
        self.own.clear();
        self.expect(field);
    }

    pub(crate) fn root_count(&mut self, number: u32) -> Result<(), DecodeFault>
        requires { HasPlaces (after_number Field.RootOwn (state_of self.old)) (state_of self.old) }
        ensures follows { Follows (number_told Field.RootOwn (state_of self.old) number) self.old.at (state_of self.new) result }
        ensures ready { OnOk result (IsReady (state_of self.new)) }
    {
        self.own.push(number)?;
        if self.wanted == 0 {
            return self.root_told();
        }
        self.wanted -= 1;
        self.expect(Field::RootOwn);
        Ok(())
    }

    fn root_told(&mut self) -> Result<(), DecodeFault>
        requires { HasPlaces (40 * self.old.more) (state_of self.old) }
        ensures follows { Follows (root_own (state_of self.old).rows (next_link (state_of self.old)) self.old.own.items) self.old.at (state_of self.new) result }
        ensures ready { OnOk result (IsReady (state_of self.new)) }
    {
        self.graph.add_root(counts_of(&self.own))?;
        self.next_link();
        Ok(())
    }

    // Each other link.

    pub(crate) fn next_link(&mut self)
        requires { HasPlaces (40 * self.old.more) (state_of self.old) }
        ensures leads { Leads (next_link (state_of self.old) (state_of self.old).rows) self.old.at (state_of self.new) }
        ensures ready { IsReady (state_of self.new) }
    {
        if self.more == 0 {
            self.part = Part::End;
        } else {
            self.more -= 1;
            self.expect(Field::LinkCaller);
        }
    }

    pub(crate) fn link_caller(&mut self, caller: u32) -> Result<(), DecodeFault>
        requires { HasPlaces (after_number Field.LinkCaller (state_of self.old)) (state_of self.old) }
        ensures follows { Follows (number_told Field.LinkCaller (state_of self.old) caller) self.old.at (state_of self.new) result }
        ensures ready { OnOk result (IsReady (state_of self.new)) }
    {
        if caller as usize >= self.graph.nodes().len() {
            return Err(self.damage(4, Kind::Range));
        }
        self.expect(Field::LinkSite(caller));
        Ok(())
    }

    pub(crate) fn link_site(&mut self, caller: u32, site: u32) -> Result<(), DecodeFault>
        requires { HasPlaces (after_number (Field.LinkSite caller) (state_of self.old)) (state_of self.old) }
        ensures follows { Follows (number_told (Field.LinkSite caller) (state_of self.old) site) self.old.at (state_of self.new) result }
        ensures ready { OnOk result (IsReady (state_of self.new)) }
    {
        if site as usize >= self.sites.len() {
            return Err(self.damage(4, Kind::Range));
        }
        self.expect(Field::LinkCallee(caller, site));
        Ok(())
    }

    pub(crate) fn link_callee(
        &mut self,
        caller: u32,
        site: u32,
        callee: u32,
    ) -> Result<(), DecodeFault>
        requires { HasPlaces (after_number (Field.LinkCallee caller site) (state_of self.old)) (state_of self.old) }
        ensures follows { Follows (number_told (Field.LinkCallee caller site) (state_of self.old) callee) self.old.at (state_of self.new) result }
        ensures ready { OnOk result (IsReady (state_of self.new)) }
    {
        if callee as usize >= self.graph.nodes().len() {
            return Err(self.damage(4, Kind::Range));
        }
        self.expect_counts(Field::LinkOwn(caller, site, callee));
        Ok(())
    }

    pub(crate) fn link_count_of(
        &mut self,
        caller: u32,
        site: u32,
        callee: u32,
        number: u32,
    ) -> Result<(), DecodeFault>
        requires there { callee < length (state_of self.old).rows.nodes }
        requires room { HasPlaces (after_number (Field.LinkOwn caller site callee) (state_of self.old)) (state_of self.old) }
        ensures follows { Follows (number_told (Field.LinkOwn caller site callee) (state_of self.old) number) self.old.at (state_of self.new) result }
        ensures ready { OnOk result (IsReady (state_of self.new)) }
    {
        self.own.push(number)?;
        if self.wanted == 0 {
            return self.link_told(caller, site, callee);
        }
        self.wanted -= 1;
        self.expect(Field::LinkOwn(caller, site, callee));
        Ok(())
    }

    /// The bytes of a link.
    pub(crate) fn link_size(&self) -> u64
        ensures { result ≡ link_size (width self.now.version) }
    {
        12 + 4 * (self.version.counts() as u64)
    }

    fn link_told(&mut self, caller: u32, site: u32, callee: u32) -> Result<(), DecodeFault>
        requires there { callee < length (state_of self.old).rows.nodes }
        requires room { HasPlaces (40 * self.old.more) (state_of self.old) }
        ensures follows { Follows (link_own (width self.old.version) (state_of self.old).rows (next_link (state_of self.old)) caller site callee self.old.own.items) self.old.at (state_of self.new) result }
        ensures ready { OnOk result (IsReady (state_of self.new)) }
    {
        if !self.fits(caller, site, callee) {
            return Err(self.damage(self.link_size(), Kind::SiteMismatch));
        }
        let own = counts_of(&self.own);
        if !self.graph.add_link(caller, site, callee, own)? {
            return Err(self.damage(self.link_size(), Kind::DoubleLink));
        }
        self.next_link();
        Ok(())
    }

    /// Whether a site of one context's procedure may call that of another.
    pub(crate) fn fits(&self, caller: u32, site: u32, callee: u32) -> bool
        ensures { result ≡ fits_site (state_of self.now).rows caller site callee }
    {
        let Some(from) = self.graph.nodes().get(caller as usize) else {
            return false;
        };
        let Some(row) = self.sites.get(site as usize) else {
            return false;
        };
        let Some(to) = self.graph.nodes().get(callee as usize) else {
            return false;
        };
        joins(row, *from, *to)
    }
}

/// Whether a site belongs to one procedure and may call another.
pub fn joins(site: &Site, caller: ProcId, callee: ProcId) -> bool
    ensures { result ≡ fits (Some caller) (Some site.now) (Some callee) }
{
    site.owner.number() == caller.number() && may_be(site.kind, callee)
}

fn may_be(kind: SiteKind, callee: ProcId) -> bool
    ensures { result ≡ may_be (callee_of kind) callee }
{
    match kind {
        SiteKind::Plain(only) => only.number() == callee.number(),
        SiteKind::HigherOrder => true,
    }
}

/// The count at this place, or 0 where there is none.
fn count_at(numbers: &[u32], place: usize) -> u32
    ensures { result ≡ slice_index numbers.now place }
{
    match numbers.get(place) {
        Some(number) => *number,
        None => 0,
    }
}

/// Counts from their numbers in order.
fn counts_of(numbers: &[u32]) -> Counts
    ensures { result ≡ counts_of numbers.now }
{
    Counts {
        calls: count_at(numbers, 0),
        exits: count_at(numbers, 1),
        fails: count_at(numbers, 2),
        redos: count_at(numbers, 3),
        allocs: count_at(numbers, 4),
        words: count_at(numbers, 5),
        excps: count_at(numbers, 6),
    }
}
