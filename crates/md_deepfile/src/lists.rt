// The lists of a file but its links, field by field.
ghost use Rattle.std.specs.Prelude.{◌≡◌, ◌+◌, ◌*◌, ◌<◌, ◌≤◌, [], List, ℕ, length, OnOk, IfOk};
ghost use Rattle.std.specs.Prelude.{slice_get, ◌-◌};
ghost use Rattle.md_deepfile.specs.Fields.{module_told, proc_told, proc_arity};
ghost use Rattle.md_deepfile.specs.Format.{read, byte, bytes};
ghost use Rattle.md_deepfile.specs.Rules.{last_owner, is_owner, is_callee, kind_of};
ghost use Rattle.md_deepfile.specs.State.{state_of, number_told, after_number, next_module, next_proc, next_site, next_context, HasPlaces, IsReady, IsReadyPart, Follows, Leads};

use crate::damage::{DecodeFault, Kind};
use crate::part::{Field, NONE, Named, Part};
use crate::reader::Reader;
use md_base::ProcId;
use md_static::{Site, SiteKind};

impl Reader {
    // Modules.

    pub(crate) fn module_count(&mut self, count: u32) -> Result<(), DecodeFault>
        requires { HasPlaces (after_number Field.ModuleCount (state_of self.old)) (state_of self.old) }
        ensures follows { Follows (number_told Field.ModuleCount (state_of self.old) count) self.old.at (state_of self.new) result }
        ensures ready { OnOk result (IsReady (state_of self.new)) }
    {
        if count < 1 {
            return Err(self.damage(4, Kind::Range));
        }
        self.more = count;
        self.next_module();
        Ok(())
    }

    fn next_module(&mut self)
        requires { HasPlaces (256 * self.old.more + 1361504632531) (state_of self.old) }
        ensures leads { Leads (next_module (state_of self.old) (state_of self.old).rows) self.old.at (state_of self.new) }
        ensures ready { IsReady (state_of self.new) }
    {
        if self.more == 0 {
            self.expect(Field::ProcCount);
        } else {
            self.more -= 1;
            self.part = Part::Length(Named::Module);
        }
    }

    pub(crate) fn module_length(&mut self, length: u8) -> Result<(), DecodeFault>
        requires { HasPlaces (255 + (256 * self.old.more + 1361504632531)) (state_of self.old) }
        ensures follows { Follows (bytes length [] (module_told (state_of self.old).rows (next_module (state_of self.old)))) self.old.at (state_of self.new) result }
        ensures ready { OnOk result (IsReady (state_of self.new)) }
    {
        self.carry.clear();
        if length == 0 {
            return self.module_name();
        }
        self.left = length as u32;
        self.part = Part::Name(Named::Module);
        Ok(())
    }

    pub(crate) fn module_name(&mut self) -> Result<(), DecodeFault>
        requires { HasPlaces (256 * self.old.more + 1361504632531) (state_of self.old) }
        ensures follows { Follows (module_told (state_of self.old).rows (next_module (state_of self.old)) self.old.carry.items) self.old.at (state_of self.new) result }
        ensures ready { OnOk result (IsReady (state_of self.new)) }
    {
        if !self.modules.add(self.alloc, &self.carry)? {
            return Err(self.damage(self.carry.len() as u64 + 1, Kind::Text));
        }
        self.next_module();
        Ok(())
    }

    // Procedures.

    pub(crate) fn proc_count(&mut self, count: u32) -> Result<(), DecodeFault>
        requires { HasPlaces (after_number Field.ProcCount (state_of self.old)) (state_of self.old) }
        ensures follows { Follows (number_told Field.ProcCount (state_of self.old) count) self.old.at (state_of self.new) result }
        ensures ready { OnOk result (IsReady (state_of self.new)) }
    {
        if count < 1 {
            return Err(self.damage(4, Kind::Range));
        }
        self.more = count;
        self.next_proc();
        Ok(())
    }

    fn next_proc(&mut self)
        requires { HasPlaces (261 * self.old.more + 240518168532) (state_of self.old) }
        ensures leads { Leads (next_proc (state_of self.old) (state_of self.old).rows) self.old.at (state_of self.new) }
        ensures ready { IsReady (state_of self.new) }
    {
        if self.more == 0 {
            self.expect(Field::SiteCount);
        } else {
            self.more -= 1;
            self.expect(Field::ProcModule);
        }
    }

    pub(crate) fn proc_module(&mut self, home: u32) -> Result<(), DecodeFault>
        requires { HasPlaces (after_number Field.ProcModule (state_of self.old)) (state_of self.old) }
        ensures follows { Follows (number_told Field.ProcModule (state_of self.old) home) self.old.at (state_of self.new) result }
        ensures ready { OnOk result (IsReady (state_of self.new)) }
    {
        if home as usize >= self.modules.len() {
            return Err(self.damage(4, Kind::Range));
        }
        self.part = Part::Length(Named::Proc(home));
        Ok(())
    }

    pub(crate) fn proc_length(&mut self, home: u32, length: u8) -> Result<(), DecodeFault>
        requires { HasPlaces (256 + (261 * self.old.more + 240518168532)) (state_of self.old) }
        ensures follows { Follows (bytes length [] (proc_told (state_of self.old).rows (next_proc (state_of self.old)) home)) self.old.at (state_of self.new) result }
        ensures ready { OnOk result (IsReady (state_of self.new)) }
    {
        self.carry.clear();
        if length == 0 {
            return self.proc_name(home);
        }
        self.left = length as u32;
        self.part = Part::Name(Named::Proc(home));
        Ok(())
    }

    pub(crate) fn proc_name(&mut self, home: u32) -> Result<(), DecodeFault>
        requires { HasPlaces (1 + (261 * self.old.more + 240518168532)) (state_of self.old) }
        ensures follows { Follows (proc_told (state_of self.old).rows (next_proc (state_of self.old)) home self.old.carry.items) self.old.at (state_of self.new) result }
        ensures ready { OnOk result (IsReady (state_of self.new)) }
    {
        if !self.procs.is_new(self.alloc, home, &self.carry)? {
            return Err(self.damage(self.carry.len() as u64 + 1, Kind::Text));
        }
        self.part = Part::Arity(home);
        Ok(())
    }

    pub(crate) fn proc_arity(&mut self, home: u32, arity: u8) -> Result<(), DecodeFault>
        requires is_new { IsReadyPart (Part.Arity home) (state_of self.old) }
        requires room { HasPlaces (261 * self.old.more + 240518168532) (state_of self.old) }
        ensures follows { Follows (proc_arity (state_of self.old).rows (next_proc (state_of self.old)) home self.old.carry.items arity) self.old.at (state_of self.new) result }
        ensures ready { OnOk result (IsReady (state_of self.new)) }
    {
        self.procs.push(self.alloc, home, &self.carry, arity)?;
        self.next_proc();
        Ok(())
    }

    // Call sites.

    pub(crate) fn site_count(&mut self, count: u32) -> Result<(), DecodeFault>
        requires { HasPlaces (after_number Field.SiteCount (state_of self.old)) (state_of self.old) }
        ensures follows { Follows (number_told Field.SiteCount (state_of self.old) count) self.old.at (state_of self.new) result }
        ensures ready { OnOk result (IsReady (state_of self.new)) }
    {
        self.more = count;
        self.next_site();
        Ok(())
    }

    fn next_site(&mut self)
        requires { HasPlaces (12 * self.old.more + 188978560988) (state_of self.old) }
        ensures leads { Leads (next_site (state_of self.old) (state_of self.old).rows) self.old.at (state_of self.new) }
        ensures ready { IsReady (state_of self.new) }
    {
        if self.more == 0 {
            self.expect(Field::ContextCount);
        } else {
            self.more -= 1;
            self.expect(Field::SiteOwner);
        }
    }

    /// The owner of the last site, or 0.
    fn last_owner(&self) -> u32
        ensures { result ≡ last_owner (state_of self.now).rows.statics.sites }
    {
        match self.sites.last() {
            Some(site) => site.owner.number(),
            None => 0,
        }
    }

    pub(crate) fn site_owner(&mut self, owner: u32) -> Result<(), DecodeFault>
        requires { HasPlaces (after_number Field.SiteOwner (state_of self.old)) (state_of self.old) }
        ensures follows { Follows (number_told Field.SiteOwner (state_of self.old) owner) self.old.at (state_of self.new) result }
        ensures ready { OnOk result (IsReady (state_of self.new)) }
    {
        if owner as usize >= self.procs.len() || owner < self.last_owner() {
            return Err(self.damage(4, Kind::Range));
        }
        self.expect(Field::SiteLine(owner));
        Ok(())
    }

    pub(crate) fn site_line(&mut self, owner: u32, line: u32) -> Result<(), DecodeFault>
        requires { HasPlaces (after_number (Field.SiteLine owner) (state_of self.old)) (state_of self.old) }
        ensures follows { Follows (number_told (Field.SiteLine owner) (state_of self.old) line) self.old.at (state_of self.new) result }
        ensures ready { OnOk result (IsReady (state_of self.new)) }
    {
        if line < 1 {
            return Err(self.damage(4, Kind::Range));
        }
        self.expect(Field::SiteCallee(owner, line));
        Ok(())
    }

    pub(crate) fn site_callee(
        &mut self,
        owner: u32,
        line: u32,
        callee: u32,
    ) -> Result<(), DecodeFault>
        requires { HasPlaces (after_number (Field.SiteCallee owner line) (state_of self.old)) (state_of self.old) }
        ensures follows { Follows (number_told (Field.SiteCallee owner line) (state_of self.old) callee) self.old.at (state_of self.new) result }
        ensures ready { OnOk result (IsReady (state_of self.new)) }
    {
        if callee != NONE && callee as usize >= self.procs.len() {
            return Err(self.damage(4, Kind::Range));
        }
        self.sites.push(Site {
            owner: ProcId::new(owner),
            line,
            kind: kind_of(callee),
        })?;
        self.next_site();
        Ok(())
    }

    // Contexts.

    pub(crate) fn context_count(&mut self, count: u32) -> Result<(), DecodeFault>
        requires { HasPlaces (after_number Field.ContextCount (state_of self.old)) (state_of self.old) }
        ensures follows { Follows (number_told Field.ContextCount (state_of self.old) count) self.old.at (state_of self.new) result }
        ensures ready { OnOk result (IsReady (state_of self.new)) }
    {
        if count < 1 {
            return Err(self.damage(4, Kind::Range));
        }
        self.more = count;
        self.next_context();
        Ok(())
    }

    fn next_context(&mut self)
        requires { HasPlaces (4 * self.old.more + 171798691804) (state_of self.old) }
        ensures leads { Leads (next_context (state_of self.old) (state_of self.old).rows) self.old.at (state_of self.new) }
        ensures ready { IsReady (state_of self.new) }
    {
        if self.more == 0 {
            self.expect(Field::LinkCount);
        } else {
            self.more -= 1;
            self.expect(Field::ContextProc);
        }
    }

    pub(crate) fn context_proc(&mut self, proc: u32) -> Result<(), DecodeFault>
        requires { HasPlaces (after_number Field.ContextProc (state_of self.old)) (state_of self.old) }
        ensures follows { Follows (number_told Field.ContextProc (state_of self.old) proc) self.old.at (state_of self.new) result }
        ensures ready { OnOk result (IsReady (state_of self.new)) }
    {
        if proc as usize >= self.procs.len() {
            return Err(self.damage(4, Kind::Range));
        }
        self.graph.add_context(ProcId::new(proc))?;
        self.next_context();
        Ok(())
    }
}

/// What a site calls, by its callee's number.
fn kind_of(callee: u32) -> SiteKind
    ensures { result ≡ kind_of callee }
{
    if callee == NONE {
        SiteKind::HigherOrder
    } else {
        SiteKind::Plain(ProcId::new(callee))
    }
}
