// The decoder behind a byte: in which field it stands, and what was read so far.
ghost use Rattle.std.specs.Prelude.{◌≡◌, ◌+◌, ◌-◌, ◌*◌, ◌<◌, ◌≤◌, ◌++◌, ◌∷◌, [], List, ℕ, length, drop, OnOk, IfOk};
ghost use Rattle.std.specs.Int.{w32, from_le_bytes};
ghost use Rattle.md_deepfile.specs.Bytes.{magic};
ghost use Rattle.md_deepfile.specs.Rules.{link_size};
ghost use Rattle.md_deepfile.specs.Fields.{version_told, flag_told, ending, profile_file};
ghost use Rattle.md_deepfile.specs.Format.{read, byte, bytes, exactly};
ghost use Rattle.md_deepfile.specs.State.{state_of, form_of, form_at, width, number_told, name_told, after_number, after_name, IsEnd, HasPlaces, IsReady, IsReadyNumber, IsReadyPart, IsBegun, Follows, FollowsByte, Leads};

use crate::damage::{DecodeFault, Kind};
use crate::fields::MAGIC;
use crate::graph::Graph;
use crate::modules::Modules;
use crate::part::{Field, Named, Part, Version};
use crate::procs::Procs;
use md_base::{Name, NoMemory};
use md_dynamic::Profile;
use md_static::{Site, Statics};
use std::alloc::Global;

/// In which field the next byte stands, and what was read so far. It grows with the bytes that came, never by a count
/// that a field names.
#[derive(Drop)]
pub(crate) struct Reader {
    pub(crate) alloc: Global,
    pub(crate) part: Part,
    /// Things of the list that are to come behind this one.
    pub(crate) more: u32,
    pub(crate) version: Version,
    /// Bytes of the field that are to come, where it is a number or a name.
    pub(crate) left: u32,
    /// Its bytes that came.
    pub(crate) carry: Vec<u8>,
    /// Counts of the link that are to come behind this one.
    pub(crate) wanted: u8,
    /// Those that came.
    pub(crate) own: Vec<u32>,
    /// The place of the next byte.
    pub(crate) at: u64,
    pub(crate) finished: bool,
    pub(crate) modules: Modules,
    pub(crate) procs: Procs,
    pub(crate) sites: Vec<Site>,
    pub(crate) graph: Graph,
}

impl Reader {
    /// At the first byte of a file.
    pub(crate) fn new(alloc: Global) -> Result<Reader, NoMemory>
        ensures ready { IfOk result (λ reader. IsReady (state_of reader)) }
        ensures begins { IfOk result (λ reader. form_of (state_of reader) ≡ profile_file) }
        ensures start { IfOk result (λ reader. reader.at ≡ 0) }
    {
        let carry = Vec::with_capacity(alloc, Name::MOST)?;
        Ok(Reader {
            alloc,
            part: Part::Magic(0),
            more: 0,
            version: Version::Second,
            left: 0,
            carry,
            wanted: 0,
            own: Vec::new(alloc),
            at: 0,
            finished: false,
            modules: Modules::new(alloc),
            procs: Procs::new(alloc),
            sites: Vec::new(alloc),
            graph: Graph::new(alloc),
        })
    }

    /// The damage so many bytes back.
    pub(crate) fn damage(&self, back: u64, kind: Kind) -> DecodeFault
        ensures { result ≡ DecodeFault.Damage (self.now.at - back) kind }
    {
        DecodeFault::Damage {
            at: self.at.saturating_sub(back),
            kind,
        }
    }

    /// A number comes next.
    pub(crate) fn expect(&mut self, field: Field)
        ensures { state_of self.new ≡ record (state_of self.old) { part = Part.Number field; left = 4; carry = [] } }
    {
        self.part = Part::Number(field);
        self.left = 4;
        self.carry.clear();
    }

    /// A byte of the magic, or the version behind it.
    fn magic(&mut self, place: u8, next: u8) -> Result<(), DecodeFault>
        requires within { place ≤ 7 }
        requires begun { IsBegun (state_of self.old) }
        requires room { HasPlaces (8 - place + 2461016260055) (state_of self.old) }
        ensures follows { (at : ℕ) → self.old.at ≡ at + 1 → FollowsByte (exactly (drop place magic) (byte version_told)) next at (state_of self.new) result }
        ensures ready { OnOk result (IsReady (state_of self.new)) }
    {
        if place == 7 {
            return self.version(next);
        }
        if next != MAGIC[place as usize] {
            return Err(self.damage(1, Kind::Magic));
        }
        self.part = Part::Magic(place + 1);
        Ok(())
    }

    /// The version.
    fn version(&mut self, byte: u8) -> Result<(), DecodeFault>
        requires begun { IsBegun (state_of self.old) }
        requires room { HasPlaces (1 + 2461016260055) (state_of self.old) }
        ensures follows { Follows (version_told byte) self.old.at (state_of self.new) result }
        ensures ready { OnOk result (IsReady (state_of self.new)) }
    {
        self.version = match byte {
            49 => Version::First,
            50 => Version::Second,
            _ => return Err(self.damage(1, Kind::Magic)),
        };
        self.part = Part::Flag;
        Ok(())
    }

    /// Whether the run was finished.
    #[tactic(auto, using(crate::proofs::Reading::flag_set))]
    fn flag(&mut self, byte: u8) -> Result<(), DecodeFault>
        requires begun { IsBegun (state_of self.old) }
        requires room { HasPlaces 2461016260055 (state_of self.old) }
        ensures follows { Follows (flag_told (width self.old.version) byte) self.old.at (state_of self.new) result }
        ensures ready { OnOk result (IsReady (state_of self.new)) }
    {
        if byte > 1 {
            return Err(self.damage(1, Kind::Flag));
        }
        self.finished = byte == 1;
        self.expect(Field::ModuleCount);
        Ok(())
    }

    /// The number whose four bytes came.
    fn carried(&self) -> u32
        requires { length self.now.carry.items ≡ 4 }
        ensures { result ≡ from_le_bytes w32 self.now.carry.items }
    {
        let bytes = self.carry.as_slice();
        u32::from_le_bytes([bytes[0], bytes[1], bytes[2], bytes[3]])
    }

    /// A byte of a number.
    fn number_byte(&mut self, field: Field, byte: u8) -> Result<(), DecodeFault>
        requires stands { self.old.part ≡ Part.Number field }
        requires part { IsReadyPart (Part.Number field) (state_of self.old) }
        requires room { HasPlaces (self.old.left - 1 + after_number field (state_of self.old)) (state_of self.old) }
        ensures follows { Follows (bytes (self.old.left - 1) (self.old.carry.items ++ byte ∷ []) (λ bs. number_told field (state_of self.old) (from_le_bytes w32 bs))) self.old.at (state_of self.new) result }
        ensures ready { OnOk result (IsReady (state_of self.new)) }
    {
        self.carry.push(byte)?;
        self.left -= 1;
        if self.left > 0 {
            return Ok(());
        }
        let number = self.carried();
        self.number(field, number)
    }

    /// A number of which all bytes came.
    pub(crate) fn number(&mut self, field: Field, number: u32) -> Result<(), DecodeFault>
        requires ready { IsReadyNumber field (state_of self.old) }
        requires room { HasPlaces (after_number field (state_of self.old)) (state_of self.old) }
        ensures follows { Follows (number_told field (state_of self.old) number) self.old.at (state_of self.new) result }
        ensures ready { OnOk result (IsReady (state_of self.new)) }
    {
        match field {
            Field::ModuleCount => self.module_count(number),
            Field::ProcCount => self.proc_count(number),
            Field::ProcModule => self.proc_module(number),
            Field::SiteCount => self.site_count(number),
            Field::SiteOwner => self.site_owner(number),
            Field::SiteLine(owner) => self.site_line(owner, number),
            Field::SiteCallee(owner, line) => self.site_callee(owner, line, number),
            Field::ContextCount => self.context_count(number),
            Field::ContextProc => self.context_proc(number),
            Field::LinkCount => self.link_count(number),
            Field::RootCaller => self.root_caller(number),
            Field::RootSite => self.root_site(number),
            Field::RootCallee => self.root_callee(number),
            Field::RootOwn => self.root_count(number),
            Field::LinkCaller => self.link_caller(number),
            Field::LinkSite(caller) => self.link_site(caller, number),
            Field::LinkCallee(caller, site) => self.link_callee(caller, site, number),
            Field::LinkOwn(caller, site, callee) => {
                self.link_count_of(caller, site, callee, number)
            }
        }
    }

    /// A byte of a name.
    fn name_byte(&mut self, which: Named, byte: u8) -> Result<(), DecodeFault>
        requires stands { self.old.part ≡ Part.Name which }
        requires part { 0 < self.old.left }
        requires room { HasPlaces (self.old.left - 1 + after_name which (state_of self.old)) (state_of self.old) }
        ensures follows { Follows (bytes (self.old.left - 1) (self.old.carry.items ++ byte ∷ []) (name_told which (state_of self.old))) self.old.at (state_of self.new) result }
        ensures ready { OnOk result (IsReady (state_of self.new)) }
    {
        self.carry.push(byte)?;
        self.left -= 1;
        if self.left > 0 {
            return Ok(());
        }
        self.name(which)
    }

    /// A name of which all bytes came.
    fn name(&mut self, which: Named) -> Result<(), DecodeFault>
        requires { HasPlaces (after_name which (state_of self.old)) (state_of self.old) }
        ensures follows { Follows (name_told which (state_of self.old) self.old.carry.items) self.old.at (state_of self.new) result }
        ensures ready { OnOk result (IsReady (state_of self.new)) }
    {
        match which {
            Named::Module => self.module_name(),
            Named::Proc(home) => self.proc_name(home),
        }
    }

    /// The length of a name.
    fn length(&mut self, which: Named, length: u8) -> Result<(), DecodeFault>
        requires { HasPlaces (255 + after_name which (state_of self.old)) (state_of self.old) }
        ensures follows { Follows (bytes length [] (name_told which (state_of self.old))) self.old.at (state_of self.new) result }
        ensures ready { OnOk result (IsReady (state_of self.new)) }
    {
        match which {
            Named::Module => self.module_length(length),
            Named::Proc(home) => self.proc_length(home, length),
        }
    }

    /// Takes the next byte of the file.
    pub(crate) fn byte(&mut self, next: u8) -> Result<(), DecodeFault>
        requires { IsReady (state_of self.old) }
        ensures follows { FollowsByte (form_of (state_of self.old)) next self.old.at (state_of self.new) result }
        ensures ready { OnOk result (IsReady (state_of self.new)) }
    {
        self.at += 1;
        match self.part {
            Part::Magic(place) => self.magic(place, next),
            Part::Flag => self.flag(next),
            Part::Number(field) => self.number_byte(field, next),
            Part::Length(which) => self.length(which, next),
            Part::Name(which) => self.name_byte(which, next),
            Part::Arity(home) => self.proc_arity(home, next),
            Part::End => Err(self.damage(1, Kind::Trailing)),
        }
    }

    /// The file ends here: Ok where it is whole.
    pub(crate) fn ended(&self) -> Result<(), DecodeFault>
        requires { IsReady (state_of self.now) }
        ensures { IsEnd (read (form_of (state_of self.now)) self.now.at []) (state_of self.now).rows result }
    {
        match self.part {
            Part::End => self.reached(),
            _ => Err(self.damage(0, Kind::Short)),
        }
    }

    /// Whether each context is reached from one of a lower number.
    fn reached(&self) -> Result<(), DecodeFault>
        requires { HasPlaces 0 (state_of self.now) }
        ensures { IsEnd (read (ending (width self.now.version) (state_of self.now).rows) self.now.at []) (state_of self.now).rows result }
    {
        match self.graph.first_orphan() {
            None => Ok(()),
            Some(context) => Err(DecodeFault::Damage {
                at: self.place_of(context),
                kind: Kind::Orphan,
            }),
        }
    }

    /// The place of a context's procedure, where the file ends here.
    fn place_of(&self, context: usize) -> u64
        requires { HasPlaces 0 (state_of self.now) }
        ensures { result ≡ self.now.at - (4 * (length (state_of self.now).rows.nodes - context) + (4 + link_size (width self.now.version) * length (state_of self.now).rows.links)) }
    {
        let contexts = self.graph.nodes().len().saturating_sub(context) as u64;
        let links = self.graph.link_count() as u64;
        let list = self.link_size().saturating_mul(links).saturating_add(4);
        self.at
            .saturating_sub(contexts.saturating_mul(4).saturating_add(list))
    }

    /// What was read. Takes no memory.
    pub(crate) fn into_profile(self) -> Profile
        ensures { result ≡ (state_of self).rows }
    {
        let (nodes, links) = self.graph.into_rows();
        let statics = Statics::from_parts(
            self.modules.into_names(),
            self.procs.into_procs(),
            self.sites,
        );
        Profile::from_parts(statics, nodes, links, self.finished)
    }
}
