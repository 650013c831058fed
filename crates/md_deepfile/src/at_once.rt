// A link or a number of which all bytes are at hand, taken at once.
ghost use Rattle.std.specs.Prelude.{◌≡◌, ◌+◌, ◌<◌, ◌≤◌, true, false, length, IfOk, OnOk};
ghost use Rattle.md_deepfile.specs.Decoding.{FollowsSome, TakesAll};
ghost use Rattle.md_deepfile.specs.Rules.{counts_of, link_size};
ghost use Rattle.md_deepfile.specs.State.{state_of, form_of, width, number_at, numbers_at, IsReady};

use crate::damage::DecodeFault;
use crate::part::{Field, Part, Version};
use crate::reader::Reader;
use md_base::{Counts, NoMemory};

impl Reader {
    /// Takes some of these bytes, at least one, and answers how many: all of a link or a number where they are at hand.
    pub(crate) fn some(&mut self, bytes: &[u8]) -> Result<usize, DecodeFault>
        requires ready { IsReady (state_of self.old) }
        requires one { 1 ≤ length bytes.now }
        ensures follows { FollowsSome (form_of (state_of self.old)) bytes.now self.old.at (state_of self.new) result }
        ensures ready { OnOk result (IsReady (state_of self.new)) }
    {
        let Part::Number(field) = self.part else {
            return self.one(bytes);
        };
        if self.left < 4 || bytes.len() < 4 {
            return self.one(bytes);
        }
        match field {
            Field::LinkCaller => self.some_link(bytes),
            other => self.whole_number(other, bytes),
        }
    }

    /// Takes a byte.
    fn one(&mut self, bytes: &[u8]) -> Result<usize, DecodeFault>
        requires ready { IsReady (state_of self.old) }
        requires one { 1 ≤ length bytes.now }
        ensures follows { FollowsSome (form_of (state_of self.old)) bytes.now self.old.at (state_of self.new) result }
        ensures ready { OnOk result (IsReady (state_of self.new)) }
    {
        match self.byte(bytes[0]) {
            Ok(()) => Ok(1),
            Err(fault) => Err(fault),
        }
    }

    /// Takes a link, or its caller alone where the link isn't all there, or breaks a rule.
    fn some_link(&mut self, bytes: &[u8]) -> Result<usize, DecodeFault>
        requires stands { self.old.part ≡ Part.Number Field.LinkCaller }
        requires whole { 4 ≤ self.old.left }
        requires ready { IsReady (state_of self.old) }
        requires four { 4 ≤ length bytes.now }
        ensures follows { FollowsSome (form_of (state_of self.old)) bytes.now self.old.at (state_of self.new) result }
        ensures ready { OnOk result (IsReady (state_of self.new)) }
    {
        let size = self.link_size() as usize;
        if bytes.len() < size {
            return self.whole_number(Field::LinkCaller, bytes);
        }
        if self.whole_link(&bytes[..size])? {
            return Ok(size);
        }
        self.whole_number(Field::LinkCaller, bytes)
    }

    /// Takes a number.
    fn whole_number(&mut self, field: Field, bytes: &[u8]) -> Result<usize, DecodeFault>
        requires stands { self.old.part ≡ Part.Number field }
        requires whole { 4 ≤ self.old.left }
        requires ready { IsReady (state_of self.old) }
        requires four { 4 ≤ length bytes.now }
        ensures follows { FollowsSome (form_of (state_of self.old)) bytes.now self.old.at (state_of self.new) result }
        ensures ready { OnOk result (IsReady (state_of self.new)) }
    {
        self.at += 4;
        match self.number(field, number_at(bytes, 0)) {
            Ok(()) => Ok(4),
            Err(fault) => Err(fault),
        }
    }

    /// Takes a link that keeps the rules, and answers whether it does. Otherwise nothing is taken.
    fn whole_link(&mut self, bytes: &[u8]) -> Result<bool, NoMemory>
        requires stands { self.old.part ≡ Part.Number Field.LinkCaller }
        requires whole { 4 ≤ self.old.left }
        requires ready { IsReady (state_of self.old) }
        requires size { length bytes.now ≡ link_size (width self.old.version) }
        ensures taken { IfOk result (λ taken. taken ≡ true → TakesAll (form_of (state_of self.old)) bytes.now self.old.at (state_of self.new)) }
        ensures kept { IfOk result (λ taken. taken ≡ false → state_of self.new ≡ state_of self.old) }
        ensures ready { OnOk result (IsReady (state_of self.new)) }
    {
        let caller = number_at(bytes, 0);
        let site = number_at(bytes, 4);
        let callee = number_at(bytes, 8);
        if !self.fits(caller, site, callee) {
            return Ok(false);
        }
        let own = counts_at(bytes, self.version);
        if !self.graph.add_link(caller, site, callee, own)? {
            return Ok(false);
        }
        self.at += self.link_size();
        self.next_link();
        Ok(true)
    }
}

/// The number whose four bytes begin at this place.
fn number_at(bytes: &[u8], place: usize) -> u32
    requires { place + 4 ≤ length bytes.now }
    ensures { result ≡ number_at bytes.now place }
{
    u32::from_le_bytes([
        bytes[place],
        bytes[place + 1],
        bytes[place + 2],
        bytes[place + 3],
    ])
}

/// The counts of a link of this version.
fn counts_at(bytes: &[u8], version: Version) -> Counts
    requires { length bytes.now ≡ link_size (width version) }
    ensures { result ≡ counts_of (numbers_at (width version) bytes.now 12) }
{
    Counts {
        calls: number_at(bytes, 12),
        exits: number_at(bytes, 16),
        fails: number_at(bytes, 20),
        redos: number_at(bytes, 24),
        allocs: number_at(bytes, 28),
        words: number_at(bytes, 32),
        excps: match version {
            Version::First => 0,
            Version::Second => number_at(bytes, 36),
        },
    }
}
