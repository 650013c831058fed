// Names and texts: bytes that contracts see as a list.
ghost use Rattle.std.specs.Prelude.{◌≡◌, ◌≤◌, length, nat_eq, IfOk, IfSome, IfNone};
ghost use Rattle.std.specs.Cmp.{partial_order_from_own_ties, partial_equiv_from_equiv};
ghost use Rattle.std.specs.Cmp.Lexicographic.{pointwise, slice_cmp, nat_list_eq_equiv, nat_list_cmp_total};
ghost use Rattle.std.specs.Cmp.Rules.{comparing};
ghost use Rattle.std.specs.Ordering.{nat_cmp, as_partial_cmp};
ghost use Rattle.std.proofs.Common.{rules};

use crate::NoMemory;
use std::alloc::Global;
use std::cmp::Ordering;
use std::marker::Model;

/// A name: 1 to 255 bytes.
#[derive(Debug, Drop)]
pub struct Name {
    bytes: Vec<u8>,
}

impl Model for Name {
    ghost use Rattle.std.specs.Prelude.{ℕ, List, ◌≤◌, length};

    ghost Value = { List ℕ };

    ghost view = { λ name. name.bytes.items };

    ghost invariant = { λ name. (1 ≤ length name.bytes.items) × (length name.bytes.items ≤ 255) };
}

impl Name {
    /// The longest name, in bytes.
    pub const MOST: usize = 255;

    /// The name of these bytes, or `None` where there are not 1 to 255 of them.
    pub fn from_bytes(alloc: Global, bytes: &[u8]) -> Result<Option<Name>, NoMemory>
        ensures name { IfOk result (λ found. IfSome found (λ name. name ≡ bytes.now)) }
        ensures fits { IfOk result (λ found. IfSome found (λ name. (1 ≤ length name) × (length name ≤ 255))) }
        ensures none { IfOk result (λ found. IfNone found (1 ≤ length bytes.now → length bytes.now ≤ 255 → ⊥)) }
    {
        if bytes.is_empty() || bytes.len() > Name::MOST {
            return Ok(None);
        }
        let bytes = Vec::from_slice(alloc, bytes)?;
        Ok(Some(Name { bytes }))
    }

    /// The name's bytes.
    pub fn as_bytes(&self) -> &[u8]
        ensures bytes { result.now ≡ self.now }
        ensures fits { (1 ≤ length self.now) × (length self.now ≤ 255) }
    {
        self.bytes.as_slice()
    }

    /// The same name once more.
    pub fn copy(&self, alloc: Global) -> Result<Name, NoMemory>
        ensures { IfOk result (λ copy. copy ≡ self.now) }
    {
        let bytes = Vec::from_slice(alloc, &self.bytes)?;
        Ok(Name { bytes })
    }
}

impl PartialEq for Name {
    ghost eq = { pointwise nat_eq };

    ghost laws = { partial_equiv_from_equiv nat_list_eq_equiv };

    fn eq(&self, other: &Name) -> bool {
        self.bytes.as_slice() == other.bytes.as_slice()
    }
}

impl Eq for Name {
    ghost laws = { nat_list_eq_equiv };
}

impl PartialOrd for Name {
    ghost partial_cmp = { as_partial_cmp (slice_cmp nat_cmp) };

    ghost laws = { partial_order_from_own_ties (Prim.search (comparing, rules)) (Prim.search (comparing, rules)) };

    fn partial_cmp(&self, other: &Name) -> Option<Ordering> {
        Some(self.cmp(other))
    }
}

impl Ord for Name {
    ghost cmp = { slice_cmp nat_cmp };

    ghost total = { nat_list_cmp_total };

    ghost matches_partial_cmp = { Prim.search (comparing, rules) };

    ghost matches_eq = { Prim.search (comparing, rules) };

    fn cmp(&self, other: &Name) -> Ordering {
        self.bytes.as_slice().cmp(other.bytes.as_slice())
    }
}

/// A text of any length.
#[derive(Debug, Drop)]
pub struct Text {
    bytes: Vec<u8>,
}

impl Model for Text {
    ghost use Rattle.std.specs.Prelude.{ℕ, List};

    ghost Value = { List ℕ };

    ghost view = { λ text. text.bytes.items };
}

impl Text {
    /// The text of these bytes.
    pub fn from_bytes(alloc: Global, bytes: &[u8]) -> Result<Text, NoMemory>
        ensures { IfOk result (λ text. text ≡ bytes.now) }
    {
        let bytes = Vec::from_slice(alloc, bytes)?;
        Ok(Text { bytes })
    }

    /// The text's bytes.
    pub fn as_bytes(&self) -> &[u8]
        ensures { result.now ≡ self.now }
    {
        self.bytes.as_slice()
    }

    /// The same text once more.
    pub fn copy(&self, alloc: Global) -> Result<Text, NoMemory>
        ensures { IfOk result (λ copy. copy ≡ self.now) }
    {
        let bytes = Vec::from_slice(alloc, &self.bytes)?;
        Ok(Text { bytes })
    }
}

impl PartialEq for Text {
    ghost eq = { pointwise nat_eq };

    ghost laws = { partial_equiv_from_equiv nat_list_eq_equiv };

    fn eq(&self, other: &Text) -> bool {
        self.bytes.as_slice() == other.bytes.as_slice()
    }
}

impl Eq for Text {
    ghost laws = { nat_list_eq_equiv };
}

impl PartialOrd for Text {
    ghost partial_cmp = { as_partial_cmp (slice_cmp nat_cmp) };

    ghost laws = { partial_order_from_own_ties (Prim.search (comparing, rules)) (Prim.search (comparing, rules)) };

    fn partial_cmp(&self, other: &Text) -> Option<Ordering> {
        Some(self.cmp(other))
    }
}

impl Ord for Text {
    ghost cmp = { slice_cmp nat_cmp };

    ghost total = { nat_list_cmp_total };

    ghost matches_partial_cmp = { Prim.search (comparing, rules) };

    ghost matches_eq = { Prim.search (comparing, rules) };

    fn cmp(&self, other: &Text) -> Ordering {
        self.bytes.as_slice().cmp(other.bytes.as_slice())
    }
}
