// Where the links of call sites are found.
ghost use Rattle.std.specs.Prelude.{ℕ, ◌≡◌, ◌<◌, ◌≤◌, ◌+◌, ◌++◌, cond, IfOk, length, MatchOption, None, OnErr, OnOk, Option, replicate, slice_set, Some, vec_capacity, vec_len};
ghost use Rattle.std.specs.Map.{lookup};
ghost use Rattle.md_static.specs.Tables.{callee_of};
ghost use Rattle.md_dynamic.specs.Slots.{is_key, slot_link, slot_of};

use indexmap::IndexMap;
use md_base::{CsdId, NoMemory, PdId, ProcId, SiteId, Steps};
use md_static::SiteKind;
use std::alloc::Global;
use std::sync::ledger::Ledger;

/// What a context keeps for a call site of its procedure: the link of a plain site, or that of the callee that a higher-order
/// site has used last, or none before the first call. It takes four bytes, since no link has the last number.
#[derive(Clone, Copy)]
pub(crate) struct Slot {
    number: u32,
}

impl Slot {
    /// A slot without a link.
    pub(crate) fn empty() -> Slot
        ensures { result ≡ slot_of None }
    {
        Slot { number: u32::MAX }
    }

    /// A slot with this link.
    pub(crate) fn of(link: CsdId) -> Slot
        ensures { result ≡ slot_of (Some link) }
    {
        Slot {
            number: link.number(),
        }
    }

    /// The link, if there is one.
    pub(crate) fn link(self) -> Option<CsdId>
        ensures { result ≡ slot_link self }
    {
        if self.number == u32::MAX {
            None
        } else {
            Some(CsdId::new(self.number))
        }
    }
}

/// What tells the links of higher-order sites apart: the context that calls, the site, and the procedure that is called.
#[derive(Clone, Copy, PartialEq, Eq, Hash)]
pub(crate) struct CalleeKey {
    pub(crate) node: PdId,
    pub(crate) site: SiteId,
    pub(crate) callee: ProcId,
}

/// Puts a link into its slot, and among the callees where its site is higher-order.
pub(crate) fn enter(
    slots: &mut Vec<Slot>,
    callees: &mut IndexMap<CalleeKey, CsdId>,
    kind: SiteKind,
    place: usize,
    key: CalleeKey,
    link: CsdId,
) -> Result<(), NoMemory>
    requires { place < length slots.old.items }
    ensures slots { OnOk result (slots.new.items ≡ slice_set slots.old.items place (slot_of (Some link))) }
    ensures callees { OnOk result (MatchOption (callee_of kind)
        ((v s q : ℕ) → lookup (is_key v s q) callees.new.entries ≡ cond (is_key key.node key.site key.callee (record { node = v; site = s; callee = q })) (Some link) (lookup (is_key v s q) callees.old.entries))
        (λ c. callees.new.entries ≡ callees.old.entries)) }
    ensures err { OnErr result (slots.new.items ≡ slots.old.items) }
    ensures err_callees { OnErr result (callees.new.entries ≡ callees.old.entries) }
    ensures len { vec_len slots.new ≡ vec_len slots.old }
    ensures room { vec_capacity slots.new ≡ vec_capacity slots.old }
{
    enter_callee(callees, kind, key, link)?;
    slots[place] = Slot::of(link);
    Ok(())
}

/// Puts a link among the callees where its site is higher-order.
fn enter_callee(
    callees: &mut IndexMap<CalleeKey, CsdId>,
    kind: SiteKind,
    key: CalleeKey,
    link: CsdId,
) -> Result<(), NoMemory>
    ensures callees { OnOk result (MatchOption (callee_of kind)
        ((v s q : ℕ) → lookup (is_key v s q) callees.new.entries ≡ cond (is_key key.node key.site key.callee (record { node = v; site = s; callee = q })) (Some link) (lookup (is_key v s q) callees.old.entries))
        (λ c. callees.new.entries ≡ callees.old.entries)) }
    ensures err_callees { OnErr result (callees.new.entries ≡ callees.old.entries) }
{
    match kind {
        SiteKind::Plain(_) => {}
        SiteKind::HigherOrder => {
            callees.insert(key, link)?;
        }
    }
    Ok(())
}

/// The link of a callee, if there is one.
pub(crate) fn find(callees: &IndexMap<CalleeKey, CsdId>, key: CalleeKey) -> Option<CsdId>
    ensures { result ≡ lookup (is_key key.node key.site key.callee) callees.now.entries }
{
    callees.get(&key).copied()
}

/// That many slots without links.
pub(crate) fn empty_slots(alloc: Global, count: u32) -> Result<Vec<Slot>, NoMemory>
    ensures { IfOk result (λ slots. slots.items ≡ replicate count (slot_of None)) }
{
    let mut slots = Vec::with_capacity(alloc, count as usize)?;
    for _ in 0..count {
        slots.push_reserved(Slot::empty());
    }
    Ok(slots)
}

/// Puts the slots of a new context behind all others: one table step for each.
pub(crate) fn push_empty<L: Ledger>(slots: &mut Vec<Slot>, count: u32, steps: &mut Steps<L>)
    requires { length slots.old.items + count ≤ vec_capacity slots.old }
    ensures slots { slots.new.items ≡ slots.old.items ++ replicate count (slot_of None) }
    ensures cost { steps.new ≡ steps.old + count }
{
    for _ in 0..count {
        steps.tick();
        slots.push_reserved(Slot::empty());
    }
}
