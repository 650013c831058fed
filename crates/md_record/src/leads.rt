// The link of a call: found in its site's slot, or added.
ghost use Rattle.std.specs.Prelude.{ℕ, ◌≡◌, ◌≤◌, ◌<◌, ◌+◌, length, slice_get, IfOk, OnOk, OnErr, IfSome, IfNone, IsSomeAnd, Some};
ghost use Rattle.md_static.specs.Tables.{callee_of};
ghost use Rattle.md_dynamic.specs.Rows.{Owns, IsHigherOrderSite, MayLead, IsFresh, link_in};
ghost use Rattle.md_record.specs.Leads.{HasLink, IsEmptySlot, LeadsBy, LeadCost, LeadRefusedCost, new_sites};

use md_base::{CsdId, Measure, NoMemory, PdId, ProcId, SiteId, Steps};
use md_closure::find_or_add_to;
use md_dynamic::Tables;
use md_static::SiteKind;
use std::sync::ledger::Ledger;

/// The link of a plain site in a context, if there is one (rule 1), or none at a higher-order site. At most two table steps.
#[inline(always)]
pub(crate) fn known<L: Ledger>(
    tables: &Tables,
    node: PdId,
    site: SiteId,
    steps: &mut Steps<L>,
) -> Option<CsdId>
    requires { Owns tables.now node site }
    ensures known { IfSome result (λ link. (q : ℕ) → HasLink tables.now node site q link) }
    ensures below { IfSome result (λ link. link < length tables.now.links) }
    ensures empty { IfNone result (IsEmptySlot tables.now node site) }
    ensures cost { steps.new ≤ steps.old + 2 }
    ensures forward { steps.old ≤ steps.new }
{
    match tables.site(site).kind {
        SiteKind::Plain(_) => tables.slot(node, site, steps),
        SiteKind::HigherOrder => None,
    }
}

/// Counts a call on the link of `callee` at a site in a context, where a plain site has no link yet, and gives the link. A new
/// one leads to `old`, which is the callee's active context, or to a new context where there is none. A link that is there takes no
/// memory.
#[inline(never)]
pub(crate) fn lead<L: Ledger>(
    tables: &mut Tables,
    node: PdId,
    site: SiteId,
    callee: ProcId,
    old: &Option<PdId>,
    steps: &mut Steps<L>,
) -> Result<CsdId, NoMemory>
    requires owned { Owns tables.old node site }
    requires may_lead { MayLead tables.old site callee }
    requires there { callee < length tables.old.statics.procs }
    requires of_callee { IfSome old.now (λ v. slice_get tables.old.nodes v ≡ Some callee) }
    requires empty { IsEmptySlot tables.old node site }
    requires room { length tables.old.links < 4294967295 }
    ensures ok { IfOk result (λ link. LeadsBy tables.old tables.new node site callee old.now link) }
    ensures err { OnErr result (tables.new ≡ tables.old) }
    ensures statics { tables.new.statics ≡ tables.old.statics }
    ensures fresh { OnErr result (IsFresh tables.old node site callee) }
    ensures cost { OnOk result (LeadCost tables.old tables.new site callee steps.old steps.new) }
    ensures cost_refused { OnErr result (LeadRefusedCost tables.old callee steps.old steps.new) }
{
    match tables.site(site).kind {
        SiteKind::Plain(_) => lead_plain(tables, node, site, callee, *old, steps),
        SiteKind::HigherOrder => lead_many(tables, node, site, callee, *old, steps),
    }
}

/// The same at a plain site without a link. Rule 2, where an activation of the callee is on the chain: a link to its context, which
/// `old` is. Rule 3, where there is none: a link to a new context. At most four table steps, and one for each call site of the callee
/// where its context is new.
fn lead_plain<L: Ledger>(
    tables: &mut Tables,
    node: PdId,
    site: SiteId,
    callee: ProcId,
    old: Option<PdId>,
    steps: &mut Steps<L>,
) -> Result<CsdId, NoMemory>
    requires owned { Owns tables.old node site }
    requires may_lead { MayLead tables.old site callee }
    requires fresh { IsFresh tables.old node site callee }
    requires of_callee { IfSome old (λ v. slice_get tables.old.nodes v ≡ Some callee) }
    requires room { length tables.old.links < 4294967295 }
    ensures ok { IfOk result (λ link. LeadsBy tables.old tables.new node site callee old link) }
    ensures err { OnErr result (tables.new ≡ tables.old) }
    ensures statics { tables.new.statics ≡ tables.old.statics }
    ensures fresh { OnErr result (IsFresh tables.old node site callee) }
    ensures cost { OnOk result (steps.new ≤ steps.old + (4 + new_sites tables.old tables.new callee)) }
    ensures cost_refused { OnErr result (LeadRefusedCost tables.old callee steps.old steps.new) }
{
    tables.add(node, site, callee, old, 1, steps)
}

/// The same at a higher-order site, by the same three rules, for each callee of its own: at most seven table steps, and one for each call site of the callee where its context is
/// new.
fn lead_many<L: Ledger>(
    tables: &mut Tables,
    node: PdId,
    site: SiteId,
    callee: ProcId,
    old: Option<PdId>,
    steps: &mut Steps<L>,
) -> Result<CsdId, NoMemory>
    requires owned { Owns tables.old node site }
    requires there { callee < length tables.old.statics.procs }
    requires higher_order { IsHigherOrderSite tables.old site }
    requires of_callee { IfSome old (λ v. slice_get tables.old.nodes v ≡ Some callee) }
    requires room { length tables.old.links < 4294967295 }
    ensures ok { IfOk result (λ link. LeadsBy tables.old tables.new node site callee old link) }
    ensures err { OnErr result (tables.new ≡ tables.old) }
    ensures statics { tables.new.statics ≡ tables.old.statics }
    ensures fresh { OnErr result (IsFresh tables.old node site callee) }
    ensures cost { OnOk result (steps.new ≤ steps.old + (7 + new_sites tables.old tables.new callee)) }
    ensures cost_refused { OnErr result (LeadRefusedCost tables.old callee steps.old steps.new) }
{
    let link = find_or_add_to(tables, node, site, callee, old, steps)?;
    tables.count(link, Measure::Calls, 1, steps);
    Ok(link)
}
