// Finding the link of a callee, and adding one.
ghost use Rattle.std.specs.Prelude.{◌≡◌, ◌<◌, ◌≤◌, ◌+◌, ◌-◌, length, slice_get, IfOk, IfSome, None, Some, OnErr};
ghost use Rattle.md_dynamic.specs.Rows.{Owns, IsHigherOrderSite, callee_in, add_cost};
ghost use Rattle.md_closure.specs.Callees.{FindsOrAdds, FindsOrAddsTo, find_or_add_cost};

use md_base::{CsdId, NoMemory, PdId, ProcId, SiteId, Steps};
use md_dynamic::Tables;
use std::sync::ledger::Ledger;

/// The link of a callee at a higher-order site in a context. Where there is none yet it is added, with counts of 0, and
/// leads to the callee's active context, or to a new one where there is none. A link that is there takes no memory.
pub fn find_or_add<L: Ledger>(
    tables: &mut Tables,
    node: PdId,
    site: SiteId,
    callee: ProcId,
    steps: &mut Steps<L>,
) -> Result<CsdId, NoMemory>
    requires owned { Owns tables.old node site }
    requires higher_order { IsHigherOrderSite tables.old site }
    requires there { callee < length tables.old.statics.procs }
    requires room { length tables.old.links < 4294967295 }
    ensures ok { IfOk result (λ link. FindsOrAdds tables.old tables.new node site callee link (steps.new - steps.old)) }
    ensures err { OnErr result (tables.new ≡ tables.old) }
    ensures statics { tables.new.statics ≡ tables.old.statics }
    ensures fresh { OnErr result (callee_in tables.old node site callee ≡ None) }
    ensures forward { steps.old ≤ steps.new }
    ensures cost_refused { OnErr result (steps.new ≤ steps.old + find_or_add_cost tables.old callee) }
{
    if let Some(link) = tables.find_again(node, site, callee, steps) {
        return Ok(link);
    }
    let to = tables.active(callee, steps);
    tables.add(node, site, callee, to, 0, steps)
}

/// The same where the caller knows the callee's active context: a new link leads to `to`, or to a new context where there is
/// none.
pub fn find_or_add_to<L: Ledger>(
    tables: &mut Tables,
    node: PdId,
    site: SiteId,
    callee: ProcId,
    to: Option<PdId>,
    steps: &mut Steps<L>,
) -> Result<CsdId, NoMemory>
    requires owned { Owns tables.old node site }
    requires higher_order { IsHigherOrderSite tables.old site }
    requires there { callee < length tables.old.statics.procs }
    requires of_callee { IfSome to (λ v. slice_get tables.old.nodes v ≡ Some callee) }
    requires room { length tables.old.links < 4294967295 }
    ensures ok { IfOk result (λ link. FindsOrAddsTo tables.old tables.new node site callee to link (steps.new - steps.old)) }
    ensures err { OnErr result (tables.new ≡ tables.old) }
    ensures statics { tables.new.statics ≡ tables.old.statics }
    ensures fresh { OnErr result (callee_in tables.old node site callee ≡ None) }
    ensures forward { steps.old ≤ steps.new }
    ensures cost_refused { OnErr result (steps.new ≤ steps.old + (1 + add_cost tables.old callee to)) }
{
    match tables.find_again(node, site, callee, steps) {
        Some(link) => Ok(link),
        None => tables.add(node, site, callee, to, 0, steps),
    }
}
