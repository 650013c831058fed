// Own counts and totals of procedures, modules and call sites.
ghost use Rattle.std.specs.Prelude.{◌≡◌, ◌<◌, IfOk, length};
ghost use Rattle.md_dynamic.specs.Valid.{IsValid};
ghost use Rattle.md_cost.specs.Climbing.{AreSmall, AreTotals};
ghost use Rattle.md_cost.specs.FileView.{module_at, procedure_at, site_above};
ghost use Rattle.md_cost.specs.Keys.{AreOwnBy, AreTotalsBy, HasRoom, IsAdded};
ghost use Rattle.md_cost.specs.Outermost.{AreOutermost};
ghost use Rattle.md_cost.specs.Paths.{EntriesRise};
ghost use Rattle.md_cost.specs.Tree.{IsTree};

use crate::Sums;
use crate::keys::{Keys, keys_of, module_of, number_of, procedure_of};
use crate::outermost::Outermost;
use crate::tree::Tree;
use md_base::NoMemory;
use md_dynamic::{LinkRow, Profile};
use md_static::Statics;
use std::alloc::Global;

/// Sums of procedures, modules and call sites, by number.
#[derive(Drop)]
pub struct Kinds {
    pub procedures: Vec<Sums>,
    pub modules: Vec<Sums>,
    pub sites: Vec<Sums>,
}

/// The own counts: of procedures and modules over the links to their contexts, and of call sites over the links at them.
#[inline(never)]
pub fn own_by_kind(alloc: Global, profile: &Profile) -> Result<Kinds, NoMemory>
    requires { IsValid profile.now }
    ensures small { IfOk result (λ _. AreSmall profile.now.links) }
    ensures procedures { IfOk result (λ own. AreOwnBy (λ r. procedure_at profile.now r.callee) profile.now.links (length profile.now.statics.procs) own.procedures.items) }
    ensures modules { IfOk result (λ own. AreOwnBy (λ r. module_at profile.now r.callee) profile.now.links (length profile.now.statics.modules) own.modules.items) }
    ensures sites { IfOk result (λ own. AreOwnBy (λ r. r.site) profile.now.links (length profile.now.statics.sites) own.sites.items) }
{
    let mut own = Kinds::zero(alloc, profile.statics())?;
    for link in profile.links() {
        own.add(keys_of_link(profile, link), Sums::from_counts(link.own));
    }
    Ok(own)
}

/// The procedure of the context to which a link leads, the module of that, and the call site of the link.
fn keys_of_link(profile: &Profile, link: &LinkRow) -> Keys
    requires valid { IsValid profile.now }
    requires there { link.now.callee < length profile.now.nodes }
    ensures procedures { result.procedures ≡ procedure_at profile.now link.now.callee }
    ensures modules { result.modules ≡ module_at profile.now link.now.callee }
    ensures sites { result.sites ≡ link.now.site }
{
    let node = link.callee.number();
    Keys {
        procedures: procedure_of(profile, node),
        modules: module_of(profile, node),
        sites: number_of(link.site),
    }
}

/// The totals: over the links whose path has a context of the procedure or module, or one whose clique is entered at the
/// call site. What counts is the outermost such context on a path, so each link counts once.
pub fn totals_by_kind(
    alloc: Global,
    profile: &Profile,
    tree: &Tree,
    outermost: &Outermost,
    totals: &[Sums],
) -> Result<Kinds, NoMemory>
    requires valid { IsValid profile.now }
    requires tree { IsTree (length profile.now.nodes) profile.now.links tree.now.cliques tree.now.entries.items }
    requires rise { EntriesRise tree.now.cliques tree.now.entries.items profile.now.links }
    requires small { AreSmall profile.now.links }
    requires outermost { AreOutermost profile.now tree.now.cliques tree.now.entries.items outermost.now }
    requires totals { AreTotals tree.now.cliques tree.now.entries.items profile.now.links totals.now }
    ensures procedures { IfOk result (λ sums. AreTotalsBy tree.now.cliques tree.now.entries.items profile.now.links (procedure_at profile.now) (length profile.now.statics.procs) sums.procedures.items) }
    ensures modules { IfOk result (λ sums. AreTotalsBy tree.now.cliques tree.now.entries.items profile.now.links (module_at profile.now) (length profile.now.statics.modules) sums.modules.items) }
    ensures sites { IfOk result (λ sums. AreTotalsBy tree.now.cliques tree.now.entries.items profile.now.links (site_above profile.now tree.now.cliques tree.now.entries.items) (length profile.now.statics.sites) sums.sites.items) }
{
    let mut sums = Kinds::zero(alloc, profile.statics())?;
    for (place, total) in totals.iter().enumerate() {
        let node = place as u32;
        sums.add(outermost.marks(node, keys_of(profile, tree, node)), *total);
    }
    Ok(sums)
}

impl Kinds {
    ghost use Rattle.std.specs.Prelude.{◌≡◌, IfOk, length, replicate};
    ghost use Rattle.md_cost.specs.Keys.{HasRoom, IsAdded};
    ghost use Rattle.md_cost.specs.SumOf.{zero_sums};

    /// No counts yet.
    fn zero(alloc: Global, statics: &Statics) -> Result<Kinds, NoMemory>
        ensures procedures { IfOk result (λ sums. sums.procedures.items ≡ replicate (length statics.now.procs) zero_sums) }
        ensures modules { IfOk result (λ sums. sums.modules.items ≡ replicate (length statics.now.modules) zero_sums) }
        ensures sites { IfOk result (λ sums. sums.sites.items ≡ replicate (length statics.now.sites) zero_sums) }
    {
        Ok(Kinds {
            procedures: vec![in alloc; Sums::ZERO; statics.procs().len()]?,
            modules: vec![in alloc; Sums::ZERO; statics.modules().len()]?,
            sites: vec![in alloc; Sums::ZERO; statics.sites().len()]?,
        })
    }

    /// Adds to the sums of these keys.
    #[inline(always)]
    fn add(&mut self, keys: Keys, more: Sums)
        requires procedures { HasRoom self.old.procedures.items keys.procedures more }
        requires modules { HasRoom self.old.modules.items keys.modules more }
        requires sites { HasRoom self.old.sites.items keys.sites more }
        ensures procedures { IsAdded self.old.procedures.items keys.procedures more self.new.procedures.items }
        ensures modules { IsAdded self.old.modules.items keys.modules more self.new.modules.items }
        ensures sites { IsAdded self.old.sites.items keys.sites more self.new.sites.items }
    {
        add_to(&mut self.procedures, keys.procedures, more);
        add_to(&mut self.modules, keys.modules, more);
        add_to(&mut self.sites, keys.sites, more);
    }
}

/// Adds to the sum of a key, where there is one.
#[inline(always)]
fn add_to(sums: &mut Vec<Sums>, key: Option<u32>, more: Sums)
    requires { HasRoom sums.old.items key more }
    ensures { IsAdded sums.old.items key more sums.new.items }
{
    if let Some(key) = key {
        let sum = sums[key as usize].plus(more);
        sums[key as usize] = sum;
    }
}
