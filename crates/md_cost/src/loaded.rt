// A profile with all that its pages ask for.
use crate::Sums;
use crate::costs::Costs;
use crate::incoming::own_sum;
use crate::lists::Lists;
use crate::totals::sum_of_members;
use crate::tree::Tree;
use md_base::{CsdId, PdId, ProcId, SiteId};
use md_dynamic::Profile;
use std::marker::Model;

/// A profile with its cliques, the links that enter them, the sums of its rows, and what lists its links and contexts.
#[derive(Drop)]
pub struct Loaded {
    profile: Profile,
    tree: Tree,
    costs: Costs,
    lists: Lists,
}

impl Model for Loaded {
    ghost use Rattle.md_cost.specs.Loading.{LoadedRows};

    ghost Value = { LoadedRows };

    ghost use Rattle.md_cost.specs.Kept.{IsKept};

    ghost view = { λ a. record { profile = a.profile; cliques = a.tree.cliques; entries = a.tree.entries.items } };

    ghost invariant = { IsKept };
}

// Each number is that of the view of the profile: whatever view there is, since there is one.
impl Loaded {
    ghost use Rattle.std.specs.Prelude.{◌≡◌, ◌<◌, ◌==◌, Some, length, slice_index, option_map};
    ghost use Rattle.md_base.specs.declared.measure.Measure.{Measure};
    ghost use Rattle.md_trace.specs.Context.{same_option};
    ghost use Rattle.md_clique.specs.Cliques.{clique_count, members_of};
    ghost use Rattle.md_clique.specs.Places.{places};
    ghost use Rattle.md_dynamic.specs.Valid.{IsValid};
    ghost use Rattle.md_cost.specs.Costs.{AreCosts};
    ghost use Rattle.md_cost.specs.FileView.{IsFileView};
    ghost use Rattle.md_cost.specs.Lists.{AreLists};
    ghost use Rattle.md_cost.specs.Loading.{IsLoadedOf};
    ghost use Rattle.md_cost.specs.SumOf.{sum_of};
    ghost use Rattle.md_cost.specs.Tree.{IsTree};
    ghost use Rattle.md_cost.specs.View.{View, OfLink, OfContext, OfClique, OfProcedure, OfSite, OfModule};

    /// A loaded profile of these parts. Takes no memory.
    pub(crate) fn from_parts(profile: Profile, tree: Tree, costs: Costs, lists: Lists) -> Loaded
        requires valid { IsValid profile }
        requires tree { IsTree (length profile.nodes) profile.links tree.cliques tree.entries.items }
        requires costs { AreCosts profile tree.cliques tree.entries.items costs }
        requires lists { AreLists profile lists }
        ensures { result ≡ record { profile = profile; cliques = tree.cliques; entries = tree.entries.items } }
    {
        Loaded {
            profile,
            tree,
            costs,
            lists,
        }
    }

    /// The profile, which is valid and has a view. Takes no memory.
    pub fn profile(&self) -> &Profile
        ensures profile { result.now ≡ self.now.profile }
        ensures valid { IsValid self.now.profile }
        ensures loaded { IsLoadedOf self.now.profile self.now }
        ensures viewed { (v : View) × IsFileView self.now.profile v }
    {
        &self.profile
    }

    /// How many cliques there are. Takes no memory.
    pub fn clique_count(&self) -> u32
        ensures count { result ≡ clique_count self.now.cliques }
        ensures view { (v : View) → IsFileView self.now.profile v → result ≡ clique_count v.cliques }
    {
        self.tree.cliques.count()
    }

    /// The clique of a context. Takes no memory.
    pub fn clique_of(&self, node: PdId) -> u32
        requires { node < length self.now.profile.nodes }
        ensures number { result ≡ slice_index self.now.cliques node }
        ensures view { (v : View) → IsFileView self.now.profile v → result ≡ slice_index v.cliques node }
    {
        self.tree.cliques.of(node.number())
    }

    /// The link that enters a clique. Takes no memory.
    pub fn entering(&self, clique: u32) -> CsdId
        requires { clique < clique_count self.now.cliques }
        ensures link { result ≡ slice_index self.now.entries clique }
        ensures view { (v : View) → IsFileView self.now.profile v → result ≡ slice_index v.entries clique }
    {
        CsdId::new(self.tree.entries[clique as usize])
    }

    /// The contexts of a clique, in rising order. Takes no memory.
    pub fn members(&self, clique: u32) -> &[u32]
        requires { clique < clique_count self.now.cliques }
        ensures members { result.now ≡ members_of self.now.cliques clique }
        ensures view { (v : View) → IsFileView self.now.profile v → result.now ≡ members_of v.cliques clique }
    {
        self.tree.cliques.members(clique)
    }

    /// The links that start in a context, in rising order. Takes no memory.
    pub fn links_from(&self, node: PdId) -> &[u32]
        requires { node < length self.now.profile.nodes }
        ensures links { result.now ≡ places (λ r. same_option r.caller (Some node)) self.now.profile.links }
        ensures view { (v : View) → IsFileView self.now.profile v → result.now ≡ places (λ x. same_option x.caller (Some node)) v.links }
    {
        self.lists.links.of(node.number())
    }

    /// The contexts of a procedure, in rising order. Takes no memory.
    pub fn contexts_of(&self, id: ProcId) -> &[u32]
        requires { id < length self.now.profile.statics.procs }
        ensures contexts { result.now ≡ places (λ p. p == id) self.now.profile.nodes }
        ensures view { (v : View) → IsFileView self.now.profile v → result.now ≡ places (λ p. p == id) v.nodes }
    {
        self.lists.contexts.of(id.number())
    }

    /// The own counts of a link. Takes no memory.
    pub fn link_own(&self, link: CsdId) -> Sums
        requires { link < length self.now.profile.links }
        ensures { (v : View) (m : Measure) → IsFileView self.now.profile v → v.own (OfLink link) m ≡ Some (sum_of result m) }
    {
        let links = self.profile.links();
        Sums::from_counts(links[link.number() as usize].own)
    }

    /// The total of a link: of the root link that of clique 0, and of a link that leaves a clique that of the clique which
    /// it enters. It is `None` exactly for a link inside a clique. Takes no memory.
    pub fn link_total(&self, link: CsdId) -> Option<Sums>
        requires { link < length self.now.profile.links }
        ensures { (v : View) (m : Measure) → IsFileView self.now.profile v → v.total (OfLink link) m ≡ option_map (λ s. sum_of s m) result }
    {
        let links = self.profile.links();
        let row = links[link.number() as usize];
        let Some(caller) = row.caller else {
            return Some(self.clique_total(0));
        };
        let clique = self.clique_of(row.callee);
        if self.clique_of(caller) == clique {
            None
        } else {
            Some(self.clique_total(clique))
        }
    }

    /// The own counts of a context: over the links that lead to it, one by one. Takes no memory.
    pub fn node_own(&self, node: PdId) -> Sums
        requires { node < length self.now.profile.nodes }
        ensures { (v : View) (m : Measure) → IsFileView self.now.profile v → v.own (OfContext node) m ≡ Some (sum_of result m) }
    {
        own_sum(&self.costs.incoming, self.profile.links(), node.number())
    }

    /// The total of a context: over the links whose path up has it. Takes no memory.
    pub fn node_total(&self, node: PdId) -> Sums
        requires { node < length self.now.profile.nodes }
        ensures { (v : View) (m : Measure) → IsFileView self.now.profile v → v.total (OfContext node) m ≡ Some (sum_of result m) }
    {
        self.costs.contexts[node.number() as usize]
    }

    /// The total of a clique: over the links whose path up meets it. It is added up over the clique's contexts. Takes no
    /// memory.
    pub fn clique_total(&self, clique: u32) -> Sums
        requires { clique < clique_count self.now.cliques }
        ensures { (v : View) (m : Measure) → IsFileView self.now.profile v → v.total (OfClique clique) m ≡ Some (sum_of result m) }
    {
        sum_of_members(&self.tree.cliques, &self.costs.contexts, clique)
    }

    /// The own counts of a procedure: over the links to its contexts. Takes no memory.
    pub fn proc_own(&self, id: ProcId) -> Sums
        requires { id < length self.now.profile.statics.procs }
        ensures { (v : View) (m : Measure) → IsFileView self.now.profile v → v.own (OfProcedure id) m ≡ Some (sum_of result m) }
    {
        self.costs.own.procedures[id.number() as usize]
    }

    /// The total of a procedure: over the links whose path up has a context of it, each of which counts once. Takes no memory.
    pub fn proc_total(&self, id: ProcId) -> Sums
        requires { id < length self.now.profile.statics.procs }
        ensures { (v : View) (m : Measure) → IsFileView self.now.profile v → v.total (OfProcedure id) m ≡ Some (sum_of result m) }
    {
        self.costs.totals.procedures[id.number() as usize]
    }

    /// The own counts of a call site: over the links at it. Takes no memory.
    pub fn site_own(&self, id: SiteId) -> Sums
        requires { id < length self.now.profile.statics.sites }
        ensures { (v : View) (m : Measure) → IsFileView self.now.profile v → v.own (OfSite id) m ≡ Some (sum_of result m) }
    {
        self.costs.own.sites[id.number() as usize]
    }

    /// The total of a call site: over the links whose path up comes in by a leaving link at it, each of which counts once. Takes no memory.
    pub fn site_total(&self, id: SiteId) -> Sums
        requires { id < length self.now.profile.statics.sites }
        ensures { (v : View) (m : Measure) → IsFileView self.now.profile v → v.total (OfSite id) m ≡ Some (sum_of result m) }
    {
        self.costs.totals.sites[id.number() as usize]
    }

    /// The own counts of a module: over the links to contexts of its procedures. Takes no memory.
    pub fn module_own(&self, id: u32) -> Sums
        requires { id < length self.now.profile.statics.modules }
        ensures { (v : View) (m : Measure) → IsFileView self.now.profile v → v.own (OfModule id) m ≡ Some (sum_of result m) }
    {
        self.costs.own.modules[id as usize]
    }

    /// The total of a module: over the links whose path up has a context of one of its procedures, each of which counts once. Takes no memory.
    pub fn module_total(&self, id: u32) -> Sums
        requires { id < length self.now.profile.statics.modules }
        ensures { (v : View) (m : Measure) → IsFileView self.now.profile v → v.total (OfModule id) m ≡ Some (sum_of result m) }
    {
        self.costs.totals.modules[id as usize]
    }
}
