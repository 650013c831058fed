// Laws over the definitions of contexts, links and cliques alone. Each is the contract of a function that does nothing.
ghost use Rattle.std.specs.Prelude.{◌≡◌, ◌<◌, ℕ, List, [], ◌∷◌, length};
ghost use Rattle.md_trace.specs.declared.event.Event.{Event};
ghost use Rattle.md_trace.specs.Cliques.{AreCliques};
ghost use Rattle.md_trace.specs.PortHistory.{SiteTable, IsPortHistory};
ghost use Rattle.md_clique.specs.Cliques.{clique_count};
ghost use Rattle.md_clique.specs.Entries.{AreReached, IsEnteredTwice, entries};
ghost use Rattle.md_clique.specs.OneEntry.{AreCliquesOf, BeginsWith, IsInContext, IsPathUp, context_count, ends_of, links_of, station_contexts};

/// A graph has one list of cliques: what `cliques` ensures leaves no choice.
pub fn cliques_are_determined()
    ensures { (nodes : ℕ) (links : List (ℕ × ℕ)) (found other : List ℕ) → AreCliques nodes links found → AreCliques nodes links other → found ≡ other }
{}

/// In every port history each clique is entered by exactly one link: clique 0 by the root link, which stands at
/// place 0, and each other clique by a leaving link. So no clique is entered twice, and `entering` can't say so of the
/// links of a run. Every context is reached from where the root link ends.
pub fn each_clique_has_one_entry()
    ensures one { (t : SiteTable) (h : List Event) (cliques : List ℕ) (k : ℕ) → IsPortHistory t h → AreCliquesOf t.main h cliques → k < clique_count cliques → (place : ℕ) × (entries cliques (ends_of (links_of t.main h)) k ≡ place ∷ []) }
    ensures root { (t : SiteTable) (h : List Event) (cliques : List ℕ) → IsPortHistory t h → AreCliquesOf t.main h cliques → entries cliques (ends_of (links_of t.main h)) 0 ≡ 0 ∷ [] }
    ensures none_twice { (t : SiteTable) (h : List Event) (cliques : List ℕ) (k a b : ℕ) → IsPortHistory t h → AreCliquesOf t.main h cliques → IsEnteredTwice cliques (ends_of (links_of t.main h)) k a b → ⊥ }
    ensures reached { (t : SiteTable) (h : List Event) → IsPortHistory t h → AreReached (ends_of (links_of t.main h)) (context_count t.main h) }
{}

/// In every port history the stations of an activation are the path of its context up to clique 0: its context, the
/// start of the one link that enters that context's clique, the start of the one that enters that one's clique, and so
/// on.
pub fn stations_lead_up_to_the_root()
    ensures begin { (t : SiteTable) (h : List Event) (cliques : List ℕ) (a c : ℕ) → IsPortHistory t h → AreCliquesOf t.main h cliques → IsInContext t.main h a c → BeginsWith c (station_contexts t.main h cliques a) }
    ensures path { (t : SiteTable) (h : List Event) (cliques : List ℕ) (a c : ℕ) → IsPortHistory t h → AreCliquesOf t.main h cliques → IsInContext t.main h a c → IsPathUp cliques (ends_of (links_of t.main h)) (station_contexts t.main h cliques a) }
{}
