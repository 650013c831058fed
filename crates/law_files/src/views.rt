// Which profiles have a view, and how cliques are entered. Each law is the contract of a function that does nothing.
ghost use Rattle.std.specs.Prelude.{ℕ, ◌≡◌, ◌⊎◌, Bool, List};
ghost use Rattle.md_trace.specs.declared.event.Event.{Event};
ghost use Rattle.md_trace.specs.Cliques.{AreCliques};
ghost use Rattle.md_trace.specs.PortHistory.{SiteTable, IsPortHistory};
ghost use Rattle.md_static.specs.Tables.{Static};
ghost use Rattle.md_dynamic.specs.OfHistory.{IsProfileOf};
ghost use Rattle.md_dynamic.specs.Profile.{ProfileRows};
ghost use Rattle.md_dynamic.specs.Valid.{IsValid};
ghost use Rattle.md_cost.specs.FileView.{IsFileView};
ghost use Rattle.md_cost.specs.View.{View};
ghost use Rattle.law_files.specs.Views.{AreCliquesIn, AreEnteredOnce, HasView, IsEnteredTwice};

/// Each graph has cliques: numbers of its nodes by which two nodes are in one clique exactly if each reaches the other.
pub fn graphs_have_cliques()
    ensures { (n : ℕ) (links : List (ℕ × ℕ)) → (cliques : List ℕ) × AreCliques n links cliques }
{}

/// A valid profile has at most one view.
pub fn profiles_have_one_view()
    ensures { (f : ProfileRows) (v w : View) → IsValid f → IsFileView f v → IsFileView f w → v ≡ w }
{}

/// A valid profile has a view exactly if no clique of it is entered by two links: it has one view or such a clique, and
/// never both.
pub fn profiles_have_views_or_two_entries()
    ensures one { (f : ProfileRows) → IsValid f → ((v : View) × HasView f v) ⊎ IsEnteredTwice f }
    ensures never_both { (f : ProfileRows) (v : View) → IsFileView f v → IsEnteredTwice f → ⊥ }
{}

/// In the profile of a run clique 0 is entered by the root link alone, and each other clique by exactly one link.
pub fn cliques_of_runs_are_entered_once()
    ensures { (t : SiteTable) (s : Static) (h : List Event) (finished : Bool) (f : ProfileRows) (cliques : List ℕ) → IsPortHistory t h → IsProfileOf s t.main h finished f → AreCliquesIn f cliques → AreEnteredOnce f cliques }
{}
