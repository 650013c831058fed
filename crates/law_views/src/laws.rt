// Laws over the definitions of views alone. Each is the contract of a function that does nothing.
ghost use Rattle.std.specs.Prelude.{Bool, List};
ghost use Rattle.md_trace.specs.declared.event.Event.{Event};
ghost use Rattle.md_trace.specs.PortHistory.{SiteTable, IsPortHistory};
ghost use Rattle.md_static.specs.Tables.{Static};
ghost use Rattle.md_dynamic.specs.OfHistory.{IsProfileOf};
ghost use Rattle.md_dynamic.specs.Profile.{ProfileRows};
ghost use Rattle.md_dynamic.specs.Valid.{IsValid};
ghost use Rattle.md_cost.specs.FileView.{IsFileView};
ghost use Rattle.md_cost.specs.View.{View};
ghost use Rattle.law_views.specs.RunView.{IsRunView};

/// The views of a run's profile as a file are the views of the run, row kind by row kind: own counts ask the activations
/// themselves, and totals their chains or stations. The profile of a run is valid, as the recorder ensures of its own.
pub fn a_file_says_what_the_run_says()
    ensures forth { (t : SiteTable) (s : Static) (h : List Event) (finished : Bool) (f : ProfileRows) (v : View) → IsPortHistory t h → IsProfileOf s t.main h finished f → IsValid f → IsFileView f v → IsRunView s t.main h finished v }
    ensures back { (t : SiteTable) (s : Static) (h : List Event) (finished : Bool) (f : ProfileRows) (v : View) → IsPortHistory t h → IsProfileOf s t.main h finished f → IsValid f → IsRunView s t.main h finished v → IsFileView f v }
{}
