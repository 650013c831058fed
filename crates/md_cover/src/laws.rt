// What the profile of a run says of the run's counts.
ghost use Rattle.std.specs.Prelude.{ℕ, ◌≡◌, ◌<◌, ◌^◌, false};
ghost use Rattle.md_hlds.specs.Hlds.{Hlds};
ghost use Rattle.md_hlds.specs.Run.{run, is_finished};
ghost use Rattle.md_trace.specs.PortHistory.{SiteTable, IsPortHistory};
ghost use Rattle.md_static.specs.Tables.{Static};
ghost use Rattle.law_events.specs.History.{history};
ghost use Rattle.md_dynamic.specs.OfHistory.{IsProfileOf};
ghost use Rattle.md_dynamic.specs.Profile.{ProfileRows};
ghost use Rattle.md_dynamic.specs.Valid.{IsValid};
ghost use Rattle.md_cost.specs.FileView.{IsFileView};
ghost use Rattle.md_cost.specs.View.{View};
ghost use Rattle.md_cover.specs.Coverage.{HasCountsOf, has_full_link, IsCountedIn};

/// The profile of a run within a budget below 2 ^ 32 says whether the run is finished, and has, where it is and no link is full, the
/// plain counts of the run's calls and exits, by procedure and by call site. The profile of a run is valid, as the recorder
/// ensures of its own.
pub fn profiles_of_runs_have_their_counts()
    ensures { (t : SiteTable) (s : Static) (program : Hlds) (budget : ℕ) (f : ProfileRows) → IsPortHistory t (history (run program budget)) → IsProfileOf s t.main (history (run program budget)) (is_finished (run program budget)) f → IsValid f → budget < 2 ^ 32 → IsCountedIn program budget f }
{}

/// The profile of a run, finished or not, has, unless a link is full, the plain counts of the run's calls and exits, by procedure and by
/// call site.
pub fn profiles_of_runs_tell_their_calls()
    ensures { (t : SiteTable) (s : Static) (program : Hlds) (budget : ℕ) (f : ProfileRows) → IsPortHistory t (history (run program budget)) → IsProfileOf s t.main (history (run program budget)) (is_finished (run program budget)) f → IsValid f
        → has_full_link f ≡ false → (v : View) → IsFileView f v → HasCountsOf (history (run program budget)) v }
{}
