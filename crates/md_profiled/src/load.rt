// The profile of a run, loaded.
ghost use Rattle.std.specs.Prelude.{ℕ, ◌≡◌, IfOk};
ghost use Rattle.md_hlds.specs.Hlds.{Hlds};
ghost use Rattle.law_events.specs.Laws.{IsWithinBounds};
ghost use Rattle.md_dynamic.specs.Valid.{IsValid};
ghost use Rattle.md_cost.specs.FileView.{IsFileView};
ghost use Rattle.md_cost.specs.View.{View};
ghost use Rattle.md_profiled.specs.OfRun.{IsOfRun, IsProfileOfRun, IsViewOfRun};

use law_events::runs_are_histories;
use law_views::a_file_says_what_the_run_says;
use md_base::NoMemory;
use md_cost::{CostFault, Loaded, no_clique_of_a_run_is_entered_twice, propagate};
use md_dynamic::Profile;
use std::alloc::Global;

/// Loads the profile of a run, each of whose cliques but the first is entered by exactly one link: what it says then is
/// what the run says.
pub fn load_run(alloc: Global, profile: Profile) -> Result<Loaded, NoMemory>
    requires valid { IsValid profile }
    requires of_run { IsOfRun profile }
    ensures profile { IfOk result (λ loaded. loaded.profile ≡ profile) }
    ensures view { IfOk result (λ loaded. (program : Hlds) (budget : ℕ) (v : View) → IsWithinBounds program budget → IsProfileOfRun program budget profile
        → IsFileView profile v → IsViewOfRun program budget v) }
{
    runs_are_histories();
    no_clique_of_a_run_is_entered_twice();
    a_file_says_what_the_run_says();
    match propagate(alloc, profile) {
        Ok(loaded) => Ok(loaded),
        Err(CostFault::NoMemory) => Err(NoMemory),
        Err(CostFault::TwoEntries { .. }) => unreachable!(),
    }
}
