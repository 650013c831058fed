// Own calls and exits, where the profile has the procedure or the call site.
ghost use Rattle.std.specs.Prelude.{◌≡◌};
ghost use Rattle.md_cost.specs.FileView.{IsFileView};
ghost use Rattle.md_cost.specs.View.{View};
ghost use Rattle.md_cover.specs.Told.{view_counts};

use md_base::{ProcId, SiteId};
use md_cost::{Loaded, Sums};

/// The own counts of a procedure; none where the profile has no such procedure.
pub(crate) fn counts_of_proc(loaded: &Loaded, id: ProcId) -> Sums
    ensures calls { (v : View) → IsFileView loaded.now.profile v → result.calls ≡ (view_counts v).procedure_calls id }
    ensures exits { (v : View) → IsFileView loaded.now.profile v → result.exits ≡ (view_counts v).procedure_exits id }
{
    if (id.number() as usize) < loaded.profile().statics().procs().len() {
        loaded.proc_own(id)
    } else {
        Sums::ZERO
    }
}

/// The own counts of a call site; none where the profile has no such site.
pub(crate) fn counts_of_site(loaded: &Loaded, id: SiteId) -> Sums
    ensures calls { (v : View) → IsFileView loaded.now.profile v → result.calls ≡ (view_counts v).site_calls id }
    ensures exits { (v : View) → IsFileView loaded.now.profile v → result.exits ≡ (view_counts v).site_exits id }
{
    if (id.number() as usize) < loaded.profile().statics().sites().len() {
        loaded.site_own(id)
    } else {
        Sums::ZERO
    }
}
