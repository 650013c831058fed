// The pairs of a program's calls that could run side by side with profit.
ghost use Rattle.std.specs.Prelude.{◌≡◌, ◌≤◌, IfOk, IsTrue};
ghost use Rattle.md_hlds.specs.Hlds.{hlds_of};
ghost use Rattle.md_static.specs.Names.{is_name};
ghost use Rattle.md_cost.specs.FileView.{IsFileView};
ghost use Rattle.md_cost.specs.View.{View};
ghost use Rattle.md_feedback.specs.Candidates.{AreCandidates};
ghost use Rattle.md_feedback.specs.Search.{HasSitesOf};
ghost use Rattle.md_feedback.specs.Text.{IsLeast, IsValid};

use crate::heavy::heavy_sites;
use crate::pairs::Feedback;
use crate::search::candidates;
use md_base::NoMemory;
use md_cost::Loaded;
use md_det::Checked;
use std::alloc::Global;

/// The pairs of costly calls of a program that stand in one conjunction, the second not depending on the first, by the
/// counts of its profile: in rising order of the first site and then of the second. A call is costly where its site has own
/// calls, and at least `least` times as many total calls. It takes time near linear in the program, and for each costly call
/// of a conjunction a time linear in the parts behind it.
///
/// # Errors
///
/// `NoMemory` only where memory was refused.
pub fn feedback(
    alloc: Global,
    checked: &Checked,
    loaded: &Loaded,
    least: u64,
) -> Result<Feedback, NoMemory>
    requires sites { HasSitesOf (hlds_of checked.now) loaded.now.profile.statics }
    requires least { IsLeast least }
    ensures module_is { IfOk result (λ f. f.module ≡ (hlds_of checked.now).module_name) }
    ensures least_is { IfOk result (λ f. f.least ≡ least) }
    ensures pairs { IfOk result (λ f. (v : View) → IsFileView loaded.now.profile v → AreCandidates (hlds_of checked.now) v least f.pairs) }
    ensures valid { IfOk result (λ f. IsTrue (is_name f.module) → IsValid f) }
{
    let heavy = heavy_sites(alloc, loaded, least)?;
    let pairs = candidates(alloc, checked.moded(), &heavy)?;
    let module = checked.program().module.copy(alloc)?;
    Ok(Feedback {
        module,
        least,
        pairs,
    })
}
