// What a tree is drawn by.
ghost use Rattle.std.specs.Prelude.{◌≡◌};
ghost use Rattle.md_cost.specs.FileView.{IsFileView};
ghost use Rattle.md_cost.specs.View.{View};
ghost use Rattle.md_people.specs.Counts.{whole_of};

use md_base::Measure;
use md_cost::Loaded;
use md_people::whole_of;

/// The measure, how many thousandths of the whole a clique has at least to have a row, and the whole.
#[derive(Clone, Copy)]
pub(crate) struct Scale {
    pub by: Measure,
    pub least: u32,
    pub whole: u64,
}

/// The scale of a loaded profile.
pub(crate) fn scale_of(loaded: &Loaded, by: Measure, least: u32) -> Scale
    ensures by { result.by ≡ by }
    ensures least { result.least ≡ least }
    ensures whole { (v : View) → IsFileView loaded.now.profile v → result.whole ≡ whole_of v by }
{
    Scale {
        by,
        least,
        whole: whole_of(loaded, by),
    }
}
