// What a procedure costs by a measure.
ghost use Rattle.std.specs.Prelude.{◌≡◌, ◌<◌, length};
ghost use Rattle.md_cost.specs.FileView.{IsFileView};
ghost use Rattle.md_cost.specs.View.{View};
ghost use Rattle.md_people.specs.Compare.{apart};
ghost use Rattle.md_compare.specs.Cost.{cost_of, difference_of, own_in, total_in};

use md_base::{Measure, ProcId};
use md_cost::Loaded;

/// The own count of a procedure by a measure, and its total.
#[derive(Clone, Copy, PartialEq, Eq, PartialOrd, Ord)]
pub(crate) struct Cost {
    pub own: u64,
    pub total: u64,
}

/// What a procedure costs.
pub(crate) fn cost_of(loaded: &Loaded, by: Measure, id: ProcId) -> Cost
    requires { id < length loaded.now.profile.statics.procs }
    ensures { (v : View) → IsFileView loaded.now.profile v → result ≡ cost_of v by id }
{
    Cost {
        own: loaded.proc_own(id).of(by),
        total: loaded.proc_total(id).of(by),
    }
}

/// The greater difference of two costs, that of own counts or that of totals. A cost that isn't there counts as 0.
pub(crate) fn difference_of(old: Option<Cost>, new: Option<Cost>) -> u64
    ensures { result ≡ difference_of old new }
{
    apart(own_in(old), own_in(new)).max(apart(total_in(old), total_in(new)))
}

/// How far two counts are apart, whichever is the greater.
pub(crate) fn apart(old: Option<u64>, new: Option<u64>) -> u64
    ensures { result ≡ apart old new }
{
    old.unwrap_or(0).abs_diff(new.unwrap_or(0))
}

pub(crate) fn own_in(cost: Option<Cost>) -> Option<u64>
    ensures { result ≡ own_in cost }
{
    match cost {
        Some(cost) => Some(cost.own),
        None => None,
    }
}

pub(crate) fn total_in(cost: Option<Cost>) -> Option<u64>
    ensures { result ≡ total_in cost }
{
    match cost {
        Some(cost) => Some(cost.total),
        None => None,
    }
}
