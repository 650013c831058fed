// Whether the members of a list differ.
ghost use Rattle.std.specs.Prelude.{◌≡◌, ◌≢◌, ◌↔◌, AllPairs, IsTrue, IfOk};
ghost use Rattle.md_base.specs.Distinct.{AllDiffer};

use crate::NoMemory;
use std::alloc::Global;
use std::collections::BTreeSet;

/// Whether no two of these keys are equal, in time near linear in their number.
pub fn all_differ<T: Ord + Copy>(alloc: Global, keys: &[T]) -> Result<bool, NoMemory>
    ensures { IfOk result (λ differ. IsTrue differ ↔ AllDiffer T.cmp keys.now) }
{
    let mut seen = BTreeSet::new(alloc);
    for key in keys {
        if !seen.insert(*key)? {
            return Ok(false);
        }
    }
    Ok(true)
}
