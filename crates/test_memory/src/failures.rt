// Which calls of an object in memory are to fail.
ghost use Rattle.std.specs.Prelude.{◌≡◌, ◌↔◌, ◌+◌, min, Contains, IsTrue};
ghost use Rattle.md_base.specs.Outside.{one_more};

/// Counts a call, and says whether its number, counted from 1, is among those that are to fail.
pub(crate) fn is_due(fail: &[u64], calls: &mut u64) -> bool
    ensures due { IsTrue result ↔ Contains fail.now calls.new }
    ensures calls { calls.new ≡ one_more calls.old }
{
    *calls = calls.saturating_add(1);
    fail.contains(calls)
}
