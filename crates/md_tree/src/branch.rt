// Branches of the tree under way.
ghost use Rattle.std.specs.Prelude.{◌≡◌, ◌<◌, ◌+◌, ◌^◌};
ghost use Rattle.std.specs.List.Sorted.{IsNonDecreasingBy};
ghost use Rattle.md_tree.specs.Branches.{past_hidden, past_shown};
ghost use Rattle.md_tree.specs.Rests.{HasAllOf};

use crate::child::Child;
use crate::rest::{Rest, past, rest_below};

/// The children of a clique that are still to be looked at, at their level. Of those before so many have no row, with this sum of
/// totals.
#[derive(Clone, Copy)]
pub(crate) struct Branch {
    pub rest: Rest,
    pub level: u32,
    pub hidden: u32,
    pub sum: u128,
}

/// All children of a clique, at this level.
pub(crate) fn branch_below(children: &[Child], parent: u32, level: u32) -> Branch
    requires by_parent { IsNonDecreasingBy (λ c. c.0) children.now }
    ensures rest { HasAllOf children.now parent result.rest }
    ensures branch { result ≡ record { rest = result.rest; level = level; hidden = 0; sum = 0 } }
{
    Branch {
        rest: rest_below(children, parent),
        level,
        hidden: 0,
        sum: 0,
    }
}

/// The branch past a child that has a row.
pub(crate) fn past_shown(branch: Branch) -> Branch
    requires { branch.rest.place + 1 < 2 ^ 64 }
    ensures { result ≡ past_shown branch }
{
    Branch {
        rest: past(branch.rest),
        ..branch
    }
}

/// The branch past a child of this total that has no row.
pub(crate) fn past_hidden(branch: Branch, total: u64) -> Branch
    requires place { branch.rest.place + 1 < 2 ^ 64 }
    requires hidden { branch.hidden + 1 < 2 ^ 32 }
    requires sum { branch.sum + total < 2 ^ 128 }
    ensures { result ≡ past_hidden branch total }
{
    Branch {
        rest: past(branch.rest),
        hidden: branch.hidden + 1,
        sum: branch.sum + total as u128,
        ..branch
    }
}
