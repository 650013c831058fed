// The children of a clique that are still to be looked at.
ghost use Rattle.std.specs.Prelude.{◌≡◌, ◌≤◌, ◌+◌, ◌<◌, ◌^◌, [], All, MatchOption, drop};
ghost use Rattle.std.specs.List.Sorted.{IsNonDecreasingBy};
ghost use Rattle.md_tree.specs.Rests.{IsNext, HasAllOf, left_of, past};

use crate::child::Child;

/// Those children of a clique that stand in the list of all children from a place on.
#[derive(Clone, Copy)]
pub(crate) struct Rest {
    pub parent: u32,
    pub place: usize,
}

/// All children of a clique. Takes O(log C) steps for C cliques.
pub(crate) fn rest_below(children: &[Child], parent: u32) -> Rest
    requires by_parent { IsNonDecreasingBy (λ c. c.0) children.now }
    ensures { HasAllOf children.now parent result }
{
    Rest {
        parent,
        place: children.partition_point(|child| child.0 < parent),
    }
}

/// The first child that is left.
pub(crate) fn next_child(children: &[Child], rest: Rest) -> Option<Child>
    requires by_parent { IsNonDecreasingBy (λ c. c.0) children.now }
    requires past { All (λ c. rest.parent ≤ c.0) (drop rest.place children.now) }
    ensures { MatchOption result (left_of children.now rest ≡ []) (λ c. IsNext children.now rest c) }
{
    if rest.place >= children.len() {
        return None;
    }
    let child = children[rest.place];
    if child.0 == rest.parent {
        Some(child)
    } else {
        None
    }
}

/// All that are left but the first.
pub(crate) fn past(rest: Rest) -> Rest
    requires { rest.place + 1 < 2 ^ 64 }
    ensures { result ≡ past rest }
{
    Rest {
        place: rest.place + 1,
        ..rest
    }
}
