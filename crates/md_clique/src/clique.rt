// The cliques of a graph: the clique of each node, and the members of each clique.
use std::marker::Model;

/// The cliques of a graph. Contracts see the list of the nodes' cliques.
#[derive(Drop)]
pub struct Cliques {
    numbers: Vec<u32>,
    count: u32,
    /// The members of all cliques, one clique after another.
    order: Vec<u32>,
    /// Where the members of each clique begin, and where the last one's end.
    starts: Vec<u32>,
}

impl Model for Cliques {
    ghost use Rattle.std.specs.Prelude.{ℕ, List};

    ghost Value = { List ℕ };

    ghost use Rattle.md_clique.specs.Layout.{IsLaidOut};

    ghost view = { λ a. a.numbers.items };

    ghost invariant = { IsLaidOut };
}

impl Cliques {
    ghost use Rattle.std.specs.Prelude.{◌≡◌, ◌<◌, ◌+◌, length, slice_index};
    ghost use Rattle.md_clique.specs.Cliques.{clique_count, members_of};
    ghost use Rattle.md_clique.specs.Members.{AreLaidOut};

    /// The cliques that these numbers say, with their members laid out. Takes no memory.
    pub(crate) fn from_parts(
        numbers: Vec<u32>,
        count: u32,
        order: Vec<u32>,
        starts: Vec<u32>,
    ) -> Cliques
        requires count { count ≡ clique_count numbers.items }
        requires starts { length starts.items ≡ count + 1 }
        requires laid { AreLaidOut numbers.items order.items starts.items count }
        ensures { result ≡ numbers.items }
    {
        Cliques {
            numbers,
            count,
            order,
            starts,
        }
    }

    /// How many cliques there are. Takes no memory.
    pub fn count(&self) -> u32
        ensures { result ≡ clique_count self.now }
    {
        self.count
    }

    /// The clique of a node. Takes no memory.
    pub fn of(&self, node: u32) -> u32
        requires { node < length self.now }
        ensures { result ≡ slice_index self.now node }
    {
        self.numbers[node as usize]
    }

    /// The members of a clique in rising order. Takes no memory.
    pub fn members(&self, clique: u32) -> &[u32]
        requires { clique < clique_count self.now }
        ensures { result.now ≡ members_of self.now clique }
    {
        let clique = clique as usize;
        &self.order[self.starts[clique] as usize..self.starts[clique + 1] as usize]
    }
}
