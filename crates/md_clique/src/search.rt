// The classes of mutual reachability, by path-based search with a stack of its own.
ghost use Rattle.std.specs.Prelude.{◌≡◌, ◌<◌, ◌≢◌, ℕ, List, length, slice_index, IfOk, OnOk};
ghost use Rattle.md_clique.specs.Links.{AreLists, links_of};
ghost use Rattle.md_clique.specs.Search.{AreClasses, state_of};

use crate::adjacency::Adjacency;
use md_base::NoMemory;
use std::alloc::Global;

/// Where the search stands with a node.
#[derive(Clone, Copy)]
pub enum State {
    /// No walk has come to it.
    New,
    /// It is on the trail, at this place.
    Open(u32),
    /// Its part was closed, as this class.
    Closed(u32),
}

impl State {
    ghost use Rattle.std.specs.Prelude.{◌≡◌};
    ghost use Rattle.md_clique.specs.Search.{class_of};

    /// The class of a closed node, and 0 for another.
    pub fn class(self) -> u32
        ensures { result ≡ class_of self }
    {
        match self {
            State::Closed(class) => class,
            State::New | State::Open(_) => 0,
        }
    }
}

/// What the search does next.
#[derive(Clone, Copy)]
pub enum Move {
    /// Walk on to this node, which is new, by the last link that is left of the last pending node.
    Enter(u32),
    /// Join the last part of the trail to the one before it.
    Join,
    /// Be done with the last link that is left of the last pending node.
    Pass,
    /// Be done with the last pending node, which has no links left.
    Skip,
    /// Close the last part of the trail.
    Close,
}

/// A node of the trail whose links may be left to look at.
#[derive(Clone, Copy)]
pub struct Pending {
    /// The node's place on the trail.
    pub place: u32,
    /// Where its links begin in the lists.
    pub from: usize,
    /// Where those of them end that are left.
    pub to: usize,
}

/// A search under way.
#[derive(Drop)]
pub struct Search {
    /// The nodes whose class isn't known yet, in the order in which they were entered.
    pub trail: Vec<u32>,
    /// Where the parts of the trail begin; the nodes of a part reach one another.
    pub first: Vec<u32>,
    /// The nodes of the trail that may have links left, in its order.
    pub pending: Vec<Pending>,
    pub states: Vec<State>,
    /// How many classes are closed.
    pub count: u32,
}

impl Search {
    ghost use Rattle.std.specs.Prelude.{◌≡◌, ◌<◌, ◌≢◌, ℕ, List, Option, Some, None, [], length, replicate, IfOk, OnOk};
    ghost use Rattle.md_clique.specs.Links.{AreListed, AreWithin};
    ghost use Rattle.md_clique.specs.Search.{Stands, May, MayEnter, MayJoin, MayPass, MaySkip, MayClose, NoneRenewed, last_pending, passed, state_of};
    ghost use Rattle.md_clique.specs.Kept.{kept, work};

    /// A search that has entered none of these many nodes.
    fn new(alloc: Global, nodes: u32) -> Result<Search, NoMemory>
        ensures { IfOk result (λ search. kept search ≡ record { trail = []; first = []; pending = []; states = replicate nodes State.New; count = 0 }) }
    {
        let size = nodes as usize;
        Ok(Search {
            trail: Vec::with_capacity(alloc, size)?,
            first: Vec::with_capacity(alloc, size)?,
            pending: Vec::with_capacity(alloc, size)?,
            states: vec![in alloc; State::New; size]?,
            count: 0,
        })
    }

    /// What to do next: looks at one link of the last part, if one is left.
    fn next_move(&self, lists: &Adjacency) -> Move
        ghost links: { List (ℕ × ℕ) }
        requires within { AreWithin links (length self.now.states.items) }
        requires listed { AreListed links (length self.now.states.items) lists.now.starts.items lists.now.ends.items }
        requires stands { Stands links lists.now None (kept self.now) }
        requires some { 0 < length self.now.first.items }
        ensures { May links lists.now (kept self.now) result }
    {
        let first = self.first[self.first.len() - 1];
        let Some(&last) = self.pending.last() else {
            return Move::Close;
        };
        if last.place < first {
            return Move::Close;
        }
        if last.from == last.to {
            return Move::Skip;
        }
        let end = lists.ends[last.to - 1];
        match self.states[end as usize] {
            State::New => Move::Enter(end),
            State::Open(at) => { if at < first { Move::Join } else { Move::Pass } }
            State::Closed(_) => Move::Pass,
        }
    }

    /// Puts a new node at the end of the trail, as a part of its own.
    fn enter(&mut self, lists: &Adjacency, node: u32) -> Result<(), NoMemory>
        ghost links: { List (ℕ × ℕ) }
        requires within { AreWithin links (length self.old.states.items) }
        requires listed { AreListed links (length self.old.states.items) lists.now.starts.items lists.now.ends.items }
        requires stands { Stands links lists.now (Some node) (kept self.old) }
        requires may { MayEnter links (kept self.old) node }
        ensures stands { OnOk result (Stands links lists.now None (kept self.new)) }
        ensures works { OnOk result (work lists.now (kept self.new) < work lists.now (kept self.old)) }
        ensures states { OnOk result (NoneRenewed self.old.states.items self.new.states.items) }
        ensures seen { OnOk result (state_of self.new.states.items node ≢ State.New) }
    {
        let place = self.trail.len() as u32;
        let from = lists.starts[node as usize];
        let to = lists.starts[node as usize + 1];
        self.trail.push(node)?;
        self.first.push(place)?;
        self.pending.push(Pending { place, from, to })?;
        self.states[node as usize] = State::Open(place);
        Ok(())
    }

    /// Makes one of the last two parts.
    fn join(&mut self, lists: &Adjacency)
        ghost links: { List (ℕ × ℕ) }
        requires stands { Stands links lists.now None (kept self.old) }
        requires may { MayJoin links (kept self.old) }
        ensures stands { Stands links lists.now None (kept self.new) }
        ensures works { work lists.now (kept self.new) < work lists.now (kept self.old) }
        ensures states { self.new.states ≡ self.old.states }
    {
        let _ = self.first.pop();
    }

    /// Is done with the last link that is left of the last pending node.
    fn pass(&mut self)
        requires some { 0 < length self.old.pending.items }
        requires left { 0 < (last_pending self.old.pending.items).to }
        ensures { kept self.new ≡ passed (kept self.old) }
    {
        let last = self.pending.len() - 1;
        self.pending[last].to -= 1;
    }

    /// Is done with the last pending node.
    fn skip(&mut self, lists: &Adjacency)
        ghost links: { List (ℕ × ℕ) }
        requires stands { Stands links lists.now None (kept self.old) }
        requires may { MaySkip (kept self.old) }
        ensures stands { Stands links lists.now None (kept self.new) }
        ensures works { work lists.now (kept self.new) < work lists.now (kept self.old) }
        ensures states { self.new.states ≡ self.old.states }
    {
        let _ = self.pending.pop();
    }

    /// Closes the last part: its nodes are a class.
    fn close(&mut self, lists: &Adjacency)
        ghost links: { List (ℕ × ℕ) }
        requires listed { AreListed links (length self.old.states.items) lists.now.starts.items lists.now.ends.items }
        requires stands { Stands links lists.now None (kept self.old) }
        requires may { MayClose (kept self.old) }
        ensures stands { Stands links lists.now None (kept self.new) }
        ensures works { work lists.now (kept self.new) < work lists.now (kept self.old) }
        ensures states { NoneRenewed self.old.states.items self.new.states.items }
    {
        let first = self.first[self.first.len() - 1] as usize;
        close_nodes(&self.trail[first..], &mut self.states, self.count);
        self.trail.truncate(first);
        let _ = self.first.pop();
        self.count += 1;
    }

    /// Makes the next move.
    fn step(&mut self, lists: &Adjacency) -> Result<(), NoMemory>
        ghost links: { List (ℕ × ℕ) }
        requires within { AreWithin links (length self.old.states.items) }
        requires listed { AreListed links (length self.old.states.items) lists.now.starts.items lists.now.ends.items }
        requires stands { Stands links lists.now None (kept self.old) }
        requires some { 0 < length self.old.first.items }
        ensures stands { OnOk result (Stands links lists.now None (kept self.new)) }
        ensures works { OnOk result (work lists.now (kept self.new) < work lists.now (kept self.old)) }
        ensures states { OnOk result (NoneRenewed self.old.states.items self.new.states.items) }
    {
        match self.next_move(lists) {
            Move::Enter(node) => self.walk_on(lists, node),
            Move::Join => {
                self.join(lists);
                Ok(())
            }
            Move::Pass => {
                self.pass();
                Ok(())
            }
            Move::Skip => {
                self.skip(lists);
                Ok(())
            }
            Move::Close => {
                self.close(lists);
                Ok(())
            }
        }
    }

    /// Is done with the last link that is left of the last pending node, and enters the new node where it ends.
    fn walk_on(&mut self, lists: &Adjacency, node: u32) -> Result<(), NoMemory>
        ghost links: { List (ℕ × ℕ) }
        requires within { AreWithin links (length self.old.states.items) }
        requires listed { AreListed links (length self.old.states.items) lists.now.starts.items lists.now.ends.items }
        requires stands { Stands links lists.now None (kept self.old) }
        requires may { May links lists.now (kept self.old) (Move.Enter node) }
        ensures stands { OnOk result (Stands links lists.now None (kept self.new)) }
        ensures works { OnOk result (work lists.now (kept self.new) < work lists.now (kept self.old)) }
        ensures states { OnOk result (NoneRenewed self.old.states.items self.new.states.items) }
    {
        self.pass();
        self.enter(lists, node)
    }

    /// Closes all that is reached from a node, where the node is new. Nothing is open before or afterwards.
    fn explore(&mut self, lists: &Adjacency, root: u32) -> Result<(), NoMemory>
        ghost links: { List (ℕ × ℕ) }
        requires within { AreWithin links (length self.old.states.items) }
        requires listed { AreListed links (length self.old.states.items) lists.now.starts.items lists.now.ends.items }
        requires stands { Stands links lists.now None (kept self.old) }
        requires none_open { length self.old.trail.items ≡ 0 }
        requires there { root < length self.old.states.items }
        ensures stands { OnOk result (Stands links lists.now None (kept self.new)) }
        ensures none_open { OnOk result (length self.new.trail.items ≡ 0) }
        ensures states { OnOk result (NoneRenewed self.old.states.items self.new.states.items) }
        ensures seen { OnOk result (state_of self.new.states.items root ≢ State.New) }
    {
        let State::New = self.states[root as usize] else {
            return Ok(());
        };
        self.enter(lists, root)?;
        while !self.first.is_empty() {
            self.step(lists)?;
        }
        Ok(())
    }

    /// Closes all nodes.
    fn explore_all(&mut self, lists: &Adjacency, nodes: u32) -> Result<(), NoMemory>
        ghost links: { List (ℕ × ℕ) }
        requires within { AreWithin links nodes }
        requires listed { AreListed links nodes lists.now.starts.items lists.now.ends.items }
        requires nodes { length self.old.states.items ≡ nodes }
        requires stands { Stands links lists.now None (kept self.old) }
        requires none_open { length self.old.trail.items ≡ 0 }
        ensures nodes { OnOk result (length self.new.states.items ≡ nodes) }
        ensures stands { OnOk result (Stands links lists.now None (kept self.new)) }
        ensures none_open { OnOk result (length self.new.trail.items ≡ 0) }
        ensures seen { OnOk result ((v : ℕ) → v < nodes → state_of self.new.states.items v ≢ State.New) }
    {
        for root in 0..nodes {
            self.explore(lists, root)?;
        }
        Ok(())
    }

    /// The classes that were closed.
    fn into_classes(self) -> Classes
        ensures states { result.states.items ≡ self.states.items }
        ensures count { result.count ≡ self.count }
    {
        let Search {
            trail: _,
            first: _,
            pending: _,
            states,
            count,
        } = self;
        Classes { states, count }
    }
}

/// Closes these nodes as one class.
fn close_nodes(nodes: &[u32], states: &mut [State], class: u32)
    requires { (i : ℕ) → i < length nodes.now → slice_index nodes.now i < length states.old }
    ensures closed { (i : ℕ) → i < length nodes.now → state_of states.new (slice_index nodes.now i) ≡ State.Closed class }
    ensures others { (v : ℕ) → ((i : ℕ) → i < length nodes.now → slice_index nodes.now i ≢ v) → state_of states.new v ≡ state_of states.old v }
{
    for node in nodes {
        states[*node as usize] = State::Closed(class);
    }
}

/// The classes of a graph: the state of each node, all of them closed, and how many classes there are.
#[derive(Drop)]
pub struct Classes {
    pub states: Vec<State>,
    pub count: u32,
}

/// The classes of mutual reachability of the graph with these lists, in an order of their own.
pub fn find_classes(alloc: Global, nodes: u32, lists: &Adjacency) -> Result<Classes, NoMemory>
    requires { AreLists nodes lists.now.starts.items lists.now.ends.items }
    ensures { IfOk result (λ classes. AreClasses (links_of nodes lists.now.starts.items lists.now.ends.items) nodes classes.states.items classes.count) }
{
    let mut search = Search::new(alloc, nodes)?;
    search.explore_all(lists, nodes)?;
    Ok(search.into_classes())
}
