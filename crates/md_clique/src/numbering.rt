// Classes numbered by their least nodes.
ghost use Rattle.std.specs.Prelude.{◌≡◌, ◌≤◌, ◌<◌, ◌^◌, ◌+◌, ℕ, length, IfOk, MatchOption, slice_index_or, slice_set, Option, Some, None};
ghost use Rattle.md_clique.specs.Search.{class_of, state_of};
ghost use Rattle.md_clique.specs.Cliques.{clique_count};
ghost use Rattle.md_clique.specs.Numbering.{AreNumbers};

use crate::search::State;
use md_base::NoMemory;
use std::alloc::Global;

/// The numbers of the nodes, and how many numbers there are.
#[derive(Drop)]
pub struct Numbering {
    pub numbers: Vec<u32>,
    pub count: u32,
}

/// Numbers the classes of the nodes, of which there are `classes`, in the order of their least nodes.
pub fn number_classes(alloc: Global, states: &[State], classes: u32) -> Result<Numbering, NoMemory>
    requires below { (v : ℕ) → v < length states.now → class_of (state_of states.now v) < classes }
    requires fits { length states.now < 2 ^ 32 }
    ensures numbers { IfOk result (λ numbering. AreNumbers states.now numbering.numbers.items) }
    ensures count { IfOk result (λ numbering. numbering.count ≡ clique_count numbering.numbers.items) }
{
    let mut names = vec![in alloc; None; classes as usize]?;
    let mut numbers = Vec::with_capacity(alloc, states.len())?;
    let mut count = 0;
    for state in states {
        let number = name_of(&mut names, &mut count, state.class());
        numbers.push(number)?;
    }
    Ok(Numbering { numbers, count })
}

/// The number of a class, which is the next one where it has none yet.
fn name_of(names: &mut [Option<u32>], count: &mut u32, class: u32) -> u32
    requires there { class < length names.old }
    requires fits { count.old + 1 < 2 ^ 32 }
    ensures known { MatchOption (slice_index_or names.old class None) (result ≡ count.old) (λ number. result ≡ number) }
    ensures count { MatchOption (slice_index_or names.old class None) (count.new ≡ count.old + 1) (λ _. count.new ≡ count.old) }
    ensures names { MatchOption (slice_index_or names.old class None) (names.new ≡ slice_set names.old class (Some count.old)) (λ _. names.new ≡ names.old) }
{
    let class = class as usize;
    if let Some(number) = names[class] {
        return number;
    }
    let number = *count;
    names[class] = Some(number);
    *count = number + 1;
    number
}
