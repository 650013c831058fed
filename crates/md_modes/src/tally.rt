// How often each variable of a clause occurs.
ghost use Rattle.std.specs.Prelude.{◌≡◌, ◌<◌, ◌+◌, ◌^◌, [], ◌∷◌, length, IfOk, OnOk, slice_index};
ghost use Rattle.md_hlds.specs.Hlds.{procedure_of};
ghost use Rattle.md_modes.specs.Goals.{clause_variables};
ghost use Rattle.md_modes.specs.Tally.{Adds, AreCounts};

use crate::occurrences::variables_of_clause;
use md_base::NoMemory;
use md_hlds::Pred;
use std::alloc::Global;

/// The count of a variable; where there is none, it is 0.
pub fn count_at(counts: &[u64], place: u32) -> u64
    ensures { result ≡ slice_index counts.now place }
{
    count_in(counts, place as usize)
}

/// The same of a place of any size.
pub fn count_in(counts: &[u64], place: usize) -> u64
    ensures { result ≡ slice_index counts.now place }
{
    if place < counts.len() {
        counts[place]
    } else {
        0
    }
}

/// How often each variable of a clause occurs in it, its head included.
pub fn counts_of_clause(alloc: Global, pred: &Pred) -> Result<Vec<u64>, NoMemory>
    ensures { IfOk result (λ counts. AreCounts counts.items (clause_variables (procedure_of pred.now))) }
{
    let vars = variables_of_clause(alloc, pred)?;
    counts_of(alloc, &vars)
}

/// How often each variable occurs in this list.
fn counts_of(alloc: Global, places: &[u32]) -> Result<Vec<u64>, NoMemory>
    ensures { IfOk result (λ counts. AreCounts counts.items places.now) }
{
    let mut counts = Vec::new(alloc);
    for place in places {
        add_variable(&mut counts, *place)?;
    }
    Ok(counts)
}

/// Adds one to the count of this variable.
fn add_variable(counts: &mut Vec<u64>, place: u32) -> Result<(), NoMemory>
    requires { slice_index counts.now.items place + 1 < 2 ^ 64 }
    ensures { OnOk result (Adds counts.old.items counts.new.items (place ∷ [])) }
{
    reach(counts, place)?;
    counts[place as usize] += 1;
    Ok(())
}

/// Makes room for the count of a variable: counts of 0 are put at the end, as far as there is none yet.
fn reach(counts: &mut Vec<u64>, place: u32) -> Result<(), NoMemory>
    ensures same { OnOk result (Adds counts.old.items counts.new.items []) }
    ensures room { OnOk result (place < length counts.new.items) }
{
    for _turn in counts.len()..place as usize + 1 {
        counts.push(0)?;
    }
    Ok(())
}
