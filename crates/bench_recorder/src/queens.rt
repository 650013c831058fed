// All solutions of the queens' puzzle, by backtracking, as `queens8.m` of `tools/bench` finds them.
use crate::history::History;
use crate::program::Call;
use md_base::NoMemory;
use std::alloc::Global;

/// Main calls `place`; that calls `del`, `safe` and itself; and these call themselves.
pub const QUEENS: [Call; 6] = [
    (0, Some(PLACE)),
    (1, Some(DEL)),
    (1, Some(SAFE)),
    (1, Some(PLACE)),
    (2, Some(DEL)),
    (3, Some(SAFE)),
];

/// Places queens on the rows that are left.
const PLACE: u32 = 1;
/// Takes a member from a list.
const DEL: u32 = 2;
/// Whether a queen is safe from those before it.
const SAFE: u32 = 3;

/// The queens so far: the free columns, the columns of the queens, and the activations of `place`.
#[derive(Drop)]
struct Board {
    alloc: Global,
    taken: Vec<u32>,
    places: Vec<u32>,
}

/// The search of all solutions on a board of this size.
pub fn queens(alloc: Global, history: &mut History, size: u32) -> Result<(), NoMemory> {
    let mut board = Board {
        alloc,
        taken: Vec::new(alloc),
        places: Vec::new(alloc),
    };
    let mut free = Vec::new(alloc);
    for column in 0..size {
        free.push(column)?;
    }
    board.place(history, 0, &free, size)
}

impl Board {
    /// Tries each free column for the next queen, at most `left` rows from the last.
    fn place(
        &mut self,
        history: &mut History,
        site: u32,
        free: &[u32],
        left: u32,
    ) -> Result<(), NoMemory> {
        self.places.push(history.call(Some(site), PLACE)?)?;
        if left == 0 {
            self.solve(history)?;
        } else {
            let mut dels = Vec::new(self.alloc);
            for column in free {
                delete(history, &mut dels)?;
                if self.is_safe(history, *column)? {
                    let rest = without(self.alloc, free, *column)?;
                    self.taken.push(*column)?;
                    self.place(history, 3, &rest, left - 1)?;
                    self.taken.pop();
                }
            }
            end(history, &dels)?;
        }
        self.places.pop();
        history.fail()
    }

    /// A solution: each `place` exits, and is asked for the next one.
    fn solve(&self, history: &mut History) -> Result<(), NoMemory> {
        for _ in 0..self.places.len() {
            history.exit()?;
        }
        for place in &self.places {
            history.redo(*place)?;
        }
        Ok(())
    }

    /// Whether a queen in this column is safe from those before it: one call for each, from the latest on.
    fn is_safe(&self, history: &mut History, column: u32) -> Result<bool, NoMemory> {
        let mut calls = 1u32;
        let mut safe = true;
        history.call(Some(2), SAFE)?;
        for taken in self.taken.iter().rev() {
            if column.abs_diff(*taken) == calls {
                safe = false;
                break;
            }
            history.call(Some(5), SAFE)?;
            calls = calls.saturating_add(1);
        }
        for _ in 0..calls {
            if safe {
                history.exit()?;
            } else {
                history.fail()?;
            }
        }
        Ok(safe)
    }
}

/// The next solution of `del`, whose activations are `dels`, the outer one first: one call more, and all exit.
fn delete(history: &mut History, dels: &mut Vec<u32>) -> Result<(), NoMemory> {
    for del in &*dels {
        history.redo(*del)?;
    }
    let site = if dels.is_empty() { 1 } else { 4 };
    dels.push(history.call(Some(site), DEL)?)?;
    for _ in 0..dels.len() {
        history.exit()?;
    }
    Ok(())
}

/// `del` has no further solution: it calls itself for the empty list, and all fail.
fn end(history: &mut History, dels: &[u32]) -> Result<(), NoMemory> {
    for del in dels {
        history.redo(*del)?;
    }
    history.call(Some(4), DEL)?;
    history.fail()?;
    for _ in dels {
        history.fail()?;
    }
    Ok(())
}

/// The columns but this one.
fn without(alloc: Global, free: &[u32], column: u32) -> Result<Vec<u32>, NoMemory> {
    let mut rest = Vec::new(alloc);
    for other in free {
        if *other != column {
            rest.push(*other)?;
        }
    }
    Ok(rest)
}
