// Where goals stand.
ghost use Rattle.std.specs.Prelude.{◌≡◌, ◌+◌, suc, Some, IfOk};
ghost use Rattle.md_hlds.specs.Hlds.{Hlds, hlds_of, goal_at};
ghost use Rattle.md_hlds.specs.HldsGoal.{HldsGoal, goal_size};
ghost use Rattle.md_code.specs.Blocks as spec;
ghost use Rattle.md_code.specs.Told.{place_told, end_told, trial_told};
ghost use Rattle.md_code.specs.Leaves.{leaves_table};
ghost use Rattle.md_code.specs.Tables.{head_at};

use crate::number::{POP, end_at, head_at, plus};
use crate::survey::one_if;
use crate::tables::Tables;
use md_base::NoMemory;

/// What comes at the end of a goal that is a part of another, or a body.
#[derive(Clone, Copy)]
pub enum End {
    /// Of a part of a conjunction, what comes next stands in the part itself.
    Along,
    /// Of one of several parts: what is pending is charged, and then it goes on; where the others may leave a choice and it
    /// can't, it leaves one that fails to `other`.
    Joining { other: Option<u32>, next: u32 },
    /// Of a condition or what a quantified goal is of: the choices above the height that a slot keeps are dropped, and it
    /// goes on.
    Holding { height: Option<u32>, next: u32 },
    /// Of what is negated: the same, and then the negation fails to `other`.
    Denying { height: Option<u32>, other: u32 },
    /// Of a body that is cut at its first answer.
    Exiting { procedure: u32, height: Option<u32> },
    /// Of a body that may have more answers, and fails to `other` at a redo.
    Yielding { procedure: u32, other: u32 },
}

/// How a goal is come to: as an arm of a disjunction that is followed by another, which is tried at an address, as the last
/// arm, as a body before which a slot keeps the height of the stack, or in no such way.
#[derive(Clone, Copy)]
pub enum Trial {
    NoArm,
    LastArm,
    ArmBefore { other: u32 },
    Keeping { height: u32 },
}

/// Where it goes on after a goal and where it fails to; what is pending before it; the first slot for heights of its own; how
/// many slots the frame has; its end, and how it is tried.
#[derive(Clone, Copy)]
pub struct Place {
    pub next: u32,
    pub other: u32,
    pub pending: u32,
    pub height: u32,
    pub size: u32,
    pub end: End,
    pub trial: Trial,
}

/// How a part is begun: where it fails to, what is pending before it, and the first slot for heights of its own.
#[derive(Clone, Copy)]
pub struct Entry {
    pub other: u32,
    pub pending: u32,
    pub height: u32,
}

impl Place {
    /// A part of the goal at this place.
    pub fn part(self, next: u32, entry: Entry, end: End, trial: Trial) -> Place
        ensures { place_told result ≡ spec.part_of (place_told self) next entry.other entry.pending entry.height (end_told end) (trial_told trial) }
    {
        Place {
            next,
            other: entry.other,
            pending: entry.pending,
            height: entry.height,
            size: self.size,
            end,
            trial,
        }
    }
}

/// Where it fails to behind a goal that may leave a choice or not.
pub fn other_after(other: u32, leaves: bool) -> u32
    ensures { result ≡ spec.other_after other leaves }
{
    if leaves { POP } else { other }
}

/// The slot for the height of a goal that is cut, if it may leave a choice.
pub fn height_if(leaves: bool, height: u32) -> Option<u32>
    ensures { result ≡ spec.height_if leaves height }
{
    if leaves { Some(height) } else { None }
}

/// Where a part that can't leave a choice fails to once more, if that isn't the newest choice.
fn join_other(other: u32) -> Option<u32>
    ensures { result ≡ spec.join_other other }
{
    if other == POP { None } else { Some(other) }
}

/// The end of one of several parts of a goal.
fn joining(part: bool, whole: bool, other: u32, next: u32) -> End
    ensures { end_told result ≡ spec.joining part whole other next }
{
    if part || !whole {
        return End::Joining { other: None, next };
    }
    End::Joining {
        other: join_other(other),
        next,
    }
}

/// A part with a number of its own, one of several, of the goal of this number.
pub fn branch_place(
    tables: &Tables,
    number: u32,
    part: u32,
    at: Place,
    entry: Entry,
    trial: Trial,
) -> Result<Place, NoMemory>
    ensures { IfOk result (λ place. place_told place
        ≡ spec.branch (hlds_of tables.now.source.checked.now) number part (place_told at) entry.other entry.pending entry.height (trial_told trial)) }
{
    let next = end_at(part)?;
    let end = joining(
        tables.leaves(part),
        tables.leaves(number),
        entry.other,
        at.next,
    );
    Ok(at.part(next, entry, end, trial))
}

/// The condition of the goal of this number, which goes on elsewhere where it has no solution.
pub fn condition_place(
    tables: &Tables,
    number: u32,
    at: Place,
    otherwise: u32,
    end: End,
) -> Result<Place, NoMemory>
    ensures { IfOk result (λ place. place_told place
        ≡ spec.condition_place (hlds_of tables.now.source.checked.now) number (place_told at) otherwise (end_told end)) }
{
    let first = plus(number, 1)?;
    let leaves = tables.leaves(first);
    let entry = Entry {
        other: other_after(otherwise, leaves),
        pending: plus(at.pending, 1)?,
        height: plus(at.height, one_if(leaves))?,
    };
    Ok(at.part(end_at(first)?, entry, end, Trial::NoArm))
}

/// What the goal of this number negates.
pub fn negated_place(tables: &Tables, number: u32, at: Place) -> Result<Place, NoMemory>
    ensures { IfOk result (λ place. place_told place ≡ spec.negated_place (hlds_of tables.now.source.checked.now) number (place_told at)) }
{
    let leaves = tables.leaves(plus(number, 1)?);
    let end = End::Denying {
        height: height_if(leaves, at.height),
        other: at.other,
    };
    condition_place(tables, number, at, at.next, end)
}

/// What the goal of this number quantifies.
pub fn some_place(tables: &Tables, number: u32, at: Place) -> Result<Place, NoMemory>
    ensures { IfOk result (λ place. place_told place ≡ spec.some_place (hlds_of tables.now.source.checked.now) number (place_told at)) }
{
    let first = plus(number, 1)?;
    let leaves = tables.leaves(first);
    let entry = Entry {
        other: at.other,
        pending: plus(at.pending, 1)?,
        height: plus(at.height, one_if(leaves))?,
    };
    let end = End::Holding {
        height: height_if(leaves, at.height),
        next: at.next,
    };
    Ok(at.part(end_at(first)?, entry, end, Trial::NoArm))
}

/// The three parts of an if-then-else.
#[derive(Clone, Copy)]
pub struct Branches {
    pub condition: Place,
    pub then: Place,
    pub otherwise: Place,
}

/// The parts of the if-then-else of this number.
pub fn places_of_test(tables: &Tables, number: u32, at: Place) -> Result<Branches, NoMemory>
    ensures { IfOk result (λ places. (c t : HldsGoal) → goal_at (hlds_of tables.now.source.checked.now) (suc number) ≡ Some c
        → goal_at (hlds_of tables.now.source.checked.now) (suc number + goal_size c) ≡ Some t
        → (place_told places.condition ≡ spec.if_condition (hlds_of tables.now.source.checked.now) number c t (place_told at))
        × (place_told places.then ≡ spec.then_place (hlds_of tables.now.source.checked.now) number c (place_told at))
        × (place_told places.otherwise ≡ spec.else_place (hlds_of tables.now.source.checked.now) number c t (place_told at))) }
{
    let first = plus(number, 1)?;
    let second = tables.after(first)?;
    let third = tables.after(second)?;
    let condition = tried_place(tables, number, second, third, at)?;
    let fact = tables.fact(first);
    let height = plus(plus(at.height, one_if(tables.leaves(first)))?, fact.heights)?;
    let met = Entry {
        other: at.other,
        pending: fact.change.pending_behind(plus(at.pending, 1)?)?,
        height,
    };
    let then = branch_place(tables, number, second, at, met, Trial::NoArm)?;
    let unmet = Entry {
        other: at.other,
        pending: 0,
        height: plus(height, tables.fact(second).heights)?,
    };
    let otherwise = branch_place(tables, number, third, at, unmet, Trial::NoArm)?;
    Ok(Branches {
        condition,
        then,
        otherwise,
    })
}

/// The condition of an if-then-else, whose then part and else part have these numbers.
fn tried_place(
    tables: &Tables,
    number: u32,
    then: u32,
    otherwise: u32,
    at: Place,
) -> Result<Place, NoMemory>
    ensures { IfOk result (λ place. place_told place ≡ spec.condition_place (hlds_of tables.now.source.checked.now) number (place_told at) (head_at otherwise)
        (spec.Holding (spec.height_if (leaves_table (hlds_of tables.now.source.checked.now) (suc number)) at.height) (head_at then))) }
{
    let leaves = tables.leaves(plus(number, 1)?);
    let end = End::Holding {
        height: height_if(leaves, at.height),
        next: head_at(then)?,
    };
    condition_place(tables, number, at, head_at(otherwise)?, end)
}
