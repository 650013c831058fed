// What equations settle.
ghost use Rattle.std.specs.Prelude.{◌≡◌, IfOk, replicate};
ghost use Rattle.md_cover.specs.Known.{Rounds, table_of, nothing_known, value_at, value_from, know, has_place, has, put, put_from, step, changes_at, round_of, back_of, changes, unknown_and, or_zero, open_of, settled_of};

use crate::equation::{Equation, Quantity};
use md_base::NoMemory;
use std::alloc::Global;

/// What is known of the quantities of goals, whose numbers follow each other from `first` on.
#[derive(Drop)]
pub(crate) struct Known {
    pub first: u32,
    pub entries: Vec<Option<u64>>,
    pub exits: Vec<Option<u64>>,
}

/// Of quantities, those that aren't known: none, one, or more.
#[derive(Clone, Copy)]
pub(crate) enum Unknown {
    Nothing,
    One(Quantity),
    More,
}

/// The sum of those parts of an equation that are known, with its number, and the others.
#[derive(Clone, Copy)]
pub(crate) struct Open {
    pub sum: u64,
    pub unknown: Unknown,
}

/// A quantity and its value.
#[derive(Clone, Copy)]
pub(crate) struct Settled {
    pub quantity: Quantity,
    pub value: u64,
}

impl Known {
    /// Nothing of so many goals, the first of which has this number.
    pub fn nothing(alloc: Global, first: u32, count: usize) -> Result<Known, NoMemory>
        ensures { IfOk result (λ known. table_of known ≡ nothing_known first count) }
    {
        let entries = blanks(alloc, count)?;
        let exits = blanks(alloc, count)?;
        Ok(Known {
            first,
            entries,
            exits,
        })
    }

    /// What is known of a quantity.
    pub fn get(&self, quantity: Quantity) -> Option<u64>
        ensures { result ≡ know (table_of self.now) quantity }
    {
        match quantity {
            Quantity::Entries(goal) => value_from(self.first, &self.entries, goal),
            Quantity::Exits(goal) => value_from(self.first, &self.exits, goal),
        }
    }

    /// What is known of how often the goal at this place among the goals is entered.
    pub fn turns(&self, place: u32) -> Option<u64>
        ensures { result ≡ value_at self.now.entries.items place }
    {
        value_at(&self.entries, place)
    }

    /// What an equation settles: its one quantity that isn't known, if it has exactly one.
    pub fn settled(&self, equation: &Equation) -> Option<Settled>
        ensures { result ≡ settled_of (know (table_of self.now)) equation.now }
    {
        let open = self.open(equation);
        match (self.get(equation.whole), open.unknown) {
            (None, Unknown::Nothing) => Some(Settled {
                quantity: equation.whole,
                value: open.sum,
            }),
            (Some(whole), Unknown::One(quantity)) => Some(Settled {
                quantity,
                value: whole.saturating_sub(open.sum),
            }),
            _ => None,
        }
    }

    /// Whether the quantity has a place.
    fn has(&self, quantity: Quantity) -> bool
        ensures { result ≡ has (table_of self.now) quantity }
    {
        match quantity {
            Quantity::Entries(goal) => has_place(self.first, self.entries.len(), goal),
            Quantity::Exits(goal) => has_place(self.first, self.exits.len(), goal),
        }
    }

    /// Takes down a value. A quantity without a place is left out.
    fn put(&mut self, settled: Settled)
        ensures { table_of self.new ≡ put (table_of self.old) settled }
    {
        match settled.quantity {
            Quantity::Entries(goal) => {
                put_from(self.first, &mut self.entries, goal, settled.value)
            }
            Quantity::Exits(goal) => put_from(self.first, &mut self.exits, goal, settled.value),
        }
    }

    /// Takes down what equations settle, in rounds forward and back in turn, until nothing changes.
    pub fn solve(&mut self, equations: &[Equation])
        ensures { Rounds equations.now (table_of self.old) (table_of self.new) }
    {
        while self.round(equations) {
            self.round_back(equations);
        }
    }

    /// Takes down what each equation settles, from the first to the last; gives whether there was any.
    fn round(&mut self, equations: &[Equation]) -> bool
        ensures known { table_of self.new ≡ round_of (table_of self.old) equations.now }
        ensures changed { result ≡ changes (table_of self.old) equations.now }
    {
        let mut changed = false;
        for equation in equations {
            changed = self.take(equation) || changed;
        }
        changed
    }

    /// Takes down what each equation settles, from the last to the first.
    fn round_back(&mut self, equations: &[Equation])
        ensures { table_of self.new ≡ back_of (table_of self.old) equations.now }
    {
        for place in (0..equations.len()).rev() {
            self.take(&equations[place]);
        }
    }

    /// Takes down what an equation settles; gives whether it is any.
    fn take(&mut self, equation: &Equation) -> bool
        ensures known { table_of self.new ≡ step (table_of self.old) equation.now }
        ensures changed { result ≡ changes_at (table_of self.old) equation.now }
    {
        match self.settled(equation) {
            Some(settled) => {
                self.put(settled);
                self.has(settled.quantity)
            }
            None => false,
        }
    }

    fn open(&self, equation: &Equation) -> Open
        ensures { result ≡ open_of (know (table_of self.now)) equation.now.number equation.now.parts.items }
    {
        let mut sum = equation.number;
        let mut unknown = Unknown::Nothing;
        for part in equation.parts.as_slice() {
            let value = self.get(*part);
            sum = sum.saturating_add(or_zero(value));
            unknown = unknown.and(value, *part);
        }
        Open { sum, unknown }
    }
}

impl Unknown {
    /// With one more quantity, of which this is known.
    fn and(self, value: Option<u64>, quantity: Quantity) -> Unknown
        ensures { result ≡ unknown_and self value quantity }
    {
        match (value, self) {
            (Some(_), unknown) => unknown,
            (None, Unknown::Nothing) => Unknown::One(quantity),
            (None, _) => Unknown::More,
        }
    }
}

/// Values of so many goals, none of which is known.
fn blanks(alloc: Global, count: usize) -> Result<Vec<Option<u64>>, NoMemory>
    ensures { IfOk result (λ values. values.items ≡ replicate count None) }
{
    Ok(vec![in alloc; None; count]?)
}

/// Whether the goal of a number has a place among so many values, the first of which is that of the goal `first`.
fn has_place(first: u32, count: usize, goal: u32) -> bool
    ensures { result ≡ has_place first count goal }
{
    if goal < first {
        return false;
    }
    ((goal - first) as usize) < count
}

/// Takes down a value of a goal, if it has a place.
fn put_from(first: u32, values: &mut Vec<Option<u64>>, goal: u32, value: u64)
    ensures { values.new.items ≡ put_from first values.old.items goal value }
{
    if has_place(first, values.len(), goal) {
        values[(goal - first) as usize] = Some(value);
    }
}

fn or_zero(value: Option<u64>) -> u64
    ensures { result ≡ or_zero value }
{
    match value {
        Some(value) => value,
        None => 0,
    }
}

/// The value of the goal of a number, where the first value is that of the goal `first`.
fn value_from(first: u32, values: &[Option<u64>], goal: u32) -> Option<u64>
    ensures { result ≡ value_from first values.now goal }
{
    if goal < first {
        return None;
    }
    value_at(values, goal - first)
}

fn value_at(values: &[Option<u64>], place: u32) -> Option<u64>
    ensures { result ≡ value_at values.now place }
{
    match values.get(place as usize) {
        Some(value) => *value,
        None => None,
    }
}
