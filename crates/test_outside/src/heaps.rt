// Values in a heap: lists that are compared, and a cell that is taken apart.
ghost use Rattle.std.specs.Prelude.{◌≡◌, ◌<◌, ◌+◌, length, IfOk, OnOk};
ghost use Rattle.md_heap.specs.Cells.{IsThere};

use crate::input::{halves, number};
use md_base::NoMemory;
use md_heap::{Heap, Same, Value};
use std::alloc::{AllocError, Global};
use test_cases::Case;

/// No list is longer than this.
const LONGEST: u32 = 1_000_000;

/// What the lines `lists FIRST SECOND LIMIT` and `pair HEAD LITERAL INTEGER` ask for.
pub fn show(alloc: Global, case: &Case, found: &mut String) -> Result<(), AllocError> {
    for field in case.fields() {
        match field.key.as_str() {
            "lists" => show_lists(alloc, field.text.as_str(), found)?,
            "pair" => show_pair(alloc, field.text.as_str(), found)?,
            _ => {}
        }
    }
    Ok(())
}

/// The number that a text is, as one of 32 bits.
fn short(text: &str) -> u32 {
    u32::try_from(number(text)).unwrap_or(u32::MAX)
}

/// Compares the lists of two lengths, within a limit of pairs.
fn show_lists(alloc: Global, text: &str, found: &mut String) -> Result<(), AllocError> {
    let (first, rest) = halves(text);
    let (second, limit) = halves(rest);
    let first = short(first).min(LONGEST);
    let second = short(second).min(LONGEST);
    match compare(alloc, first, second, short(limit)) {
        Ok(same) => writeln!(found, "{same:?}"),
        Err(NoMemory) => Err(AllocError),
    }
}

/// Compares the lists of two lengths.
fn compare(alloc: Global, first: u32, second: u32, limit: u32) -> Result<Same, NoMemory> {
    let mut heap = Heap::new(alloc);
    let a = list(&mut heap, first)?;
    let b = list(&mut heap, second)?;
    heap.same(a, b, limit)
}

/// The integers below `count` as a list, the greatest first.
fn list(heap: &mut Heap, count: u32) -> Result<Value, NoMemory>
    ensures longer { OnOk result (length heap.new ≡ length heap.old + count + 1) }
    ensures there { IfOk result (λ list. IsThere (length heap.new) list) }
{
    let mut list = heap.build(0, &[])?;
    for i in 0..count {
        list = heap.build(1, &[Value::Int(i64::from(i)), list])?;
    }
    Ok(list)
}

/// Builds a cell of a literal and an integer, and takes it apart.
fn show_pair(alloc: Global, text: &str, found: &mut String) -> Result<(), AllocError> {
    let (head, rest) = halves(text);
    let (literal, integer) = halves(rest);
    let literal = Value::Lit(u64::from(short(literal)));
    let integer = Value::Int(integer.parse().unwrap_or(0));
    match pair(alloc, short(head), literal, integer) {
        Ok(Some((head, first, second))) => writeln!(found, "{head} of {first:?} and {second:?}"),
        Ok(None) => writeln!(found, "no cell"),
        Err(NoMemory) => Err(AllocError),
    }
}

/// The head and the parts of a new cell of these two.
fn pair(
    alloc: Global,
    head: u32,
    first: Value,
    second: Value,
) -> Result<Option<(u32, Value, Value)>, NoMemory>
    requires first_there { IsThere 0 first }
    requires second_there { IsThere 0 second }
{
    let mut heap = Heap::new(alloc);
    let Value::Cell(cell) = heap.build(head, &[first, second])? else {
        return Ok(None);
    };
    Ok(Some((heap.head(cell), heap.part(cell, 0), heap.part(cell, 1))))
}
