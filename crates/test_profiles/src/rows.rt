// Rows of a page, from the lines of a case.
use crate::lines::numbers;
use md_base::{CsdId, PdId, ProcId, SiteId};
use md_cost::Sums;
use md_query::{Row, What};
use std::alloc::{AllocError, Global};
use test_cases::Case;

/// The rows of a case: each `row` has its kind and its numbers.
pub fn rows_of(alloc: Global, case: &Case) -> Result<Vec<Row>, AllocError> {
    let mut rows = Vec::new(alloc);
    for field in case
        .fields()
        .iter()
        .filter(|field| field.key.as_str() == "row")
    {
        add_row(alloc, field.text.as_str(), &mut rows)?;
    }
    Ok(rows)
}

fn add_row(alloc: Global, line: &str, rows: &mut Vec<Row>) -> Result<(), AllocError> {
    let Some((kind, rest)) = line.split_once(' ') else {
        return Ok(());
    };
    let numbers = numbers(alloc, rest)?;
    if let Some(row) = row_of(kind, numbers.as_slice()) {
        rows.push(row)?;
    }
    Ok(())
}

/// A row by its kind and its numbers: what it is of, and then its own counts and its total, seven numbers each.
fn row_of(kind: &str, numbers: &[u64]) -> Option<Row> {
    match kind {
        "main" => Some(Row::Main {
            module: id(numbers),
        }),
        "finished" => Some(Row::Finished(id(numbers) == 1)),
        "links" => Some(Row::Number {
            what: What::Links,
            n: at(numbers, 0),
        }),
        "own" => Some(Row::Own(sums(numbers, 0))),
        "total" => Some(Row::Total(sums(numbers, 0))),
        "module" => Some(Row::Module {
            id: id(numbers),
            procs: small(at(numbers, 1)),
            own: sums(numbers, 2),
            total: sums(numbers, 9),
        }),
        _ => row_of_one(kind, id(numbers), sums(numbers, 1), sums(numbers, 8)),
    }
}

/// A row that is of one thing, which has this number.
fn row_of_one(kind: &str, id: u32, own: Sums, total: Sums) -> Option<Row> {
    match kind {
        "entered" => Some(Row::Entered {
            link: CsdId::new(id),
            own,
        }),
        "context" => Some(Row::Context {
            node: PdId::new(id),
            own,
            total,
        }),
        "leaving" => Some(Row::Leaving {
            link: CsdId::new(id),
            own,
            total,
        }),
        "inside" => Some(Row::Inside {
            link: CsdId::new(id),
            own,
        }),
        _ => row_of_text(kind, id, own, total),
    }
}

/// A row that is of a procedure, of a context of one, or of a call site.
fn row_of_text(kind: &str, id: u32, own: Sums, total: Sums) -> Option<Row> {
    match kind {
        "proc" => Some(Row::Proc {
            id: ProcId::new(id),
            own,
            total,
        }),
        "of" => Some(Row::Of {
            node: PdId::new(id),
            own,
            total,
        }),
        "site" => Some(Row::Site {
            id: SiteId::new(id),
            own,
            total,
        }),
        _ => None,
    }
}

/// Seven sums, from a place on.
fn sums(numbers: &[u64], place: usize) -> Sums {
    let numbers = match numbers.split_at_checked(place) {
        Some((_, rest)) => rest,
        None => &[],
    };
    Sums {
        calls: at(numbers, 0),
        exits: at(numbers, 1),
        fails: at(numbers, 2),
        redos: at(numbers, 3),
        allocs: at(numbers, 4),
        words: at(numbers, 5),
        excps: at(numbers, 6),
    }
}

/// The first number, which is one of 32 bits.
fn id(numbers: &[u64]) -> u32 {
    small(at(numbers, 0))
}

/// A number of 32 bits, or the greatest one.
fn small(number: u64) -> u32 {
    match u32::try_from(number) {
        Ok(number) => number,
        Err(_) => u32::MAX,
    }
}

/// The number at a place, or 0.
fn at(numbers: &[u64], place: usize) -> u64 {
    match numbers.get(place) {
        Some(number) => *number,
        None => 0,
    }
}
