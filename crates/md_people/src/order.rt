// Rows of tables of ports in order.
ghost use Rattle.std.specs.Prelude.{◌≡◌, ◌<◌, ◌^◌, All, IfOk, length, map, slice_index_or};
ghost use Rattle.std.specs.List.{range_with_len};
ghost use Rattle.md_people.specs.Callers.{in_order};
ghost use Rattle.md_people.specs.Order.{IsKeyOf};
ghost use Rattle.md_people.specs.Ports.{PortsRow};

use crate::ports::PortsRow;
use md_base::{Measure, NoMemory};
use std::alloc::Global;
use std::cmp::Reverse;

/// What a row is sorted by: its total, its calls, and its place.
type Key = (Reverse<Option<u128>>, Reverse<u64>, usize);

/// The rows with a total first, the greatest first, and of equal ones, or where there is none, that of more calls. Rows that are equal in
/// this keep their order.
pub(crate) fn in_order(alloc: Global, rows: &[PortsRow]) -> Result<Vec<PortsRow>, NoMemory>
    ensures { IfOk result (λ sorted. sorted.items ≡ in_order rows.now) }
{
    let mut keys = keys_of(alloc, rows)?;
    keys.sort_unstable();
    let mut sorted = Vec::new(alloc);
    for key in &keys {
        let row = row_again(alloc, rows, key.2)?;
        sorted.push(row)?;
    }
    Ok(sorted)
}

/// What each row is sorted by.
fn keys_of(alloc: Global, rows: &[PortsRow]) -> Result<Vec<Key>, NoMemory>
    ensures places { IfOk result (λ keys. map (λ x. x.2) keys.items ≡ range_with_len 0 (length rows.now)) }
    ensures keys { IfOk result (λ keys. All (IsKeyOf rows.now) keys.items) }
{
    let mut keys = Vec::new(alloc);
    for place in 0..rows.len() {
        let row = &rows[place];
        keys.push((
            Reverse(row.total()),
            Reverse(row.own(Measure::Calls)),
            place,
        ))?;
    }
    Ok(keys)
}

/// The row at a place once more.
fn row_again(alloc: Global, rows: &[PortsRow], place: usize) -> Result<PortsRow, NoMemory>
    requires { place < length rows.now }
    ensures { IfOk result (λ row. (d : PortsRow) → row ≡ slice_index_or rows.now place d) }
{
    let row = &rows[place];
    let last = Vec::from_slice(alloc, row.last())?;
    Ok(PortsRow::from_parts(row.total(), row.sums(), last))
}
