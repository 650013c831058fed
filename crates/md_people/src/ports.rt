// Tables of ports.
ghost use Rattle.std.specs.Prelude.{◌≡◌, ◌<◌, ◌^◌, ◌++◌, ◌∷◌, [], codes, decimal, if◌then◌else◌, map, IfOk, IfSome, OnOk};
ghost use Rattle.md_cost.specs.SumOf.{sum_of};
ghost use Rattle.md_people.specs.Ports.{is_counted, ports_heading, ports_line, ports_table, shown_measures, total_cells};
ghost use Rattle.md_people.specs.Words.{measure_word};
ghost use Rattle.md_table.specs.Table.{with_cells};

use crate::costs::push_counted;
use md_base::{Measure, NoMemory};
use md_cost::Sums;
use md_table::{Lines, Table};
use std::alloc::Global;
use std::marker::Model;

/// A row of a table of ports: a total, where there is one, and own counts.
#[derive(Drop)]
pub struct PortsRow {
    total: Option<u128>,
    own: Sums,
    last: Vec<u8>,
}

impl Model for PortsRow {
    ghost use Rattle.md_people.specs.Ports.{PortsRow};
    ghost use Rattle.md_people.specs.KeptRow.{HasShare};

    ghost Value = { PortsRow };

    ghost view = { λ row. record { total = row.total; own = row.own; last = row.last.items } };

    ghost invariant = { HasShare };
}

impl PortsRow {
    ghost use Rattle.std.specs.Prelude.{◌≡◌, ◌<◌, ◌^◌, IfSome};
    ghost use Rattle.md_cost.specs.SumOf.{sum_of};

    /// A row of these parts. A total is no sum of more than 2 ^ 54 totals of 64 bits, so that its share can be told. Takes no memory.
    pub fn from_parts(total: Option<u128>, own: Sums, last: Vec<u8>) -> PortsRow
        requires { IfSome total (λ n. n < 2 ^ 118) }
        ensures { result ≡ record { total = total; own = own; last = last.items } }
    {
        PortsRow { total, own, last }
    }

    /// The total.
    pub fn total(&self) -> Option<u128>
        ensures total { result ≡ self.now.total }
        ensures small { IfSome result (λ n. n < 2 ^ 118) }
    {
        self.total
    }

    /// The own count of a measure.
    pub fn own(&self, measure: Measure) -> u64
        ensures { result ≡ sum_of self.now.own measure }
    {
        self.own.of(measure)
    }

    /// The own counts.
    pub fn sums(&self) -> Sums
        ensures { result ≡ self.now.own }
    {
        self.own
    }

    /// The cell of the last column.
    pub fn last(&self) -> &[u8]
        ensures { result.now ≡ self.now.last }
    {
        self.last.as_slice()
    }
}

/// The table of these rows, with a column for each measure of which some row has a count.
pub fn ports_table(
    alloc: Global,
    whole: u64,
    last: &[u8],
    rows: &[PortsRow],
) -> Result<Table, NoMemory>
    ensures { IfOk result (λ table. table ≡ ports_table whole last.now rows.now) }
{
    let shown = shown_measures(alloc, rows)?;
    let mut lines = Lines::new(alloc);
    push_heading(&mut lines, &shown, last)?;
    for row in rows {
        push_row(&mut lines, whole, &shown, row)?;
    }
    Ok(Table::from_lines(lines))
}

/// The measures that have a column behind calls.
fn shown_measures(alloc: Global, rows: &[PortsRow]) -> Result<Vec<Measure>, NoMemory>
    ensures { IfOk result (λ shown. shown.items ≡ shown_measures rows.now) }
{
    let mut shown = Vec::new(alloc);
    push_counted_measure(&mut shown, rows, Measure::Exits)?;
    push_counted_measure(&mut shown, rows, Measure::Fails)?;
    push_counted_measure(&mut shown, rows, Measure::Redos)?;
    push_counted_measure(&mut shown, rows, Measure::Allocs)?;
    push_counted_measure(&mut shown, rows, Measure::Words)?;
    push_counted_measure(&mut shown, rows, Measure::Excps)?;
    Ok(shown)
}

/// Adds a measure, where some row has a count of it.
fn push_counted_measure(
    shown: &mut Vec<Measure>,
    rows: &[PortsRow],
    measure: Measure,
) -> Result<(), NoMemory>
    ensures { OnOk result (shown.new.items ≡ shown.old.items ++ (if is_counted rows.now measure then measure ∷ [] else [])) }
{
    if is_counted(rows, measure) {
        shown.push(measure)?;
    }
    Ok(())
}

/// Whether some row has a count of this measure.
fn is_counted(rows: &[PortsRow], measure: Measure) -> bool
    ensures { result ≡ is_counted rows.now measure }
{
    for row in rows {
        if row.own(measure) != 0 {
            return true;
        }
    }
    false
}

/// Adds the heading, with these measures behind calls.
fn push_heading(lines: &mut Lines, shown: &[Measure], last: &[u8]) -> Result<(), NoMemory>
    ensures { OnOk result (lines.new.ended ≡ lines.old.ended ++ ports_heading shown.now last.now ∷ []) }
{
    lines.begin();
    lines.add_words(b"total")?;
    lines.add_words(b"%")?;
    lines.add_words(b"calls")?;
    push_measures(lines, shown)?;
    lines.end(last)
}

/// Adds the words of these measures.
fn push_measures(lines: &mut Lines, shown: &[Measure]) -> Result<(), NoMemory>
    ensures { OnOk result (lines.new ≡ with_cells lines.old (map measure_word shown.now)) }
{
    for measure in shown {
        lines.add_words(measure_word(*measure))?;
    }
    Ok(())
}

/// Adds the line of a row, with its own counts of these measures behind calls.
fn push_row(
    lines: &mut Lines,
    whole: u64,
    shown: &[Measure],
    row: &PortsRow,
) -> Result<(), NoMemory>
    ensures { OnOk result (lines.new.ended ≡ lines.old.ended ++ ports_line whole shown.now row.now ∷ []) }
{
    lines.begin();
    push_total(lines, row.total(), whole)?;
    lines.add_count(row.own(Measure::Calls) as u128)?;
    push_counts(lines, shown, row)?;
    lines.end(row.last())
}

/// Adds a total and its share, or that there is none.
fn push_total(lines: &mut Lines, total: Option<u128>, whole: u64) -> Result<(), NoMemory>
    requires { IfSome total (λ n. n < 2 ^ 118) }
    ensures { OnOk result (lines.new ≡ with_cells lines.old (total_cells total whole)) }
{
    match total {
        Some(total) => push_counted(lines, total, whole),
        None => {
            lines.add_words(b"-")?;
            lines.add_words(b"-")
        }
    }
}

/// Adds the own counts of these measures.
fn push_counts(lines: &mut Lines, shown: &[Measure], row: &PortsRow) -> Result<(), NoMemory>
    ensures { OnOk result (lines.new ≡ with_cells lines.old (map (λ m. decimal (sum_of row.now.own m)) shown.now)) }
{
    for measure in shown {
        lines.add_count(row.own(*measure) as u128)?;
    }
    Ok(())
}

/// The lower-case name of a measure.
pub fn measure_word(measure: Measure) -> &'static [u8]
    ensures { result.now ≡ measure_word measure }
{
    match measure {
        Measure::Calls => b"calls",
        Measure::Exits => b"exits",
        Measure::Fails => b"fails",
        Measure::Redos => b"redos",
        Measure::Allocs => b"allocs",
        Measure::Words => b"words",
        Measure::Excps => b"excps",
    }
}
