// Pages for people as HTML.
ghost use Rattle.std.specs.Prelude.{◌≡◌, ◌++◌, codes, OnOk};
ghost use Rattle.std.specs.List.{flat_map};
ghost use Rattle.md_render.specs.Kept.{names_in};
ghost use Rattle.md_render.specs.Address.{sort_of};
ghost use Rattle.md_render.specs.Words.{measure_word};
ghost use Rattle.md_render.specs.People.{line_html, marked_words, opening_words, rows_html, shown_html, size_in, size_of, styled_words, tables_html, turn_words, turns_words};
ghost use Rattle.md_table.specs.Html as tables;

use crate::address::{add_address, add_sort};
use crate::form::Form;
use crate::line::add_row;
use crate::number::{add, add_more};
use crate::sheet::add_sheet;
use crate::title::measure_word;
use md_base::Measure;
use md_cost::Loaded;
use md_query::{Row, Title};
use md_table::Table;
use std::alloc::{AllocError, Global};

/// How many rows of a page are shown.
const MOST_ROWS: usize = 1000;

/// Adds what comes before the lines of a page of this title, which is escaped already: the sheet of styles, and the title in two places.
pub(crate) fn add_opening(out: &mut Vec<u8>, title: &[u8]) -> Result<(), AllocError>
    ensures { OnOk result (out.new.items ≡ out.old.items ++ opening_words title.now) }
{
    add(
        out,
        b"<!DOCTYPE html>\n<html lang=\"en\"><head><meta charset=\"utf-8\"><meta name=\"viewport\" content=\"width=device-width\"><title>",
    )?;
    add(out, title)?;
    add_styled(out)?;
    add(out, title)?;
    add(out, b"</h1>\n")
}

/// Adds the sheet, between the title and the heading.
fn add_styled(out: &mut Vec<u8>) -> Result<(), AllocError>
    ensures { OnOk result (out.new.items ≡ out.old.items ++ styled_words) }
{
    add(out, b"</title>\n<style>\n")?;
    add_sheet(out)?;
    add(out, b"</style></head><body>\n<h1>")
}

/// Adds anchors to the page by each measure, of which it has this one.
pub(crate) fn add_turns(out: &mut Vec<u8>, title: &Title, by: Measure) -> Result<(), AllocError>
    ensures { OnOk result (out.new.items ≡ out.old.items ++ turns_words title.now by) }
{
    let measures = [
        Measure::Calls,
        Measure::Exits,
        Measure::Fails,
        Measure::Redos,
        Measure::Allocs,
        Measure::Words,
        Measure::Excps,
    ];
    add(out, b"<nav>\n")?;
    add_each_turn(out, title, by, &measures)?;
    add(out, b"</nav>\n")
}

/// Adds an anchor to the page by each of these measures.
fn add_each_turn(
    out: &mut Vec<u8>,
    title: &Title,
    by: Measure,
    measures: &[Measure],
) -> Result<(), AllocError>
    ensures { OnOk result (out.new.items ≡ out.old.items ++ flat_map (turn_words title.now by) measures.now) }
{
    for measure in measures {
        add_turn(out, title, by, *measure)?;
    }
    Ok(())
}

/// Adds an anchor to the page by a measure.
fn add_turn(
    out: &mut Vec<u8>,
    title: &Title,
    by: Measure,
    measure: Measure,
) -> Result<(), AllocError>
    ensures { OnOk result (out.new.items ≡ out.old.items ++ turn_words title.now by measure) }
{
    add(out, b"<a href=\"")?;
    add_address(out, title, measure)?;
    add(out, marked(by, measure))?;
    add(out, measure_word(measure))?;
    add(out, b"</a>\n")
}

/// The end of an anchor's tag, which marks the measure of the page.
fn marked(by: Measure, measure: Measure) -> &'static [u8]
    ensures { result.now ≡ marked_words by measure }
{
    if measure_word(measure) == measure_word(by) {
        b"\" class=\"on\">"
    } else {
        b"\">"
    }
}

/// Adds the lines and the tables of a page of this title, with the first rows, and how many more there are.
pub(crate) fn add_tables(
    out: &mut Vec<u8>,
    loaded: &Loaded,
    title: &Title,
    by: Measure,
    rows: &[Row],
) -> Result<(), AllocError>
    ensures { OnOk result (out.new.items ≡ out.old.items ++ tables_html (names_in loaded.now) by (sort_of title.now) rows.now) }
{
    let alloc: Global = *out.allocator();
    let mut sort = Vec::new(alloc);
    add_sort(&mut sort, title)?;
    add_rows(out, loaded, by, &sort, rows)?;
    add_more(out, size_in(rows).saturating_sub(MOST_ROWS as u128))
}

/// Adds each row of a page, of the tables the first rows.
fn add_rows(
    out: &mut Vec<u8>,
    loaded: &Loaded,
    by: Measure,
    sort: &[u8],
    rows: &[Row],
) -> Result<(), AllocError>
    ensures { OnOk result (out.new.items ≡ out.old.items ++ rows_html (names_in loaded.now) by sort.now 1000 rows.now) }
{
    let mut room = MOST_ROWS;
    for row in rows {
        add_shown(out, loaded, by, sort, room, row)?;
        room = room.saturating_sub(size_of(row));
    }
    Ok(())
}

/// Adds a row of a page, of a table as many rows as there is room for.
fn add_shown(
    out: &mut Vec<u8>,
    loaded: &Loaded,
    by: Measure,
    sort: &[u8],
    room: usize,
    row: &Row,
) -> Result<(), AllocError>
    ensures { OnOk result (out.new.items ≡ out.old.items ++ shown_html (names_in loaded.now) by sort.now room row.now) }
{
    match row {
        Row::Table(table) => add_table(out, table, by, sort, room),
        _ => add_line(out, loaded, row),
    }
}

fn add_table(
    out: &mut Vec<u8>,
    table: &Table,
    by: Measure,
    sort: &[u8],
    room: usize,
) -> Result<(), AllocError>
    ensures { OnOk result (out.new.items ≡ out.old.items ++ tables.html_of (measure_word by) sort.now room table.now) }
{
    match md_table::add_html(out, table, measure_word(by), sort, room) {
        Ok(()) => Ok(()),
        Err(_) => Err(AllocError),
    }
}

/// Adds a row that is no table as a line.
fn add_line(out: &mut Vec<u8>, loaded: &Loaded, row: &Row) -> Result<(), AllocError>
    ensures { OnOk result (out.new.items ≡ out.old.items ++ line_html (names_in loaded.now) row.now) }
{
    add(out, b"<p>")?;
    add_row(out, Form::Html, loaded, row)?;
    add(out, b"</p>\n")
}

/// How many rows the tables of a page have.
fn size_in(rows: &[Row]) -> u128
    ensures { result ≡ size_in rows.now }
{
    let mut size: u128 = 0;
    for row in rows {
        size += size_of(row) as u128;
    }
    size
}

/// How many rows a table has.
fn size_of(row: &Row) -> usize
    ensures { result ≡ size_of row.now }
{
    match row {
        Row::Table(table) => table.len(),
        _ => 0,
    }
}
