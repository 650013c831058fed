// A table as HTML.
ghost use Rattle.std.specs.Prelude.{◌≡◌, ◌++◌, [], OnOk, slice_index_or, take};
ghost use Rattle.std.specs.List.{flat_map};
ghost use Rattle.md_table.specs.Anchors.{anchor};
ghost use Rattle.md_table.specs.Html.{bar_words, cell_below, cells_html, heading_html, heading_words, headings_html, html_of, is_share, is_sorted, last_html, last_words, plain_html, row_html, share_html};

use crate::add::add;
use crate::anchor::{add_escaped, add_named, add_text_html};
use crate::row::Row;
use crate::table::Table;
use crate::target::Target;
use md_base::NoMemory;
use std::alloc::AllocError;

/// Adds the table as HTML: a row of headings, and a row for each of the first `most` rows, with the same cells in the same order. A share
/// has the width of its bar, and in the last column procedures, contexts, cliques and modules are anchors.
///
/// `by` is the name of the measure of the page, in which nothing needs an escape. `sort` is the address to which the headings `total` and
/// `own` lead with their names behind it, as it stands in HTML, and is empty where they lead nowhere.
pub fn add_html(
    out: &mut Vec<u8>,
    table: &Table,
    by: &[u8],
    sort: &[u8],
    most: usize,
) -> Result<(), NoMemory>
    ensures { OnOk result (out.new.items ≡ out.old.items ++ html_of by.now sort.now most table.now) }
{
    add(out, b"<table>\n")?;
    add_headings(out, sort, &table.heading())?;
    add_rows(out, by, table, most)?;
    add(out, b"</table>\n")?;
    Ok(())
}

/// Adds the row of headings.
fn add_headings(out: &mut Vec<u8>, sort: &[u8], line: &Row) -> Result<(), AllocError>
    ensures { OnOk result (out.new.items ≡ out.old.items ++ headings_html sort.now line.now) }
{
    add(out, b"<tr>")?;
    add_each_heading(out, sort, line)?;
    add_heading(out, b"", line.last())?;
    add(out, b"</tr>\n")
}

/// Adds the headings of all columns but the last.
fn add_each_heading(out: &mut Vec<u8>, sort: &[u8], line: &Row) -> Result<(), AllocError>
    ensures { OnOk result (out.new.items ≡ out.old.items ++ flat_map (heading_html sort.now) line.now.cells) }
{
    for column in 0..line.len() {
        add_heading(out, sort, line.get(column))?;
    }
    Ok(())
}

/// Adds a heading.
fn add_heading(out: &mut Vec<u8>, sort: &[u8], heading: &[u8]) -> Result<(), AllocError>
    ensures { OnOk result (out.new.items ≡ out.old.items ++ heading_html sort.now heading.now) }
{
    add(out, b"<th>")?;
    add_heading_words(out, sort, heading)?;
    add(out, b"</th>")
}

fn add_heading_words(out: &mut Vec<u8>, sort: &[u8], heading: &[u8]) -> Result<(), AllocError>
    ensures { OnOk result (out.new.items ≡ out.old.items ++ heading_words sort.now heading.now) }
{
    if is_sorted(sort, heading) {
        add_sorting(out, sort, heading)
    } else {
        add_escaped(out, heading)
    }
}

/// Adds a heading that leads to the page sorted by it.
fn add_sorting(out: &mut Vec<u8>, sort: &[u8], heading: &[u8]) -> Result<(), AllocError>
    ensures { OnOk result (out.new.items ≡ out.old.items ++ anchor (sort.now ++ heading.now) heading.now) }
{
    add(out, b"<a href=\"")?;
    add(out, sort)?;
    add(out, heading)?;
    add(out, b"\">")?;
    add(out, heading)?;
    add(out, b"</a>")
}

/// Whether a heading leads to the page sorted by it.
fn is_sorted(sort: &[u8], heading: &[u8]) -> bool
    ensures { result ≡ is_sorted sort.now heading.now }
{
    !sort.is_empty() && (heading == b"total".as_slice() || heading == b"own".as_slice())
}

/// Adds the first `most` rows.
fn add_rows(out: &mut Vec<u8>, by: &[u8], table: &Table, most: usize) -> Result<(), AllocError>
    ensures { OnOk result (out.new.items ≡ out.old.items ++ flat_map (row_html by.now table.now.heading) (take most table.now.rows)) }
{
    let heading = table.heading();
    for place in 0..most.min(table.len()) {
        add_row(out, by, &heading, &table.row(place))?;
    }
    Ok(())
}

/// Adds a row below this heading.
fn add_row(out: &mut Vec<u8>, by: &[u8], heading: &Row, line: &Row) -> Result<(), AllocError>
    ensures { OnOk result (out.new.items ≡ out.old.items ++ row_html by.now heading.now line.now) }
{
    add(out, b"<tr>")?;
    add_cells(out, heading, line)?;
    add_last(out, by, heading.last(), line.last())?;
    add(out, b"</tr>\n")
}

/// Adds the cells of a row but the last, each below its heading.
fn add_cells(out: &mut Vec<u8>, heading: &Row, line: &Row) -> Result<(), AllocError>
    ensures { OnOk result (out.new.items ≡ out.old.items ++ cells_html heading.now.cells line.now.cells) }
{
    for column in 0..line.len() {
        add_below(out, heading_at(heading, column), line.get(column))?;
    }
    Ok(())
}

/// The heading of a column, which is empty where there is none.
fn heading_at<'a>(heading: &'a Row<'_>, column: usize) -> &'a [u8]
    ensures { result.now ≡ slice_index_or heading.now.cells column [] }
{
    if column < heading.len() {
        heading.get(column)
    } else {
        b""
    }
}

/// Adds a cell below this heading.
fn add_below(out: &mut Vec<u8>, heading: &[u8], cell: &[u8]) -> Result<(), AllocError>
    ensures { OnOk result (out.new.items ≡ out.old.items ++ cell_below heading.now cell.now) }
{
    if is_share(heading, cell) {
        add_share(out, cell)
    } else {
        add_plain(out, cell)
    }
}

fn is_share(heading: &[u8], cell: &[u8]) -> bool
    ensures { result ≡ is_share heading.now cell.now }
{
    heading == b"%".as_slice() && cell != b"-".as_slice()
}

/// Adds a share, with the width of its bar.
fn add_share(out: &mut Vec<u8>, cell: &[u8]) -> Result<(), AllocError>
    ensures { OnOk result (out.new.items ≡ out.old.items ++ share_html cell.now) }
{
    add_bar(out, cell)?;
    add_escaped(out, cell)?;
    add(out, b"</td>")
}

fn add_bar(out: &mut Vec<u8>, cell: &[u8]) -> Result<(), AllocError>
    ensures { OnOk result (out.new.items ≡ out.old.items ++ bar_words cell.now) }
{
    add(out, b"<td style=\"--w:")?;
    add_escaped(out, cell)?;
    add(out, b"%\">")
}

fn add_plain(out: &mut Vec<u8>, cell: &[u8]) -> Result<(), AllocError>
    ensures { OnOk result (out.new.items ≡ out.old.items ++ plain_html cell.now) }
{
    add(out, b"<td>")?;
    add_escaped(out, cell)?;
    add(out, b"</td>")
}

/// Adds a cell of the last column below this heading.
fn add_last(out: &mut Vec<u8>, by: &[u8], heading: &[u8], cell: &[u8]) -> Result<(), AllocError>
    ensures { OnOk result (out.new.items ≡ out.old.items ++ last_html by.now heading.now cell.now) }
{
    add(out, b"<td>")?;
    add_last_words(out, by, heading, cell)?;
    add(out, b"</td>")
}

fn add_last_words(
    out: &mut Vec<u8>,
    by: &[u8],
    heading: &[u8],
    cell: &[u8],
) -> Result<(), AllocError>
    ensures { OnOk result (out.new.items ≡ out.old.items ++ last_words by.now heading.now cell.now) }
{
    if heading == b"module".as_slice() {
        add_named(out, by, Target::Module, cell)
    } else {
        add_text_html(out, by, cell)
    }
}
