// Pages as text and as HTML.
use crate::lines::{add_line, add_shown, add_text};
use crate::rows::rows_of;
use crate::words::path_and_pairs;
use md_base::NoMemory;
use md_cost::Loaded;
use md_query::{Page, Query, QueryFault, Title, page, read_query};
use md_render::{html, text};
use std::alloc::{AllocError, Global};
use test_cases::Case;

/// The title of the page that a `query` asks for, over each `row` of the case.
pub fn page_of(
    alloc: Global,
    case: &Case,
    loaded: &Loaded,
    out: &mut String,
) -> Result<(), AllocError> {
    let (path, pairs) = path_and_pairs(case.text("query"));
    match read_query(alloc, path.as_bytes(), pairs.as_bytes()) {
        Ok(query) => add_page(alloc, case, loaded, &query, out),
        Err(QueryFault::BadQuery) => add_line(out, "no query"),
        Err(QueryFault::NoMemory) => add_line(out, "want of memory"),
    }
}

fn add_page(
    alloc: Global,
    case: &Case,
    loaded: &Loaded,
    query: &Query,
    out: &mut String,
) -> Result<(), AllocError> {
    match page(alloc, loaded, query) {
        Ok(page) => {
            let (title, _rows) = page.into_parts();
            add_rows(alloc, case, loaded, title, out)
        }
        Err(fault) => add_shown(alloc, &fault, out),
    }
}

/// Adds the page of this title and the rows of the case.
fn add_rows(
    alloc: Global,
    case: &Case,
    loaded: &Loaded,
    title: Title,
    out: &mut String,
) -> Result<(), AllocError> {
    let page = Page::from_parts(title, rows_of(alloc, case)?);
    match written(alloc, case.text("form"), loaded, &page) {
        Ok(bytes) => add_text(out, &bytes),
        Err(NoMemory) => add_line(out, "want of memory"),
    }
}

/// A page in a form: `html`, or plain text.
fn written(alloc: Global, form: &str, loaded: &Loaded, page: &Page) -> Result<Vec<u8>, NoMemory> {
    match form {
        "html" => html(alloc, loaded, page),
        _ => text(alloc, loaded, page),
    }
}
