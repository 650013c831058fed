// The answer to a head.
ghost use Rattle.std.specs.Prelude.{◌≡◌, ◌≤◌, ◌<◌, ◌+◌, ◌==◌, Some, length, drop, IfOk, IfSome};
ghost use Rattle.std.specs.List.{position};
ghost use Rattle.md_cost.specs.FileView.{IsFileView};
ghost use Rattle.md_cost.specs.View.{View};
ghost use Rattle.md_query.specs.Asked.{query_of};
ghost use Rattle.md_query.specs.Told.{asked_told, asked};
ghost use Rattle.percent_encoding.specs.Percent.{percent_decode};
ghost use Rattle.md_http.specs.Message.{response_of};
ghost use Rattle.md_http.specs.Response.{answer_to, asked_by, page_asked, page_answer, mark_of, path_part, query_part};
ghost use Rattle.md_query.specs.PageOf.{page_of};

use crate::message::{Refusal, page_response, refusal_response};
use md_base::NoMemory;
use md_cost::Loaded;
use md_query::{Page, PageFault, Query, QueryFault, page, read_query};
use md_render::html;
use percent_encoding::percent_decode;
use std::alloc::Global;

/// The most fields of a head that is answered.
const MOST_FIELDS: usize = 64;

/// The response to a head of this method and target, with so many fields.
pub(crate) fn answer(
    alloc: Global,
    loaded: &Loaded,
    fields: usize,
    method: &[u8],
    target: &[u8],
) -> Result<Vec<u8>, NoMemory>
    ensures { (v : View) → IsFileView loaded.now.profile v → IfOk result (λ bytes. bytes.items ≡ response_of (answer_to v fields method.now target.now)) }
{
    if fields > MOST_FIELDS {
        return refusal_response(alloc, Refusal::HeadTooLarge);
    }
    if method != b"GET".as_slice() {
        return refusal_response(alloc, Refusal::MethodNotAllowed);
    }
    match find_page(alloc, loaded, target)? {
        Some(page) => html_response(alloc, loaded, &page),
        None => refusal_response(alloc, Refusal::NotFound),
    }
}

/// The response that is a page of the profile.
fn html_response(alloc: Global, loaded: &Loaded, page: &Page) -> Result<Vec<u8>, NoMemory>
    ensures { (v : View) → IsFileView loaded.now.profile v → IfOk result (λ bytes. bytes.items ≡ response_of (page_answer v (Some page.now))) }
{
    let html = html(alloc, loaded, page)?;
    page_response(alloc, &html)
}

/// The page that a target asks for, or `None` where it asks for none that there is.
fn find_page(alloc: Global, loaded: &Loaded, target: &[u8]) -> Result<Option<Page>, NoMemory>
    ensures { (v : View) → IsFileView loaded.now.profile v → IfOk result (λ found. found ≡ page_asked v (asked_by target.now)) }
{
    match find_query(alloc, target)? {
        Some(query) => queried_page(alloc, loaded, &query),
        None => Ok(None),
    }
}

/// The page of a query, or `None` where it isn't in the profile.
fn queried_page(alloc: Global, loaded: &Loaded, query: &Query) -> Result<Option<Page>, NoMemory>
    ensures { (v : View) → IsFileView loaded.now.profile v → IfOk result (λ found. found ≡ page_of v (asked query.now)) }
{
    match page(alloc, loaded, query) {
        Ok(page) => Ok(Some(page)),
        Err(PageFault::NoSuchPage) => Ok(None),
        Err(PageFault::NoMemory) => Err(NoMemory),
    }
}

/// The query that a target spells, or `None` where it spells none.
fn find_query(alloc: Global, target: &[u8]) -> Result<Option<Query>, NoMemory>
    ensures { IfOk result (λ found. asked_told found ≡ asked_by target.now) }
{
    match target {
        [b'/', rest @ ..] => split_query(alloc, rest),
        _ => Ok(None),
    }
}

/// The query of a path, percent-encoded, and the pairs behind its first `?`.
fn split_query(alloc: Global, bytes: &[u8]) -> Result<Option<Query>, NoMemory>
    ensures { IfOk result (λ found. asked_told found ≡ query_of (percent_decode (path_part bytes.now)) (query_part bytes.now)) }
{
    let mark = mark_of(bytes);
    let mut path = Vec::new(alloc);
    percent_decode(&bytes[..mark]).append_to(&mut path)?;
    spelled_query(alloc, &path, behind(bytes, mark))
}

/// The place of the first `?`, or the length where there is none.
fn mark_of(bytes: &[u8]) -> usize
    ensures is { result ≡ mark_of bytes.now }
    ensures within { result ≤ length bytes.now }
{
    place_of_mark(bytes).unwrap_or(bytes.len())
}

fn place_of_mark(bytes: &[u8]) -> Option<usize>
    ensures is { result ≡ position (λ b. b == 63) bytes.now }
    ensures within { IfSome result (λ place. place < length bytes.now) }
{
    bytes.iter().position(|b| *b == b'?')
}

/// What stands behind a place.
fn behind(bytes: &[u8], place: usize) -> &[u8]
    requires { place ≤ length bytes.now }
    ensures { result.now ≡ drop (place + 1) bytes.now }
{
    if place < bytes.len() {
        &bytes[place + 1..]
    } else {
        &[]
    }
}

/// The query that path and pairs spell, or `None` where they spell none.
fn spelled_query(alloc: Global, path: &[u8], pairs: &[u8]) -> Result<Option<Query>, NoMemory>
    ensures { IfOk result (λ found. asked_told found ≡ query_of path.now pairs.now) }
{
    match read_query(alloc, path, pairs) {
        Ok(query) => Ok(Some(query)),
        Err(QueryFault::BadQuery) => Ok(None),
        Err(QueryFault::NoMemory) => Err(NoMemory),
    }
}
