// Responses, and connections in memory that are served.
use crate::lines::{add_debug, add_line, add_shown, failing, most};
use md_cost::Loaded;
use md_http::{reply, serve_link};
use std::alloc::{AllocError, Global};
use std::str;
use test_cases::Case;
use test_memory::MemLink;

/// The response to each `head`.
pub fn response(
    alloc: Global,
    case: &Case,
    loaded: &Loaded,
    out: &mut String,
) -> Result<(), AllocError> {
    for field in case
        .fields()
        .iter()
        .filter(|field| field.key.as_str() == "head")
    {
        add_response(alloc, loaded, field.bytes.as_slice(), out)?;
    }
    Ok(())
}

fn add_response(
    alloc: Global,
    loaded: &Loaded,
    head: &[u8],
    out: &mut String,
) -> Result<(), AllocError> {
    if head.len() > 8_192 {
        return add_line(out, "a long head");
    }
    match reply(alloc, loaded, head) {
        Ok(response) => add_quoted(alloc, &response, out),
        Err(fault) => add_shown(alloc, &fault, out),
    }
}

/// Adds a text as it is written in a program.
fn add_quoted(alloc: Global, text: &[u8], out: &mut String) -> Result<(), AllocError> {
    match str::from_utf8(text) {
        Ok(text) => add_debug(alloc, &text, out),
        Err(_) => add_line(out, "not UTF-8"),
    }
}

/// How serving a connection ends that sends a `request`, gives and takes at most so many bytes a call, and whose call of
/// each number fails; and how much of the `response` was written to it.
pub fn link(
    alloc: Global,
    case: &Case,
    loaded: &Loaded,
    out: &mut String,
) -> Result<(), AllocError> {
    for field in case
        .fields()
        .iter()
        .filter(|field| field.key.as_str() == "fails")
    {
        let Ok(call) = field.text.as_str().parse() else {
            return add_line(out, "no number");
        };
        let mut link = link_of(alloc, case, call)?;
        let served = serve_link(alloc, loaded, &mut link);
        let written = link.written();
        let count = written.len();
        let line = if case.bytes("response").starts_with(written) {
            format!(in alloc; "{served:?} {count}")?
        } else {
            format!(in alloc; "{served:?} with another response")?
        };
        add_line(out, line.as_str())?;
    }
    Ok(())
}

/// A connection whose call of this number fails.
fn link_of(alloc: Global, case: &Case, call: u64) -> Result<MemLink, AllocError> {
    let request = case.bytes("request").to_vec(alloc)?;
    let fails = failing(alloc, call)?;
    Ok(MemLink::new(request, most(case), fails))
}
