// What a case looks at.
use crate::connections::{link, response};
use crate::covers::cover_goals;
use crate::files::{cuts, feedback_again, load_file, text_again};
use crate::graphs::{graph, shape, small_graphs};
use crate::lines::{add_line, add_shown};
use crate::pages::page_of;
use crate::pieces::pieces;
use crate::words::{commands, queries};
use md_cost::{Loaded, propagate};
use md_deepfile::decode;
use std::alloc::{AllocError, Global};
use test_cases::Case;

/// Whether what a case looks at is what it wants.
pub fn verdict(alloc: Global, case: &Case) -> Result<String, AllocError> {
    let mut out = String::new(alloc);
    show(alloc, case, &mut out)?;
    case.verdict(alloc, out.as_str())
}

/// Adds the lines of what a case looks at.
fn show(alloc: Global, case: &Case, out: &mut String) -> Result<(), AllocError> {
    match case.text("show") {
        "graph" => graph(alloc, case, out),
        "small graphs" => small_graphs(alloc, out),
        "shape" => shape(alloc, case, out),
        "queries" => queries(alloc, case, out),
        "commands" => commands(alloc, case, out),
        "feedback" => feedback_again(alloc, case, out),
        "text" => text_again(alloc, case, out),
        "cuts" => cuts(alloc, case, out),
        "load" => load_file(alloc, case, out),
        "pieces" => pieces(alloc, case, out),
        _ => show_profile(alloc, case, out),
    }
}

/// Adds the lines of what a case looks at in the profile of its `file`.
fn show_profile(alloc: Global, case: &Case, out: &mut String) -> Result<(), AllocError> {
    let profile = match decode(alloc, case.bytes("file")) {
        Ok(profile) => profile,
        Err(fault) => return add_shown(alloc, &fault, out),
    };
    match propagate(alloc, profile) {
        Ok(loaded) => show_loaded(alloc, case, &loaded, out),
        Err(fault) => add_shown(alloc, &fault, out),
    }
}

/// Adds the lines of what a case looks at in a loaded profile.
fn show_loaded(
    alloc: Global,
    case: &Case,
    loaded: &Loaded,
    out: &mut String,
) -> Result<(), AllocError> {
    match case.text("show") {
        "page" => page_of(alloc, case, loaded, out),
        "response" => response(alloc, case, loaded, out),
        "link" => link(alloc, case, loaded, out),
        "cover" => cover_goals(alloc, case, loaded, out),
        _ => add_line(out, "nothing to show"),
    }
}
