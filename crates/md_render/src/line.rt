// The lines of a page, one for each row.
ghost use Rattle.std.specs.Prelude.{◌≡◌, ◌++◌, codes, decimal, IfOk, OnOk};
ghost use Rattle.md_render.specs.Kept.{names_in};
ghost use Rattle.md_render.specs.Lines.{finished_words, entered_words, leaving_words, inside_words, context_of_words, named_words, called_words, site_words, module_size_words, row_words, line_end, row_lines, proc_line};
ghost use Rattle.md_render.specs.Names.{caller_at};

use crate::form::{Form, add_clique, add_module, add_proc};
use crate::lookup::{callee_at, caller_at, clique_at, module_name, site_of};
use crate::number::{add, add_both, add_counts, add_number, add_own};
use crate::place::{add_context, add_full_name, add_link, add_placed};
use crate::table::add_table;
use crate::title::{measure_word, what_word};
use md_base::{CsdId, PdId, ProcId, SiteId};
use md_cost::{Loaded, Sums};
use md_query::Row;
use md_static::{SiteKind, Statics};
use std::alloc::{AllocError, Global};

/// Adds a line for each row, and the lines of each table.
pub(crate) fn add_lines(
    out: &mut Vec<u8>,
    form: Form,
    loaded: &Loaded,
    rows: &[Row],
) -> Result<(), AllocError>
    ensures { OnOk result (out.new.items ≡ out.old.items ++ row_lines form (names_in loaded.now) rows.now) }
{
    for row in rows {
        add_row(out, form, loaded, row)?;
        add_end(out, row)?;
    }
    Ok(())
}

/// The line of a procedure of these tables with these costs, as text.
pub fn proc_line(
    alloc: Global,
    statics: &Statics,
    id: ProcId,
    own: Sums,
    total: Sums,
) -> Result<Vec<u8>, AllocError>
    ensures { IfOk result (λ line. line.items ≡ proc_line statics.now id own total) }
{
    let mut line = Vec::new(alloc);
    add_named(&mut line, Form::Text, statics, id.number())?;
    add_both(&mut line, own, total)?;
    line.push(b'\n')?;
    Ok(line)
}

/// Adds the words of a row; a table stands there as text.
pub(crate) fn add_row(
    out: &mut Vec<u8>,
    form: Form,
    loaded: &Loaded,
    row: &Row,
) -> Result<(), AllocError>
    ensures { OnOk result (out.new.items ≡ out.old.items ++ row_words form (names_in loaded.now) row.now) }
{
    let statics = loaded.profile().statics();
    match row {
        Row::Main { module } => add_module(out, form, module_name(statics, *module)),
        Row::Finished(finished) => add_finished(out, *finished),
        Row::Number { what, n } => {
            add(out, what_word(*what))?;
            add_number(out, b" ", *n)
        }
        Row::Entered { link, own } => {
            add_entry(out, form, loaded, *link)?;
            add_own(out, *own)
        }
        Row::Own(own) => {
            add(out, b"own ")?;
            add_counts(out, *own)
        }
        Row::Total(total) => {
            add(out, b"total ")?;
            add_counts(out, *total)
        }
        Row::Context { node, own, total } => {
            add_context(out, loaded, *node)?;
            add_both(out, *own, *total)
        }
        Row::Leaving { link, own, total } => {
            add_leaving(out, form, loaded, *link)?;
            add_both(out, *own, *total)
        }
        Row::Inside { link, own } => {
            add_inside(out, loaded, *link)?;
            add_own(out, *own)
        }
        Row::Proc { id, own, total } => {
            add_named(out, form, statics, id.number())?;
            add_both(out, *own, *total)
        }
        Row::Of { node, own, total } => {
            add_context_of(out, form, loaded, *node)?;
            add_both(out, *own, *total)
        }
        Row::Site { id, own, total } => {
            add_site(out, form, statics, *id)?;
            add_both(out, *own, *total)
        }
        Row::Module {
            id,
            procs,
            own,
            total,
        } => {
            add_module_size(out, form, module_name(statics, *id), *procs)?;
            add_both(out, *own, *total)
        }
        Row::Whole { by, whole } => {
            add(out, measure_word(*by))?;
            add_number(out, b" ", *whole)
        }
        Row::Table(table) => add_table(out, table),
    }
}

/// Ends the line of a row. The lines of a table are ended.
fn add_end(out: &mut Vec<u8>, row: &Row) -> Result<(), AllocError>
    ensures { OnOk result (out.new.items ≡ out.old.items ++ line_end row.now) }
{
    match row {
        Row::Table(_) => Ok(()),
        _ => add(out, b"\n"),
    }
}

/// Adds whether the run was finished.
fn add_finished(out: &mut Vec<u8>, finished: bool) -> Result<(), AllocError>
    ensures { OnOk result (out.new.items ≡ out.old.items ++ finished_words finished) }
{
    if finished {
        add(out, b"finished yes")
    } else {
        add(out, b"finished no")
    }
}

/// Adds by which link, from where, a clique is entered.
fn add_entry(out: &mut Vec<u8>, form: Form, loaded: &Loaded, link: CsdId) -> Result<(), AllocError>
    ensures { OnOk result (out.new.items ≡ out.old.items ++ entered_words form (names_in loaded.now) link (caller_at (names_in loaded.now) link)) }
{
    let Some(caller) = caller_at(loaded, link) else {
        return add(out, b"entered by root");
    };
    add(out, b"entered by ")?;
    add_link(out, loaded, link)?;
    add(out, b" from ")?;
    add_placed(out, form, loaded, caller)
}

/// Adds a link to another clique.
fn add_leaving(
    out: &mut Vec<u8>,
    form: Form,
    loaded: &Loaded,
    link: CsdId,
) -> Result<(), AllocError>
    ensures { OnOk result (out.new.items ≡ out.old.items ++ leaving_words form (names_in loaded.now) link) }
{
    add(out, b"  ")?;
    add_link(out, loaded, link)?;
    add(out, b" to ")?;
    add_placed(out, form, loaded, callee_at(loaded, link))
}

/// Adds a link within its clique.
fn add_inside(out: &mut Vec<u8>, loaded: &Loaded, link: CsdId) -> Result<(), AllocError>
    ensures { OnOk result (out.new.items ≡ out.old.items ++ inside_words (names_in loaded.now) link) }
{
    add(out, b"  ")?;
    add_link(out, loaded, link)?;
    add(out, b" to ")?;
    add_context(out, loaded, callee_at(loaded, link))
}

/// Adds a context of a procedure.
fn add_context_of(
    out: &mut Vec<u8>,
    form: Form,
    loaded: &Loaded,
    node: PdId,
) -> Result<(), AllocError>
    ensures { OnOk result (out.new.items ≡ out.old.items ++ context_of_words form (names_in loaded.now) node) }
{
    add_number(out, b"context ", node.number() as u64)?;
    add(out, b" ")?;
    add_clique(out, form, clique_at(loaded, node))
}

/// Adds a module, with how many procedures it has.
fn add_module_size(out: &mut Vec<u8>, form: Form, name: &[u8], procs: u32) -> Result<(), AllocError>
    ensures { OnOk result (out.new.items ≡ out.old.items ++ module_size_words form name.now procs) }
{
    add_module(out, form, name)?;
    add_number(out, b" procs ", procs as u64)
}

/// Adds a procedure, with its full name.
fn add_named(out: &mut Vec<u8>, form: Form, statics: &Statics, id: u32) -> Result<(), AllocError>
    ensures { OnOk result (out.new.items ≡ out.old.items ++ named_words form statics.now id) }
{
    add_proc(out, form, id)?;
    add(out, b" ")?;
    add_full_name(out, statics, id)
}

/// Adds a call site, with its line and what it calls.
fn add_site(out: &mut Vec<u8>, form: Form, statics: &Statics, id: SiteId) -> Result<(), AllocError>
    ensures { OnOk result (out.new.items ≡ out.old.items ++ site_words form statics.now id) }
{
    add_number(out, b"site ", id.number() as u64)?;
    match site_of(statics, id) {
        Some(site) => add_line_of(out, form, statics, site.line, site.kind),
        None => Ok(()),
    }
}

/// Adds the line of a call site, and what it calls.
fn add_line_of(
    out: &mut Vec<u8>,
    form: Form,
    statics: &Statics,
    line: u32,
    kind: SiteKind,
) -> Result<(), AllocError>
    ensures { OnOk result (out.new.items ≡ out.old.items ++ (codes " line " ++ (decimal line ++ (codes " " ++ called_words form statics.now kind)))) }
{
    add_number(out, b" line ", line as u64)?;
    add(out, b" ")?;
    add_called(out, form, statics, kind)
}

/// Adds what a call site calls.
fn add_called(
    out: &mut Vec<u8>,
    form: Form,
    statics: &Statics,
    kind: SiteKind,
) -> Result<(), AllocError>
    ensures { OnOk result (out.new.items ≡ out.old.items ++ called_words form statics.now kind) }
{
    match kind {
        SiteKind::Plain(callee) => {
            add(out, b"to ")?;
            add_named(out, form, statics, callee.number())
        }
        SiteKind::HigherOrder => add(out, b"higher-order"),
    }
}
