// The title of a page.
ghost use Rattle.std.specs.Prelude.{◌≡◌, ◌++◌, codes, decimal, OnOk};
ghost use Rattle.md_table.specs.Anchors.{escaped};
ghost use Rattle.md_render.specs.Lines.{numbered_words, title_words};
ghost use Rattle.md_render.specs.Names.{full_name};
ghost use Rattle.md_render.specs.Words.{measure_word, shown, shown_byte, sort_word, what_word};

use crate::lookup::module_name;
use crate::number::{add, add_number};
use crate::place::add_full_name;
use md_base::Measure;
use md_people::Sort;
use md_query::{Title, What};
use md_static::Statics;
use md_table::add_escaped;
use std::alloc::{AllocError, Global};

/// Adds what a page is of.
pub(crate) fn add_title(
    out: &mut Vec<u8>,
    statics: &Statics,
    title: &Title,
) -> Result<(), AllocError>
    ensures { OnOk result (out.new.items ≡ out.old.items ++ title_words statics.now title.now) }
{
    match title {
        Title::Menu => add(out, b"mdprof menu"),
        Title::Clique(clique) => add_number(out, b"mdprof clique ", *clique as u64),
        Title::Procs => add(out, b"mdprof procs"),
        Title::Top { by, n } => add_measured(out, b"mdprof top ", *by, *n),
        Title::Proc(id) => add_proc_title(out, statics, *id),
        Title::Modules => add(out, b"mdprof modules"),
        Title::Module(id) => add_module_title(out, module_name(statics, *id)),
        Title::Hot { by, n, sort } => add_hot(out, *by, *n, *sort),
        Title::Tree { by, least } => add_measured(out, b"mdprof tree ", *by, *least),
        Title::Flame { by, least } => add_measured(out, b"mdprof flame ", *by, *least),
        Title::Find { by, text } => add_find(out, *by, text.as_bytes()),
        Title::Context { by, node, proc } => {
            add_numbered(out, statics, b"mdprof context ", *by, *node, *proc)
        }
        Title::Callers { by, id } => {
            add_numbered(out, statics, b"mdprof callers ", *by, *id, *id)
        }
    }
}

/// Adds what a page is of, as it stands in HTML.
pub(crate) fn add_title_html(
    out: &mut Vec<u8>,
    statics: &Statics,
    title: &Title,
) -> Result<(), AllocError>
    ensures { OnOk result (out.new.items ≡ out.old.items ++ escaped (title_words statics.now title.now)) }
{
    let alloc: Global = *out.allocator();
    let mut words = Vec::new(alloc);
    add_title(&mut words, statics, title)?;
    add_escaped(out, &words)
}

/// What a number on the menu counts.
pub(crate) fn what_word(what: What) -> &'static [u8]
    ensures { result.now ≡ what_word what }
{
    match what {
        What::Contexts => b"contexts",
        What::Links => b"links",
        What::Cliques => b"cliques",
        What::Calls => b"calls",
        What::Exits => b"exits",
        What::Fails => b"fails",
        What::Redos => b"redos",
        What::Allocs => b"allocs",
        What::Words => b"words",
        What::Excps => b"excps",
    }
}

/// Adds these words, a measure and a number.
fn add_measured(out: &mut Vec<u8>, words: &[u8], by: Measure, n: u32) -> Result<(), AllocError>
    ensures { OnOk result (out.new.items ≡ out.old.items ++ (words.now ++ (measure_word by ++ (codes " " ++ decimal n)))) }
{
    add(out, words)?;
    add(out, measure_word(by))?;
    add_number(out, b" ", n as u64)
}

/// Adds the title of a procedure.
fn add_proc_title(out: &mut Vec<u8>, statics: &Statics, id: u32) -> Result<(), AllocError>
    ensures { OnOk result (out.new.items ≡ out.old.items ++ (codes "mdprof proc " ++ (decimal id ++ (codes " " ++ full_name statics.now id)))) }
{
    add_number(out, b"mdprof proc ", id as u64)?;
    add(out, b" ")?;
    add_full_name(out, statics, id)
}

/// Adds the title of a module.
fn add_module_title(out: &mut Vec<u8>, name: &[u8]) -> Result<(), AllocError>
    ensures { OnOk result (out.new.items ≡ out.old.items ++ (codes "mdprof module " ++ name.now)) }
{
    add(out, b"mdprof module ")?;
    add(out, name)
}

/// Adds the title of the procedures that cost most.
fn add_hot(out: &mut Vec<u8>, by: Measure, n: u32, sort: Sort) -> Result<(), AllocError>
    ensures { OnOk result (out.new.items ≡ out.old.items ++ (codes "mdprof hot " ++ (measure_word by ++ (codes " " ++ (decimal n ++ (codes " " ++ sort_word sort)))))) }
{
    add(out, b"mdprof hot ")?;
    add(out, measure_word(by))?;
    add_number(out, b" ", n as u64)?;
    add(out, b" ")?;
    add(out, sort_word(sort))
}

/// Adds the title of a number by a measure, with a procedure's full name.
fn add_numbered(
    out: &mut Vec<u8>,
    statics: &Statics,
    words: &[u8],
    by: Measure,
    number: u32,
    proc: u32,
) -> Result<(), AllocError>
    ensures { OnOk result (out.new.items ≡ out.old.items ++ numbered_words statics.now words.now by number proc) }
{
    add(out, words)?;
    add(out, measure_word(by))?;
    add_number(out, b" ", number as u64)?;
    add(out, b" ")?;
    add_full_name(out, statics, proc)
}

/// Adds the title of what has a text in its name.
fn add_find(out: &mut Vec<u8>, by: Measure, text: &[u8]) -> Result<(), AllocError>
    ensures { OnOk result (out.new.items ≡ out.old.items ++ (codes "mdprof find " ++ (measure_word by ++ (codes " " ++ shown text.now)))) }
{
    add(out, b"mdprof find ")?;
    add(out, measure_word(by))?;
    add(out, b" ")?;
    add_shown(out, text)
}

/// Adds a text; bytes that aren't printed are told as `?`.
fn add_shown(out: &mut Vec<u8>, text: &[u8]) -> Result<(), AllocError>
    ensures { OnOk result (out.new.items ≡ out.old.items ++ shown text.now) }
{
    for byte in text {
        out.push(shown_byte(*byte))?;
    }
    Ok(())
}

fn shown_byte(byte: u8) -> u8
    ensures { result ≡ shown_byte byte }
{
    if 32 <= byte && byte <= 126 {
        byte
    } else {
        b'?'
    }
}

pub(crate) fn sort_word(sort: Sort) -> &'static [u8]
    ensures { result.now ≡ sort_word sort }
{
    match sort {
        Sort::Total => b"total",
        Sort::Own => b"own",
    }
}

pub(crate) fn measure_word(measure: Measure) -> &'static [u8]
    ensures { result.now ≡ measure_word measure }
{
    match measure {
        Measure::Calls => b"calls",
        Measure::Exits => b"exits",
        Measure::Fails => b"fails",
        Measure::Redos => b"redos",
        Measure::Allocs => b"allocs",
        Measure::Words => b"words",
        Measure::Excps => b"excps",
    }
}
