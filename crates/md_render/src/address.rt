// The addresses of pages that are asked for by a measure.
ghost use Rattle.std.specs.Prelude.{◌≡◌, ◌++◌, codes, decimal, OnOk};
ghost use Rattle.percent_encoding.specs.Percent.{percent_encode};
ghost use Rattle.percent_encoding.specs.declared.ascii_set.TheConstants.{NON_ALPHANUMERIC};
ghost use Rattle.md_render.specs.Address.{address_words, by_of, pairs_of, path_of, sort_of, sorting_words};
ghost use Rattle.md_render.specs.Words.{sort_word};

use crate::number::{add, add_number};
use crate::title::{measure_word, sort_word};
use md_base::Measure;
use md_people::Sort;
use md_query::Title;
use md_table::add_encoded;
use std::alloc::AllocError;

/// The measure by which a page for people is asked for.
pub(crate) fn by_of(title: &Title) -> Option<Measure>
    ensures { result ≡ by_of title.now }
{
    match title {
        Title::Hot { by, .. } => Some(*by),
        Title::Tree { by, .. } => Some(*by),
        Title::Flame { by, .. } => Some(*by),
        Title::Find { by, .. } => Some(*by),
        Title::Context { by, .. } => Some(*by),
        Title::Callers { by, .. } => Some(*by),
        _ => None,
    }
}

/// Adds the address of the same page by this measure, as it stands in HTML.
pub(crate) fn add_address(out: &mut Vec<u8>, title: &Title, by: Measure) -> Result<(), AllocError>
    ensures { OnOk result (out.new.items ≡ out.old.items ++ address_words title.now by) }
{
    add(out, path_of(title))?;
    add(out, measure_word(by))?;
    add_pairs(out, title)
}

/// The address of a page up to the measure. Those that are asked for by none have none here.
fn path_of(title: &Title) -> &'static [u8]
    ensures { result.now ≡ path_of title.now }
{
    match title {
        Title::Hot { .. } => b"/hot?by=",
        Title::Tree { .. } => b"/tree?by=",
        Title::Flame { .. } => b"/flame?by=",
        Title::Find { .. } => b"/find?by=",
        Title::Context { .. } => b"/context?by=",
        Title::Callers { .. } => b"/callers?by=",
        _ => b"",
    }
}

/// Adds the pairs behind the measure.
fn add_pairs(out: &mut Vec<u8>, title: &Title) -> Result<(), AllocError>
    ensures { OnOk result (out.new.items ≡ out.old.items ++ pairs_of title.now) }
{
    match title {
        Title::Hot { n, sort, .. } => add_sorted(out, *n, *sort),
        Title::Tree { least, .. } => add_number(out, b"&amp;least=", *least as u64),
        Title::Flame { least, .. } => add_number(out, b"&amp;least=", *least as u64),
        Title::Find { text, .. } => add_text(out, text.as_bytes()),
        Title::Context { node, .. } => add_number(out, b"&amp;id=", *node as u64),
        Title::Callers { id, .. } => add_number(out, b"&amp;id=", *id as u64),
        _ => Ok(()),
    }
}

/// Adds how many procedures are asked for, and how they are sorted.
fn add_sorted(out: &mut Vec<u8>, n: u32, sort: Sort) -> Result<(), AllocError>
    ensures { OnOk result (out.new.items ≡ out.old.items ++ ((codes "&amp;n=" ++ decimal n) ++ (codes "&amp;sort=" ++ sort_word sort))) }
{
    add_number(out, b"&amp;n=", n as u64)?;
    add(out, b"&amp;sort=")?;
    add(out, sort_word(sort))
}

/// Adds the text that is asked for.
fn add_text(out: &mut Vec<u8>, text: &[u8]) -> Result<(), AllocError>
    ensures { OnOk result (out.new.items ≡ out.old.items ++ (codes "&amp;name=" ++ percent_encode NON_ALPHANUMERIC text.now)) }
{
    add(out, b"&amp;name=")?;
    add_encoded(out, text)
}

/// Adds where the headings of a page lead, which their names are put behind; those of other pages lead nowhere.
pub(crate) fn add_sort(out: &mut Vec<u8>, title: &Title) -> Result<(), AllocError>
    ensures { OnOk result (out.new.items ≡ out.old.items ++ sort_of title.now) }
{
    match title {
        Title::Hot { by, n, .. } => add_sorting(out, *by, *n),
        _ => Ok(()),
    }
}

fn add_sorting(out: &mut Vec<u8>, by: Measure, n: u32) -> Result<(), AllocError>
    ensures { OnOk result (out.new.items ≡ out.old.items ++ sorting_words by n) }
{
    add(out, b"/hot?by=")?;
    add(out, measure_word(by))?;
    add_number(out, b"&amp;n=", n as u64)?;
    add(out, b"&amp;sort=")
}
