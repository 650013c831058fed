// Whole pages.
ghost use Rattle.std.specs.Prelude.{◌≡◌, ◌++◌, OnOk, IfOk};
ghost use Rattle.md_cost.specs.FileView.{IsFileView};
ghost use Rattle.md_cost.specs.View.{View};
ghost use Rattle.md_table.specs.Anchors.{escaped};
ghost use Rattle.md_render.specs.Html.{html_of, body_html, head_words, foot_words, lines_html, people_html};
ghost use Rattle.md_render.specs.Lines.{title_words};
ghost use Rattle.md_render.specs.People.{opening_words};
ghost use Rattle.md_render.specs.Names.{names_of};
ghost use Rattle.md_render.specs.Text.{text_of, text_with};

use crate::address::by_of;
use crate::foot::add_closing;
use crate::form::Form;
use crate::icicle::add_icicle;
use crate::line::add_lines;
use crate::number::add;
use crate::people::{add_opening, add_tables, add_turns};
use crate::title::{add_title, add_title_html};
use md_base::{Measure, NoMemory};
use md_cost::Loaded;
use md_people::flame_text;
use md_query::{Page, Title};
use md_static::Statics;
use std::alloc::{AllocError, Global};

/// The page as a text: its title, and a line for each row, each ended by a line feed; of a flame graph the lines of its contexts alone.
/// A number on the page that isn't in the profile stands for 0 or for no name where something is looked up by it.
pub fn text(alloc: Global, loaded: &Loaded, page: &Page) -> Result<Vec<u8>, NoMemory>
    ensures { (v : View) → IsFileView loaded.now.profile v → IfOk result (λ text. text.items ≡ text_of v page.now) }
{
    if let Title::Flame { by, .. } = page.title() {
        return flame_text(alloc, loaded, *by);
    }
    let mut out = Vec::new(alloc);
    add_text(&mut out, loaded, page)?;
    Ok(out)
}

/// The page as HTML: the same title and lines, in which cliques, procedures and modules are anchors. A page for people has its tables, with
/// its first 1,000 rows, and anchors to itself by each measure; a flame graph is a picture, with a box for each clique that has a row in
/// the tree, the first 10,000.
pub fn html(alloc: Global, loaded: &Loaded, page: &Page) -> Result<Vec<u8>, NoMemory>
    ensures { (v : View) → IsFileView loaded.now.profile v → IfOk result (λ html. html.items ≡ html_of v page.now) }
{
    let mut out = Vec::new(alloc);
    match by_of(page.title()) {
        Some(by) => add_people(&mut out, loaded, page, by)?,
        None => add_lines_html(&mut out, loaded, page)?,
    }
    Ok(out)
}

/// Adds the title and the lines of a page.
fn add_text(out: &mut Vec<u8>, loaded: &Loaded, page: &Page) -> Result<(), AllocError>
    ensures { (v : View) → IsFileView loaded.now.profile v → OnOk result (out.new.items ≡ out.old.items ++ text_with (names_of v) page.now) }
{
    add_title(out, loaded.profile().statics(), page.title())?;
    add(out, b"\n")?;
    add_lines(out, Form::Text, loaded, page.rows())
}

/// Adds a page of lines as HTML.
fn add_lines_html(out: &mut Vec<u8>, loaded: &Loaded, page: &Page) -> Result<(), AllocError>
    ensures { (v : View) → IsFileView loaded.now.profile v → OnOk result (out.new.items ≡ out.old.items ++ lines_html (names_of v) page.now) }
{
    add_head(out, loaded.profile().statics(), page.title())?;
    add_lines(out, Form::Html, loaded, page.rows())?;
    add_foot(out)
}

/// Adds a page for people by a measure as HTML.
fn add_people(out: &mut Vec<u8>, loaded: &Loaded, page: &Page, by: Measure) -> Result<(), NoMemory>
    ensures { (v : View) → IsFileView loaded.now.profile v → OnOk result (out.new.items ≡ out.old.items ++ people_html v page.now by) }
{
    add_top(out, loaded.profile().statics(), page.title())?;
    add_turns(out, page.title(), by)?;
    add_body(out, loaded, page, by)?;
    add_closing(out, by)?;
    Ok(())
}

/// Adds what comes before the lines, with the title as it stands in HTML.
fn add_top(out: &mut Vec<u8>, statics: &Statics, title: &Title) -> Result<(), AllocError>
    ensures { OnOk result (out.new.items ≡ out.old.items ++ opening_words (escaped (title_words statics.now title.now))) }
{
    let alloc: Global = *out.allocator();
    let mut words = Vec::new(alloc);
    add_title_html(&mut words, statics, title)?;
    add_opening(out, &words)
}

/// Adds the lines and tables of a page, or the picture of a flame graph.
fn add_body(out: &mut Vec<u8>, loaded: &Loaded, page: &Page, by: Measure) -> Result<(), NoMemory>
    ensures { (v : View) → IsFileView loaded.now.profile v → OnOk result (out.new.items ≡ out.old.items ++ body_html v by page.now.rows page.now.title) }
{
    // it is valid and has a view, which `profile` says
    let _profile = loaded.profile();
    if let Title::Flame { by, least } = page.title() {
        return add_icicle(out, loaded, *by, *least);
    }
    add_tables(out, loaded, page.title(), by, page.rows())?;
    Ok(())
}

/// Adds what comes before the lines, with the title in two places.
fn add_head(out: &mut Vec<u8>, statics: &Statics, title: &Title) -> Result<(), AllocError>
    ensures { OnOk result (out.new.items ≡ out.old.items ++ head_words (title_words statics.now title.now)) }
{
    add(
        out,
        b"<!DOCTYPE html>\n<html><head><meta charset=\"utf-8\"><title>",
    )?;
    add_title(out, statics, title)?;
    add(out, b"</title></head><body>\n<h1>")?;
    add_title(out, statics, title)?;
    add(out, b"</h1>\n<pre>\n")
}

/// Adds what comes after the lines: where to go on.
fn add_foot(out: &mut Vec<u8>) -> Result<(), AllocError>
    ensures { OnOk result (out.new.items ≡ out.old.items ++ foot_words) }
{
    add(
        out,
        b"</pre>\n<p><a href=\"/\">menu</a> <a href=\"/root\">root</a> <a href=\"/procs\">procs</a> <a href=\"/modules\">modules</a></p>\n</body></html>\n",
    )
}
