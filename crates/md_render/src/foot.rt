// Where to go on from a page for people.
ghost use Rattle.std.specs.Prelude.{◌≡◌, ◌++◌, codes, OnOk};
ghost use Rattle.md_render.specs.People.{closing_words, end_words, form_words, led_words, old_words};
ghost use Rattle.md_render.specs.Words.{measure_word};

use crate::number::add;
use crate::title::measure_word;
use md_base::Measure;
use std::alloc::AllocError;

/// Adds what comes after the lines: anchors to other pages, those for people by this measure, and a form that asks for a text in names.
pub(crate) fn add_closing(out: &mut Vec<u8>, by: Measure) -> Result<(), AllocError>
    ensures { OnOk result (out.new.items ≡ out.old.items ++ closing_words by) }
{
    add_end(out, by)?;
    add_form(out, by)?;
    add(out, b"</body></html>\n")
}

/// Adds anchors to other pages.
fn add_end(out: &mut Vec<u8>, by: Measure) -> Result<(), AllocError>
    ensures { OnOk result (out.new.items ≡ out.old.items ++ end_words by) }
{
    add(out, b"<footer>\n")?;
    add_led(out, b"hot", by)?;
    add_led(out, b"tree", by)?;
    add_led(out, b"flame", by)?;
    add_old(out)
}

/// Adds anchors to the pages that are asked for by no measure.
fn add_old(out: &mut Vec<u8>) -> Result<(), AllocError>
    ensures { OnOk result (out.new.items ≡ out.old.items ++ old_words) }
{
    add(
        out,
        b"<a href=\"/\">menu</a>\n<a href=\"/root\">root</a>\n<a href=\"/procs\">procs</a>\n<a href=\"/modules\">modules</a>\n</footer>\n",
    )
}

/// Adds an anchor to the page of this path by a measure.
fn add_led(out: &mut Vec<u8>, path: &[u8], by: Measure) -> Result<(), AllocError>
    ensures { OnOk result (out.new.items ≡ out.old.items ++ led_words path.now by) }
{
    add_path(out, path)?;
    add(out, measure_word(by))?;
    add(out, b"\">")?;
    add(out, path)?;
    add(out, b"</a>\n")
}

fn add_path(out: &mut Vec<u8>, path: &[u8]) -> Result<(), AllocError>
    ensures { OnOk result (out.new.items ≡ out.old.items ++ (codes "<a href=\"/" ++ (path.now ++ codes "?by="))) }
{
    add(out, b"<a href=\"/")?;
    add(out, path)?;
    add(out, b"?by=")
}

/// Adds a form that asks for a text in names.
fn add_form(out: &mut Vec<u8>, by: Measure) -> Result<(), AllocError>
    ensures { OnOk result (out.new.items ≡ out.old.items ++ form_words by) }
{
    add(
        out,
        b"<form action=\"/find\"><input type=\"hidden\" name=\"by\" value=\"",
    )?;
    add(out, measure_word(by))?;
    add(
        out,
        b"\"><input name=\"name\" required aria-label=\"text of a name\"> <button>find</button></form>\n",
    )
}
