// How pages for people look.
ghost use Rattle.std.specs.Prelude.{◌≡◌, ◌++◌, OnOk};
ghost use Rattle.md_render.specs.Sheet.{colours_words, narrow_words, page_words, picture_words, sheet_words, table_words};

use crate::number::add;
use std::alloc::AllocError;

/// Adds the sheet of styles.
pub(crate) fn add_sheet(out: &mut Vec<u8>) -> Result<(), AllocError>
    ensures { OnOk result (out.new.items ≡ out.old.items ++ sheet_words) }
{
    add_colours(out)?;
    add_page(out)?;
    add_tables(out)?;
    add_narrow(out)?;
    add_picture(out)
}

/// Adds the colours by day and by night.
fn add_colours(out: &mut Vec<u8>) -> Result<(), AllocError>
    ensures { OnOk result (out.new.items ≡ out.old.items ++ colours_words) }
{
    add(
        out,
        b":root{color-scheme:light dark;--ink:#222;--dim:#666;--line:#ddd;--page:#fff;--link:#04a;--bar:#fd9;--box:#fc8}\n@media(prefers-color-scheme:dark){:root{--ink:#ddd;--dim:#999;--line:#444;--page:#181818;--link:#8bf;--bar:#653;--box:#854}}\n",
    )
}

/// Adds how the page looks.
fn add_page(out: &mut Vec<u8>) -> Result<(), AllocError>
    ensures { OnOk result (out.new.items ≡ out.old.items ++ page_words) }
{
    add(
        out,
        b"body{font:15px/1.5 system-ui,sans-serif;max-width:75em;margin:1em auto;padding:0 1em;color:var(--ink);background:var(--page)}h1{font-size:1.3em;overflow-wrap:anywhere}p{margin:.2em 0;color:var(--dim)}a{color:var(--link);text-decoration:none}a:hover{text-decoration:underline}nav a,footer a{margin-right:.7em}.on{color:inherit;font-weight:700}footer,form{margin:1em 0}\n",
    )
}

/// Adds how tables look.
fn add_tables(out: &mut Vec<u8>) -> Result<(), AllocError>
    ensures { OnOk result (out.new.items ≡ out.old.items ++ table_words) }
{
    add(
        out,
        b"table{border-collapse:collapse;margin:1em 0;font-variant-numeric:tabular-nums}th,td{padding:.1em .6em;text-align:right;white-space:pre;border-bottom:1px solid var(--line)}th{color:var(--dim);font-weight:400}th:last-child,td:last-child{text-align:left}td[style]{min-width:4em;background:linear-gradient(var(--bar),var(--bar)) no-repeat;background-size:var(--w) 100%}\n",
    )
}

/// Adds how tables look where the page is narrow.
fn add_narrow(out: &mut Vec<u8>) -> Result<(), AllocError>
    ensures { OnOk result (out.new.items ≡ out.old.items ++ narrow_words) }
{
    add(
        out,
        b"@media(max-width:600px){table,tbody{display:block}tr{display:grid;grid-template-columns:repeat(auto-fill,minmax(4.6em,1fr));padding:.3em 0;border-bottom:1px solid var(--line)}th,td{padding:0 .3em;border:0;overflow-wrap:anywhere}td[style]{min-width:0}th:last-child,td:last-child{grid-column:1/-1;order:-1;white-space:pre-wrap}}\n",
    )
}

/// Adds how the picture looks.
fn add_picture(out: &mut Vec<u8>) -> Result<(), AllocError>
    ensures { OnOk result (out.new.items ≡ out.old.items ++ picture_words) }
{
    add(
        out,
        b"figure{margin:1em 0;overflow-x:auto}svg{display:block;min-width:1000px;font:12px monospace}rect{fill:var(--box);stroke:var(--page);stroke-width:.5}text{fill:var(--ink)}svg a:nth-child(3n) rect{fill:var(--bar)}\n",
    )
}
