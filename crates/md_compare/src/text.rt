// The text of two profiles compared.
ghost use Rattle.std.specs.Prelude.{◌≡◌, ◌++◌, IfOk, OnOk};
ghost use Rattle.md_cost.specs.FileView.{IsFileView};
ghost use Rattle.md_cost.specs.View.{View};
ghost use Rattle.md_compare.specs.Text.{compare_text, finished_words, title_words, words_over};

use crate::table::compare_table;
use itoa::Buffer;
use md_base::{Measure, NoMemory};
use md_cost::Loaded;
use md_people::measure_word;
use md_table::{Table, add_text};
use std::alloc::{AllocError, Global};

/// What is compared, whether the runs were finished, and the table of two profiles (`compare_table`) in lines that end in LF. Takes what
/// the table takes, and memory for the text. `NoMemory` where memory is refused.
pub fn compare_text(
    alloc: Global,
    old: &Loaded,
    new: &Loaded,
    by: Measure,
    least: u32,
) -> Result<Vec<u8>, NoMemory>
    ensures { IfOk result (λ text. (v w : View) → IsFileView old.now.profile v → IsFileView new.now.profile w → text.items ≡ compare_text v w by least) }
{
    let table = compare_table(alloc, old, new, by, least)?;
    let old = old.profile().finished();
    let new = new.profile().finished();
    words_over(alloc, by, least, old, new, &table)
}

/// The lines of a table, behind those that say what is compared and whether the runs were finished.
fn words_over(
    alloc: Global,
    by: Measure,
    least: u32,
    old: bool,
    new: bool,
    table: &Table,
) -> Result<Vec<u8>, NoMemory>
    ensures { IfOk result (λ text. text.items ≡ words_over by least old new table.now) }
{
    let mut out = Vec::new(alloc);
    add_title(&mut out, by, least)?;
    add_finished(&mut out, b"old", old)?;
    add_finished(&mut out, b"new", new)?;
    add_text(&mut out, table)?;
    Ok(out)
}

/// Adds the line that says what is compared.
fn add_title(out: &mut Vec<u8>, by: Measure, least: u32) -> Result<(), AllocError>
    ensures { OnOk result (out.new.items ≡ out.old.items ++ title_words by least) }
{
    let mut digits = Buffer::new();
    out.extend_from_slice(b"mdprof compare ")?;
    out.extend_from_slice(measure_word(by))?;
    out.push(b' ')?;
    out.extend_from_slice(digits.format(least).as_bytes())?;
    out.push(b'\n')?;
    Ok(())
}

/// Adds the line that says whether the run of a profile was finished.
fn add_finished(out: &mut Vec<u8>, profile: &[u8], finished: bool) -> Result<(), AllocError>
    ensures { OnOk result (out.new.items ≡ out.old.items ++ finished_words profile.now finished) }
{
    out.extend_from_slice(profile)?;
    if finished {
        out.extend_from_slice(b" finished yes\n")
    } else {
        out.extend_from_slice(b" finished no\n")
    }
}
