// A text as a profile.
ghost use Rattle.std.specs.Prelude.{◌≡◌, ◌<◌, Bool, length, Ok, IfOk, IfErr, OnOk};
ghost use Rattle.md_dynamic.specs.Profile.{ProfileRows};
ghost use Rattle.md_dynamic.specs.Valid.{IsValid};
ghost use Rattle.md_dump.specs.Due.{Due, done, line, read, parts_of, whole};
ghost use Rattle.md_dump.specs.Follows.{IsFault, IsShort, Follows};
ghost use Rattle.md_dump.specs.Grown.{rows_of};
ghost use Rattle.md_dump.specs.Left.{read_on};
ghost use Rattle.md_dump.specs.Lines.{Next, all_sections, sections_due, section_due, several, thing_due, title_due, finished_due, front_due, profile_text};
ghost use Rattle.md_dump.specs.Spells.{Spells, IsFaultOf, Reads};

use crate::fault::DumpFault;
use crate::form::count_form;
use crate::lines::Lines;
use crate::rows::Rows;
use crate::section::Section;
use md_dynamic::Profile;
use std::alloc::Global;

/// The sections in their order.
const SECTIONS: [Section; 5] = [
    Section::Modules,
    Section::Procs,
    Section::Sites,
    Section::Contexts,
    Section::Links,
];

/// The profile that a text spells, or its first line at fault. The text has fewer than 4,294,967,295 bytes.
pub fn undump(alloc: Global, text: &[u8]) -> Result<Profile, DumpFault>
    requires { length text.now < 4294967295 }
    ensures found { IfOk result (λ f. Spells text.now f) }
    ensures valid { IfOk result (λ f. IsValid f) }
    ensures only { (f : ProfileRows) → Spells text.now f → Reads f result }
    ensures fault { IfErr result (λ fault. IsFaultOf text.now fault) }
{
    let mut lines = Lines::new(text);
    let rows = read_rows(alloc, &mut lines)?;
    Ok(rows.into_profile())
}

/// All lines of a text.
fn read_rows(alloc: Global, lines: &mut Lines<'_>) -> Result<Rows, DumpFault>
    requires { IsShort lines.old }
    ensures rows { IfOk result (λ rows. read_on profile_text lines.old ≡ Ok (rows_of rows)) }
    ensures fault { IfErr result (λ fault. IsFault fault (read_on profile_text lines.old)) }
{
    let finished = read_front(lines)?;
    let mut rows = Rows::new(alloc, finished);
    read_rest(lines, &mut rows)?;
    Ok(rows)
}

/// The lines before the sections: the title, and whether the run was finished.
fn read_front(lines: &mut Lines<'_>) -> Result<bool, DumpFault>
    requires { IsShort lines.old }
    ensures finished { IfOk result (λ finished. (next : Bool → Due) → read_on (front_due next) lines.old ≡ read_on (next finished) lines.new) }
    ensures fault { IfErr result (λ fault. (next : Bool → Due) → IsFault fault (read_on (front_due next) lines.old)) }
    ensures short { OnOk result (IsShort lines.new) }
{
    read_title(lines)?;
    read_finished(lines)
}

/// The title.
fn read_title(lines: &mut Lines<'_>) -> Result<(), DumpFault>
    requires { IsShort lines.old }
    ensures title { OnOk result ((next : Due) → read_on (line (title_due next)) lines.old ≡ read_on next lines.new) }
    ensures fault { IfErr result (λ fault. (next : Due) → IsFault fault (read_on (line (title_due next)) lines.old)) }
    ensures short { OnOk result (IsShort lines.new) }
{
    let line = lines.next()?;
    if line == b"mdprof dump 2".as_slice() {
        Ok(())
    } else {
        Err(lines.fault())
    }
}

/// Whether the run was finished.
fn read_finished(lines: &mut Lines<'_>) -> Result<bool, DumpFault>
    requires { IsShort lines.old }
    ensures finished { IfOk result (λ finished. (next : Bool → Due) → read_on (line (finished_due next)) lines.old ≡ read_on (next finished) lines.new) }
    ensures fault { IfErr result (λ fault. (next : Bool → Due) → IsFault fault (read_on (line (finished_due next)) lines.old)) }
    ensures short { OnOk result (IsShort lines.new) }
{
    let line = lines.next()?;
    if line == b"finished yes".as_slice() {
        return Ok(true);
    }
    if line == b"finished no".as_slice() {
        return Ok(false);
    }
    Err(lines.fault())
}

/// All sections, to the end of the text.
fn read_rest(lines: &mut Lines<'_>, rows: &mut Rows) -> Result<(), DumpFault>
    requires { IsShort lines.old }
    ensures rows { OnOk result (read_on (sections_due all_sections (rows_of rows.old) done) lines.old ≡ Ok (rows_of rows.new)) }
    ensures fault { IfErr result (λ fault. IsFault fault (read_on (sections_due all_sections (rows_of rows.old) done) lines.old)) }
{
    read_sections(lines, rows, &SECTIONS)?;
    lines.end()?;
    all_reached(lines, rows)
}

/// Sections, one after the other.
fn read_sections(
    lines: &mut Lines<'_>,
    rows: &mut Rows,
    sections: &[Section],
) -> Result<(), DumpFault>
    requires { IsShort lines.old }
    ensures follows { Follows (sections_due sections.now (rows_of rows.old)) lines.old lines.new (rows_of rows.new) result }
    ensures short { OnOk result (IsShort lines.new) }
{
    for section in sections {
        read_section(lines, rows, *section)?;
    }
    Ok(())
}

/// A section: the number of its members, and a line for each.
fn read_section(lines: &mut Lines<'_>, rows: &mut Rows, section: Section) -> Result<(), DumpFault>
    requires { IsShort lines.old }
    ensures follows { Follows (section_due section (rows_of rows.old)) lines.old lines.new (rows_of rows.new) result }
    ensures short { OnOk result (IsShort lines.new) }
{
    let count = read_count(lines, section)?;
    for _ in 0..count {
        read_member(lines, rows, section)?;
    }
    Ok(())
}

/// The number of a section's members.
fn read_count(lines: &mut Lines<'_>, section: Section) -> Result<u32, DumpFault>
    requires { IsShort lines.old }
    ensures count { IfOk result (λ n. (f : ProfileRows) (next : Next) → read_on (section_due section f next) lines.old ≡ read_on (several section n f next) lines.new) }
    ensures fault { IfErr result (λ fault. (f : ProfileRows) (next : Next) → IsFault fault (read_on (section_due section f next) lines.old)) }
    ensures short { OnOk result (IsShort lines.new) }
{
    let line = lines.next()?;
    let Some(count) = count_form(section.name(), line) else {
        return Err(lines.fault());
    };
    if count < section.least() {
        return Err(lines.fault());
    }
    Ok(count)
}

/// A member of a section.
fn read_member(lines: &mut Lines<'_>, rows: &mut Rows, section: Section) -> Result<(), DumpFault>
    requires { IsShort lines.old }
    ensures follows { Follows (λ next. line (thing_due section (rows_of rows.old) next)) lines.old lines.new (rows_of rows.new) result }
    ensures short { OnOk result (IsShort lines.new) }
{
    let line = lines.next()?;
    if rows.add(section, line)? {
        Ok(())
    } else {
        Err(lines.fault())
    }
}

/// Whether each context is reached from one of a lower number, at the end of a text.
fn all_reached(lines: &Lines<'_>, rows: &Rows) -> Result<(), DumpFault>
    ensures whole { OnOk result (whole lines.now.before (rows_of rows.now) ≡ Ok (rows_of rows.now)) }
    ensures orphan { IfErr result (λ fault. IsFault fault (whole lines.now.before (rows_of rows.now))) }
{
    match rows.orphan_line(lines.before) {
        None => Ok(()),
        Some(line) => Err(DumpFault::Line(line)),
    }
}
