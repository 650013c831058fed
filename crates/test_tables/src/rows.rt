// Rows of counts, and links with theirs, as lines.
use crate::words::OrDash;
use md_base::{Counts, NoMemory};
use md_dynamic::LinkRow;

/// Adds calls, exits, fails, redos, allocations, words and exceptions, and the end of the line.
pub fn show_counts(counts: &Counts, found: &mut String) -> Result<(), NoMemory> {
    write!(
        found,
        ": {} {} {}",
        counts.calls, counts.exits, counts.fails
    )?;
    write!(found, " {} {}", counts.redos, counts.allocs)?;
    writeln!(found, " {} {}", counts.words, counts.excps)?;
    Ok(())
}

/// Adds a line `link CALLER SITE CALLEE` with the link's own counts.
pub fn show_link(link: &LinkRow, found: &mut String) -> Result<(), NoMemory> {
    let caller = OrDash(link.caller.map(|caller| caller.number()));
    let site = OrDash(link.site.map(|site| site.number()));
    let callee = link.callee.number();
    write!(found, "link {caller} {site} {callee}")?;
    show_counts(&link.own, found)
}
