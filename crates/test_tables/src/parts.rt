// A profile of given parts, as lines `context PROC` and `link CALLER SITE CALLEE` beside its tables: whether it is valid.
use crate::tables::tables;
use crate::words::{number, number_or_zero};
use md_base::{Counts, NoMemory, PdId, ProcId, SiteId};
use md_dynamic::{LinkRow, Profile};
use std::alloc::Global;
use test_cases::Case;

/// Whether the profile is valid, or what its fault is.
pub fn show_validity(alloc: Global, case: &Case, found: &mut String) -> Result<(), NoMemory> {
    let profile = profile_of_parts(alloc, case)?;
    match profile.check() {
        Ok(()) => writeln!(found, "valid")?,
        Err(fault) => writeln!(found, "{fault}")?,
    }
    Ok(())
}

fn profile_of_parts(alloc: Global, case: &Case) -> Result<Profile, NoMemory> {
    let statics = tables(alloc, case)?;
    let contexts = contexts(alloc, case)?;
    Ok(Profile::from_parts(statics, contexts, links(alloc, case)?, true))
}

/// The procedure of each context.
fn contexts(alloc: Global, case: &Case) -> Result<Vec<ProcId>, NoMemory> {
    let mut contexts = Vec::new(alloc);
    for field in case.fields() {
        if field.key.as_str() == "context" {
            contexts.push(ProcId::new(number_or_zero(Some(field.text.as_str()))))?;
        }
    }
    Ok(contexts)
}

/// The links, with counts of 0.
fn links(alloc: Global, case: &Case) -> Result<Vec<LinkRow>, NoMemory> {
    let mut links = Vec::new(alloc);
    for field in case.fields() {
        if field.key.as_str() == "link" {
            let (caller, site, callee) = ends_of(field.text.as_str());
            links.push(LinkRow {
                caller,
                site,
                callee,
                own: Counts::default(),
            })?;
        }
    }
    Ok(links)
}

/// The caller, the site and the end of a link.
fn ends_of(text: &str) -> (Option<PdId>, Option<SiteId>, PdId) {
    let mut words = text.split(' ');
    let caller = number(words.next()).map(|caller| PdId::new(caller));
    let site = number(words.next()).map(|site| SiteId::new(site));
    let callee = PdId::new(number_or_zero(words.next()));
    (caller, site, callee)
}
