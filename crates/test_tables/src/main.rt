//! Worked examples of program tables and recorded events, as data. The standard input has the cases: tables and events, and
//! what is to be shown of them. Each gets a line that says whether all of it came as the case wants.
#![tactic(auto)]

mod agreement;
mod counts;
mod events;
mod parts;
mod random;
mod rows;
mod runs;
mod slow;
mod tables;
mod walk;
mod words;

use md_base::NoMemory;
use std::alloc::{AllocError, Global};
use std::io;
use test_cases::Case;

fn main(rt: HostRuntime) -> io::Result<()> {
    let alloc = rt.alloc();
    let mut case = Case::new(alloc);
    for line in rt.lines(alloc) {
        let line = line?;
        if line.as_str() == "end" {
            let said = said_of(alloc, &case)?;
            let said = said.as_str();
            println!(rt; "{said}")?;
            case = Case::new(alloc);
        } else {
            case.add(alloc, line.as_str())?;
        }
    }
    Ok(())
}

/// Whether what is found is what the case wants.
fn said_of(alloc: Global, case: &Case) -> Result<String, AllocError> {
    let mut found = String::new(alloc);
    if show_all(alloc, case, &mut found).is_err() {
        return Err(AllocError);
    }
    case.verdict(alloc, found.as_str())
}

/// Adds what each line `show` of the case asks for.
fn show_all(alloc: Global, case: &Case, found: &mut String) -> Result<(), NoMemory> {
    for field in case.fields() {
        if field.key.as_str() == "show" {
            show(alloc, case, field.text.as_str(), found)?;
        }
    }
    Ok(())
}

/// Adds what this view shows.
fn show(alloc: Global, case: &Case, view: &str, found: &mut String) -> Result<(), NoMemory> {
    match view {
        "soundness" => tables::show_soundness(alloc, case, found),
        "copy" => tables::show_copy(alloc, case, found),
        "validity" => parts::show_validity(alloc, case, found),
        "counter" => counts::show_new(alloc, case, found),
        "counts" => counts::show_counts(alloc, case, found),
        "history" => runs::show_history(alloc, case, found),
        "profile" => runs::show_profile(alloc, case, found),
        "sizes" => walk::show_sizes(alloc, case, found),
        "agreement" => agreement::show_agreement(alloc, case, found),
        _ => {
            writeln!(found, "no view {view}")?;
            Ok(())
        }
    }
}
