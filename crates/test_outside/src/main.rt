//! Worked examples of the outside and of the values of a run, as data. The standard input has the cases: files, streams and
//! connections, how many bytes a call takes or gives at most, which calls fail, and what is done. Each gets a line that says
//! whether all of it came as the case wants.
#![tactic(auto)]

mod counts;
mod files;
mod heaps;
mod input;
mod machine;
mod names;
mod nets;
mod peers;
mod sinks;
mod stores;

use std::alloc::{AllocError, Global};
use std::io;
use test_cases::Case;

fn main(rt: HostRuntime) -> io::Result<()> {
    let alloc = rt.alloc();
    let mut case = Case::new(alloc);
    for line in rt.lines(alloc) {
        let line = line?;
        if line.as_str() == "end" {
            let said = said_of(&rt, alloc, &case)?;
            let said = said.as_str();
            println!(rt; "{said}")?;
            case = Case::new(alloc);
        } else {
            case.add(alloc, line.as_str())?;
        }
    }
    Ok(())
}

/// Whether what is found is what the case wants.
fn said_of(rt: &HostRuntime, alloc: Global, case: &Case) -> io::Result<String> {
    let mut found = String::new(alloc);
    show(rt, alloc, case, &mut found)?;
    Ok(case.verdict(alloc, found.as_str())?)
}

/// Adds what the view that the case names shows.
fn show(rt: &HostRuntime, alloc: Global, case: &Case, found: &mut String) -> io::Result<()> {
    match case.text("show") {
        "files" => files::show(rt, alloc, case, found),
        "peers" => peers::show(rt, alloc, case, found),
        "tcp" => machine::show_tcp(rt, alloc, case, found),
        "error stream" => machine::show_error_stream(rt, case, found),
        view => Ok(show_in_memory(alloc, case, view, found)?),
    }
}

/// The same, of what needs nothing of the machine.
fn show_in_memory(
    alloc: Global,
    case: &Case,
    view: &str,
    found: &mut String,
) -> Result<(), AllocError> {
    match view {
        "store" => stores::show_failing(alloc, case, found),
        "sure store" => stores::show_sure(alloc, case, found),
        "pieces" => stores::show_pieces(alloc, case, found),
        "sink" => sinks::show_failing(alloc, case, found),
        "sure sink" => sinks::show_sure(alloc, case, found),
        "hampered sink" => sinks::show_hampered(case, found),
        "net" => nets::show_failing(alloc, case, found),
        "sure net" => nets::show_sure(alloc, case, found),
        "ports" => nets::show_ports(alloc, case, found),
        "counts" => counts::show(case, found),
        "names" => names::show(alloc, case, found),
        "heap" => heaps::show(alloc, case, found),
        _ => writeln!(found, "no view {view}"),
    }
}
