//! Worked examples of profiles as data: the standard input has the cases, each with a line `show` that names what is looked at
//! (the cliques of a graph, a profile file, its text or the pieces in which it is written, a page, a response, what words ask
//! for, pairs of calls, turns of goals), and each gets a line that says whether what was found is what the case wants.
#![tactic(auto)]

mod connections;
mod covers;
mod files;
mod graphs;
mod lines;
mod pages;
mod pieces;
mod rows;
mod shapes;
mod views;
mod words;

use std::io;
use test_cases::Case;

fn main(rt: HostRuntime) -> io::Result<()> {
    let alloc = rt.alloc();
    let mut case = Case::new(alloc);
    for line in rt.lines(alloc) {
        let line = line?;
        if line.as_str() == "end" {
            let said = views::verdict(alloc, &case)?;
            let said = said.as_str();
            println!(rt; "{said}")?;
            case = Case::new(alloc);
        } else {
            case.add(alloc, line.as_str())?;
        }
    }
    Ok(())
}
