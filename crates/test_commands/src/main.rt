//! Worked examples of the whole program, as data. The standard input has the cases; each is run through `md_tool::top` over
//! files and streams in memory, and gets a line that says whether all of it came as the case says.
#![tactic(auto)]

mod case;
mod connections;
mod failing;
mod net;
mod outcome;
mod tries;

use case::Case;
use std::io;

fn main(rt: HostRuntime) -> io::Result<()> {
    let alloc = rt.alloc();
    let mut case = Case::new(alloc);
    for line in rt.lines(alloc) {
        let line = line?;
        if line.as_str() == "end" {
            let said = outcome::of(alloc, &case)?;
            let said = said.as_str();
            println!(rt; "{said}")?;
            case = Case::new(alloc);
        } else {
            case.add(alloc, line.as_str())?;
        }
    }
    Ok(())
}
