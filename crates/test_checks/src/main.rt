//! Worked examples of how texts of programs are cut into tokens, read, printed, checked and compiled, as data. The standard input has the cases. The line `show` of a case names what is found of its text, and each
//! case gets a line that says whether this is what the case wants.
#![tactic(auto)]

mod bindings;
mod cells;
mod det;
mod fault;
mod flat;
mod kinds;
mod modes;
mod names;
mod pairs;
mod printed;
mod show;
mod spelling;
mod tables;
mod text;
mod words;

use std::io;
use test_cases::Case;

fn main(rt: HostRuntime) -> io::Result<()> {
    let alloc = rt.alloc();
    let mut case = Case::new(alloc);
    for line in rt.lines(alloc) {
        let line = line?;
        if line.as_str() == "end" {
            let said = show::verdict(alloc, &case)?;
            let said = said.as_str();
            println!(rt; "{said}")?;
            case = Case::new(alloc);
        } else {
            case.add(alloc, line.as_str())?;
        }
    }
    Ok(())
}
