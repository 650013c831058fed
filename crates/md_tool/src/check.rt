// The command `check`.
ghost use Rattle.std.specs.Prelude.{◌≡◌, true, codes};
ghost use Rattle.md_base.specs.Outside.{Rose};
ghost use Rattle.md_hlds.specs.Hlds.{hlds_of};
ghost use Rattle.md_printer.specs.Printed.{printed};
ghost use Rattle.md_tool.specs.Due.{CheckEnds, WriteEnds, check_output};
ghost use Rattle.md_tool.specs.Rises.{RisesBy};

use crate::accept::{accept, read_text};
use crate::fault::Fault;
use crate::write::write;
use md_base::{Sink, Store};
use md_hlds::Program;
use md_printer::print;
use std::alloc::Global;

/// Checks the program of a file, and writes that it is accepted, or its printed text.
pub fn check_file<S: Store, O: Sink>(
    alloc: Global,
    file: &str,
    printing: bool,
    store: &mut S,
    out: &mut O,
) -> Result<(), Fault>
    ensures ends { CheckEnds (S.held store.old) file.now printing (O.held out.old) (O.held out.new)
        (Rose (S.read_faults store.old) (S.read_faults store.new)) (Rose (O.write_faults out.old) (O.write_faults out.new)) result }
    ensures kept { S.held store.new ≡ S.held store.old }
    ensures reads { RisesBy Fault.Read (S.read_faults store.old) (S.read_faults store.new) result }
    ensures writes { S.write_faults store.new ≡ S.write_faults store.old }
    ensures outs { RisesBy Fault.Write (O.write_faults out.old) (O.write_faults out.new) result }
{
    let text = read_text(alloc, file, store)?;
    let checked = accept(alloc, &text)?;
    show(alloc, checked.program(), printing, out)
}

/// Writes what there is to say of an accepted program.
fn show<O: Sink>(alloc: Global, program: &Program, printing: bool, out: &mut O) -> Result<(), Fault>
    ensures ends { WriteEnds (check_output printing (hlds_of program.now)) (O.held out.old) (O.held out.new)
        (Rose (O.write_faults out.old) (O.write_faults out.new)) result }
    ensures outs { RisesBy Fault.Write (O.write_faults out.old) (O.write_faults out.new) result }
{
    if printing {
        show_program(alloc, program, out)
    } else {
        write(out, b"accepted\n")
    }
}

/// Writes the printed text of a program.
fn show_program<O: Sink>(alloc: Global, program: &Program, out: &mut O) -> Result<(), Fault>
    ensures ends { WriteEnds (printed (hlds_of program.now)) (O.held out.old) (O.held out.new)
        (Rose (O.write_faults out.old) (O.write_faults out.new)) result }
    ensures outs { RisesBy Fault.Write (O.write_faults out.old) (O.write_faults out.new) result }
{
    match print(alloc, program) {
        Ok(text) => write(out, &text),
        Err(_) => Err(Fault::NoMemory),
    }
}
