// Bytes written to a sink.
ghost use Rattle.std.specs.Prelude.{◌≤◌};
ghost use Rattle.md_base.specs.Outside.{Rose};
ghost use Rattle.md_tool.specs.Due.{WriteEnds};
ghost use Rattle.md_tool.specs.Rises.{RisesBy};

use crate::fault::Fault;
use md_base::{Sink, WriteFault, write_whole};

/// Writes bytes.
pub fn write<O: Sink>(out: &mut O, bytes: &[u8]) -> Result<(), Fault>
    ensures ends { WriteEnds bytes.now (O.held out.old) (O.held out.new) (Rose (O.write_faults out.old) (O.write_faults out.new)) result }
    ensures later { O.write_faults out.old ≤ O.write_faults out.new }
    ensures outs { RisesBy Fault.Write (O.write_faults out.old) (O.write_faults out.new) result }
{
    match write_whole(out, bytes) {
        Ok(()) => Ok(()),
        Err(WriteFault::Write) => Err(Fault::Write),
        Err(WriteFault::NoMemory) => Err(Fault::NoMemory),
    }
}
