// Standard output and standard error as sinks.
ghost use Rattle.std.specs.Prelude.{◌≡◌, None, IfOk, OnErr};
ghost use Rattle.md_base.specs.Outside.{Takes};
ghost use Rattle.md_base.specs.Streams.{no_source};

use crate::tries::{counted, write_some};
use md_base::{Failed, Sink};
use std::io::Write;
use std::os::fd::AsRawFd;

/// How long a writer that isn't ready is waited for without progress: a minute.
const TENTHS: u32 = 600;

/// A sink over a real writer, as standard output or standard error. It tells nothing of what it holds.
#[derive(Drop)]
pub struct StdSink<W> {
    to: Option<W>,
    faults: u64,
}

impl<W: Write + AsRawFd> StdSink<W> {
    /// A sink over this writer, or over a stream that is closed, which takes nothing; with a count of 0.
    pub fn new(to: Option<W>) -> StdSink<W>
        ensures { result.faults ≡ 0 }
    {
        StdSink { to, faults: 0 }
    }
}

impl<W: Write + AsRawFd> Sink for StdSink<W> {
    ghost held = { λ _. None };

    ghost write_faults = { λ s. s.faults };

    ghost source_beside = { λ _. no_source };

    fn write(&mut self, piece: &[u8]) -> Result<usize, Failed> {
        let written = write_open(&mut self.to, piece);
        counted(&mut self.faults, written)
    }
}

/// Writes a front of a piece where the stream is open.
fn write_open<W: Write + AsRawFd>(to: &mut Option<W>, piece: &[u8]) -> Result<usize, Failed>
    ensures takes { IfOk result (λ n. Takes n piece.now) }
    ensures device { OnErr result (result ≡ Err Failed.Device) }
{
    match to {
        Some(to) => write_some(to, piece, TENTHS),
        None if piece.is_empty() => Ok(0),
        None => Err(Failed::Device),
    }
}
