// Sinks: what comes of the lines `write BYTES`, and what they hold then.
use crate::input::{failing, most, show_bytes};
use md_base::{Sink, write_whole};
use md_system::StdSink;
use std::alloc::{AllocError, Global};
use std::io;
use std::io::ErrorKind;
use std::os::fd::{AsRawFd, RawFd};
use test_cases::Case;
use test_memory::{MemSink, SureSink};

/// A sink in memory that holds the bytes of the line `held`, and of which the calls `fails NUMBER` fail.
pub fn show_failing(alloc: Global, case: &Case, found: &mut String) -> Result<(), AllocError> {
    let held = case.bytes("held").to_vec(alloc)?;
    let fails = failing(alloc, case, "fails")?;
    let mut sink = MemSink::new(held, most(case), fails);
    write_all(case, &mut sink, found)?;
    write!(found, "holds ")?;
    show_bytes(alloc, sink.bytes(), found)
}

/// A sink in memory that never fails.
pub fn show_sure(alloc: Global, case: &Case, found: &mut String) -> Result<(), AllocError> {
    let held = case.bytes("held").to_vec(alloc)?;
    let mut sink = SureSink::new(held, most(case));
    write_all(case, &mut sink, found)?;
    write!(found, "holds ")?;
    show_bytes(alloc, sink.bytes(), found)
}

/// A writer of which so many calls are cut short by a signal, and then so many find it not ready, before it takes what it
/// is given; or which takes nothing.
#[derive(Drop)]
struct Hampered {
    interruptions: u64,
    waits: u64,
    takes: bool,
}

impl io::Write for Hampered {
    fn write(&mut self, buf: &[u8]) -> io::Result<usize> {
        if self.interruptions > 0 {
            self.interruptions -= 1;
            return Err(io::Error::from(ErrorKind::Interrupted));
        }
        if self.waits > 0 {
            self.waits -= 1;
            return Err(io::Error::from(ErrorKind::WouldBlock));
        }
        Ok(if self.takes { buf.len() } else { 0 })
    }

    fn flush(&mut self) -> io::Result<()> {
        Ok(())
    }
}

impl AsRawFd for Hampered {
    // No descriptor: nothing of it is ever ready.
    fn as_raw_fd(&self) -> RawFd {
        -1
    }
}

/// A sink over a writer that is cut short by as many signals as the line `interruptions` says, and isn't ready as often as
/// the line `waits` says; that takes nothing where there is a line `full`; or over a stream that is closed, where there is
/// a line `closed`.
pub fn show_hampered(case: &Case, found: &mut String) -> Result<(), AllocError> {
    let writer = Hampered {
        interruptions: case.number("interruptions"),
        waits: case.number("waits"),
        takes: !has(case, "full"),
    };
    let open = if has(case, "closed") {
        None
    } else {
        Some(writer)
    };
    let mut sink = StdSink::new(open);
    write_all(case, &mut sink, found)
}

/// Whether the case has a line with this key.
fn has(case: &Case, key: &str) -> bool {
    case.fields().iter().any(|field| field.key.as_str() == key)
}

/// Writes the bytes of each line `write`.
pub fn write_all<K: Sink>(case: &Case, sink: &mut K, found: &mut String) -> Result<(), AllocError> {
    for field in case.fields() {
        if field.key.as_str() == "write" {
            write(sink, field.bytes.as_slice(), found)?;
        }
    }
    Ok(())
}

/// Writes all these bytes.
pub fn write<K: Sink>(sink: &mut K, bytes: &[u8], found: &mut String) -> Result<(), AllocError> {
    match write_whole(sink, bytes) {
        Ok(()) => writeln!(found, "written"),
        Err(fault) => writeln!(found, "{fault}"),
    }
}
