// Calls of the system that are tried again, and faults that are counted.
ghost use Rattle.std.specs.Prelude.{◌≡◌, ◌≤◌, ◌↔◌, length, IfOk, IsOk, OnErr};
ghost use Rattle.md_base.specs.Outside.{Takes, HasCause};

use libc::net::{POLLIN, POLLOUT, poll};
use libc::types::pollfd;
use md_base::Failed;
use std::io;
use std::io::{ErrorKind, Read, Write};
use std::os::fd::{AsRawFd, RawFd};

/// How often in a row a call is tried again that a signal cut short.
pub(crate) const MOST_TRIES: u32 = 100;

/// How long a call that isn't ready waits before it is tried again, in milliseconds.
const WAIT: i32 = 100;

/// More tries than any patience has.
const ALL_TRIES: u32 = 1_000;

/// How often a call is still tried again: where a signal cut it short, and where it isn't ready.
#[derive(Drop)]
struct Patience {
    interruptions: u32,
    waits: u32,
}

impl Patience {
    fn new(waits: u32) -> Patience {
        Patience {
            interruptions: MOST_TRIES,
            waits,
        }
    }

    /// Whether a call is tried again after this error. Where the thing isn't ready, it waits for it first.
    fn lasts(&mut self, error: &io::Error, fd: RawFd, events: i16) -> bool {
        match error.kind() {
            ErrorKind::Interrupted if self.interruptions > 0 => {
                self.interruptions -= 1;
                true
            }
            ErrorKind::WouldBlock if self.waits > 0 => {
                self.waits -= 1;
                wait_for(fd, events, WAIT);
                true
            }
            _ => false,
        }
    }
}

/// Waits until a descriptor is ready, for so many milliseconds at most.
fn wait_for(fd: RawFd, events: i16, most: i32) {
    let mut fds = [pollfd {
        fd,
        events,
        revents: 0,
    }];
    poll(&mut fds, most);
}

/// Reads some bytes, and waits for a reader that isn't ready, so many tenths of a second at most.
pub(crate) fn read_some<R: Read + AsRawFd>(
    from: &mut R,
    buf: &mut [u8],
    tenths: u32,
) -> Result<usize, Failed>
    ensures within { IfOk result (λ n. n ≤ length buf.old) }
{
    let mut patience = Patience::new(tenths);
    for _ in 0..ALL_TRIES {
        match from.read(buf) {
            Ok(count) => return Ok(count),
            Err(error) => {
                if !patience.lasts(&error, from.as_raw_fd(), POLLIN) {
                    return Err(failed(error));
                }
            }
        }
    }
    Err(Failed::Device)
}

/// Writes a front of a piece, and waits for a writer that isn't ready, so many tenths of a second at most. A writer that
/// takes nothing of a piece that isn't empty has failed.
pub(crate) fn write_some<W: Write + AsRawFd>(
    to: &mut W,
    piece: &[u8],
    tenths: u32,
) -> Result<usize, Failed>
    ensures takes { IfOk result (λ n. Takes n piece.now) }
    ensures device { OnErr result (result ≡ Err Failed.Device) }
{
    if piece.is_empty() {
        return Ok(0);
    }
    let mut patience = Patience::new(tenths);
    for _ in 0..ALL_TRIES {
        match to.write(piece) {
            Ok(0) => return Err(Failed::Device),
            Ok(count) => return Ok(count),
            Err(error) => {
                if !patience.lasts(&error, to.as_raw_fd(), POLLOUT) {
                    return Err(Failed::Device);
                }
            }
        }
    }
    Err(Failed::Device)
}

/// An error of the system, as it is told.
pub(crate) fn failed(error: io::Error) -> Failed {
    match error.kind() {
        ErrorKind::OutOfMemory => Failed::NoMemory,
        _ => Failed::Device,
    }
}

/// What a step of the system is: done, or a fault of a device.
pub(crate) fn outcome(step: io::Result<()>) -> Result<(), Failed>
    ensures done { IsOk result ↔ IsOk step }
    ensures device { OnErr result (result ≡ Err Failed.Device) }
{
    match step {
        Ok(()) => Ok(()),
        Err(_) => Err(Failed::Device),
    }
}

/// Counts a call at which a device failed, and no other.
pub(crate) fn counted<T>(faults: &mut u64, told: Result<T, Failed>) -> Result<T, Failed>
    ensures told { result ≡ told }
    ensures cause { HasCause Failed.Device faults.old faults.new result }
{
    match told {
        Err(Failed::Device) => {
            *faults = faults.saturating_add(1);
            Err(Failed::Device)
        }
        other => other,
    }
}
