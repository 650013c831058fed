// Connections that are held: those whose head is still to come, and those that were answered and still send.
ghost use Rattle.std.specs.Prelude.{◌≡◌, IfSome};

use crate::link::TcpLink;
use crate::tries::MOST_TRIES;
use crate::waiting::{Closing, Waiting};
use libc::net::{POLLIN, poll};
use libc::types::pollfd;
use libc::{EAGAIN, ECONNABORTED, EINTR, EMFILE};
use md_base::{Failed, NoMemory};
use std::alloc::Global;
use std::io;
use std::io::{Read, Write};
use std::net::{OpenListener, OpenStream};
use std::os::fd::{AsRawFd, RawFd};
use std::time::Duration;

/// The most connections of each kind.
const MOST_HELD: usize = 64;

/// More accepts than are ever made at once.
const MOST_ACCEPTS: u32 = 1_000;

/// How long the net is left alone where the system has no room for a connection, in milliseconds.
const PAUSE: i32 = 10;

/// The number of a fault of the peer's, at which the next connection may be whole.
const EPROTO: i32 = 71;

/// The numbers of a want of room, besides that of this process.
const ENFILE: i32 = 23;

const ENOBUFS: i32 = 105;

/// Whether connections are taken in for now.
#[derive(Clone, Copy, Debug, PartialEq, Eq)]
pub(crate) enum Listening {
    /// They are, as they come.
    Open,
    /// As many are held as may be.
    Full,
    /// The system has no room for one.
    Paused,
}

/// What an accept that failed is.
#[derive(Clone, Copy, Debug, PartialEq, Eq)]
enum Refusal {
    /// No connection has come.
    NoneCame,
    /// The next one may be whole.
    Passing,
    /// There may be room later.
    NoRoom,
    /// A fault.
    Fault,
}

/// The connections that are held.
#[derive(Drop)]
pub(crate) struct Held<S> {
    waiting: Vec<Waiting<S>>,
    closing: Vec<Closing<S>>,
}

impl<S: Read + Write + OpenStream + AsRawFd + Drop> Held<S> {
    pub(crate) fn new(alloc: Global) -> Held<S> {
        Held {
            waiting: Vec::new(alloc),
            closing: Vec::new(alloc),
        }
    }

    /// Takes in the connections that have come, as far as there is room. An accept that fails is tried again where that
    /// may help, a hundred times in a row at most. While connections are held, which all end, a want of room isn't
    /// counted.
    pub(crate) fn take_in<L: OpenListener<Stream = S>>(
        &mut self,
        alloc: Global,
        listener: &L,
        refusals: &mut u32,
        now: Duration,
    ) -> Result<Listening, Failed> {
        for _ in 0..MOST_ACCEPTS {
            if self.waiting.len() >= MOST_HELD {
                return Ok(Listening::Full);
            }
            match accept(listener) {
                Ok(stream) => {
                    *refusals = 0;
                    self.waiting.push(Waiting::new(alloc, stream, now))?;
                }
                Err(Refusal::NoneCame) => return Ok(Listening::Open),
                Err(Refusal::NoRoom) if !self.is_empty() => return Ok(Listening::Paused),
                Err(refusal) => {
                    if refusal == Refusal::Fault || *refusals >= MOST_TRIES {
                        return Err(Failed::Device);
                    }
                    *refusals = refusals.saturating_add(1);
                    if refusal == Refusal::NoRoom {
                        return Ok(Listening::Paused);
                    }
                }
            }
        }
        Ok(Listening::Open)
    }

    pub(crate) fn is_empty(&self) -> bool {
        self.waiting.is_empty() && self.closing.is_empty()
    }

    /// Takes what has come of each head, and drops what still comes of the connections that were answered.
    pub(crate) fn hear(&mut self, now: Duration) -> Result<(), NoMemory> {
        for waiting in self.waiting.iter_mut() {
            waiting.hear(now)?;
        }
        self.closing.retain_mut(|closing| closing.goes_on(now));
        Ok(())
    }

    /// The first connection that is ready to be served.
    pub(crate) fn first_ready(&mut self) -> Option<TcpLink<S>>
        ensures { IfSome result (λ link. (link.read_faults ≡ 0) × (link.write_faults ≡ 0)) }
    {
        let place = self.waiting.iter().position(|waiting| waiting.is_ready())?;
        if place >= self.waiting.len() {
            return None;
        }
        Some(self.waiting.remove(place).into_link())
    }

    /// Keeps an answered connection until its peer has the answer. Where as many are kept as may be, the first one is
    /// closed.
    pub(crate) fn close(&mut self, stream: S, now: Duration) -> Result<(), NoMemory> {
        if self.closing.len() >= MOST_HELD {
            drop(self.closing.remove(0));
        }
        self.closing.push(Closing::new(stream, now))?;
        Ok(())
    }

    /// Closes the connections that were never served.
    pub(crate) fn forget(&mut self) {
        self.waiting.clear();
    }

    /// Waits until something comes, also at a listener, or the time of a connection is up; for a pause at most where the
    /// net is left alone.
    pub(crate) fn wait(
        &self,
        alloc: Global,
        listener: Option<RawFd>,
        pauses: bool,
        now: Duration,
    ) -> Result<(), NoMemory> {
        let mut fds = Vec::new(alloc);
        if let Some(fd) = listener {
            fds.push(readable(fd))?;
        }
        let mut ends = None;
        if pauses {
            ends = Some(now.saturating_add(Duration::from_millis(PAUSE as u64)));
        }
        for waiting in &self.waiting {
            fds.push(readable(waiting.as_raw_fd()))?;
            ends = earlier(ends, waiting.ends());
        }
        for closing in &self.closing {
            fds.push(readable(closing.as_raw_fd()))?;
            ends = earlier(ends, closing.ends());
        }
        if poll(&mut fds, milliseconds(ends, now)) < 0 {
            poll(&mut [], PAUSE);
        }
        Ok(())
    }
}

/// Whichever of two times is the earlier one.
fn earlier(one: Option<Duration>, other: Duration) -> Option<Duration> {
    match one {
        Some(one) => Some(one.min(other)),
        None => Some(other),
    }
}

/// The milliseconds until a time, rounded up, as `poll` takes them: for ever where there is no such time.
fn milliseconds(ends: Option<Duration>, now: Duration) -> i32 {
    match ends {
        Some(ends) => {
            let left = ends.saturating_sub(now).as_millis();
            i32::try_from(left).unwrap_or(i32::MAX).saturating_add(1)
        }
        None => -1,
    }
}

/// What is asked of `poll`: to tell when bytes have come, or a connection.
fn readable(fd: RawFd) -> pollfd {
    pollfd {
        fd,
        events: POLLIN,
        revents: 0,
    }
}

/// The stream of the next connection that has come. A read or a write of it doesn't wait.
fn accept<L: OpenListener>(listener: &L) -> Result<L::Stream, Refusal>
where
    L::Stream: OpenStream,
{
    let stream = match listener.accept() {
        Ok((stream, _)) => stream,
        Err(error) => return Err(refusal_of(&error)),
    };
    match stream.set_nonblocking(true) {
        Ok(()) => Ok(stream),
        Err(_) => Err(Refusal::Passing),
    }
}

/// What an accept that failed is.
fn refusal_of(error: &io::Error) -> Refusal {
    match error.raw_os_error() {
        Some(EAGAIN) => Refusal::NoneCame,
        Some(EINTR | ECONNABORTED | EPROTO) => Refusal::Passing,
        Some(EMFILE | ENFILE | ENOBUFS) => Refusal::NoRoom,
        _ => Refusal::Fault,
    }
}
