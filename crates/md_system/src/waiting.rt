// A connection that is held: one whose head is still to come, or one that was answered and still sends.
ghost use Rattle.std.specs.Prelude.{◌≡◌};

use crate::link::{Behind, Heard, TcpLink};
use md_base::NoMemory;
use std::alloc::Global;
use std::io::{ErrorKind, Read, Write};
use std::net::{OpenStream, Shutdown};
use std::os::fd::{AsRawFd, RawFd};
use std::time::Duration;

/// The most bytes of a head.
const MOST_BYTES: usize = 8_192;

/// How many seconds a peer may send no byte of its head.
const SILENCE: u64 = 2;

/// How many seconds a peer may take for its head.
const HEAD_TIME: u64 = 10;

/// For how many seconds what a peer still sends is read and dropped once it was answered.
const DROP_TIME: u64 = 1;

/// How much of it is dropped at most.
const MOST_DROPPED: usize = 65_536;

/// A connection whose head is still to come.
#[derive(Drop)]
pub(crate) struct Waiting<S> {
    stream: S,
    bytes: Vec<u8>,
    behind: Behind,
    since: Duration,
    last: Duration,
}

impl<S: Read + Write + AsRawFd> Waiting<S> {
    /// A connection that has just come.
    pub(crate) fn new(alloc: Global, stream: S, now: Duration) -> Waiting<S> {
        Waiting {
            stream,
            bytes: Vec::new(alloc),
            behind: Behind::More,
            since: now,
            last: now,
        }
    }

    /// Takes what has come of the head, where it doesn't have to be waited for.
    pub(crate) fn hear(&mut self, now: Duration) -> Result<(), NoMemory> {
        let mut room = [0u8; MOST_BYTES];
        let left = MOST_BYTES.saturating_sub(self.bytes.len());
        if left == 0 || self.behind != Behind::More {
            return Ok(());
        }
        match self.stream.read(&mut room[..left]) {
            Ok(0) => self.behind = Behind::End,
            Ok(count) => {
                self.bytes.extend_from_slice(&room[..count])?;
                self.last = now;
            }
            Err(error) if is_passing(error.kind()) => {}
            Err(_) => self.behind = Behind::Fault,
        }
        if now >= self.ends() && !self.is_whole() {
            self.behind = Behind::Fault;
        }
        Ok(())
    }

    /// Whether its whole head is there, or as many bytes as a head has at most.
    fn is_whole(&self) -> bool {
        self.bytes.len() >= MOST_BYTES || has_head(self.bytes.as_slice())
    }

    /// Whether it is waited for no more.
    pub(crate) fn is_ready(&self) -> bool {
        self.behind != Behind::More || self.is_whole()
    }

    /// The number of its stream.
    pub(crate) fn as_raw_fd(&self) -> RawFd {
        self.stream.as_raw_fd()
    }

    /// When its time is up.
    pub(crate) fn ends(&self) -> Duration {
        let silent = self.last.saturating_add(Duration::from_secs(SILENCE));
        silent.min(self.since.saturating_add(Duration::from_secs(HEAD_TIME)))
    }

    /// The connection, to be served.
    pub(crate) fn into_link(self) -> TcpLink<S>
        ensures reads { result.read_faults ≡ 0 }
        ensures writes { result.write_faults ≡ 0 }
    {
        let heard = Heard {
            bytes: self.bytes,
            given: 0,
            behind: self.behind,
        };
        TcpLink::new(self.stream, heard)
    }
}

/// Whether a read is to be tried again later.
fn is_passing(kind: ErrorKind) -> bool {
    matches!(kind, ErrorKind::WouldBlock | ErrorKind::Interrupted)
}

/// Whether these bytes have an empty line behind one that isn't empty, which ends a head.
fn has_head(bytes: &[u8]) -> bool {
    let mut has_begun = false;
    let mut is_empty = true;
    for byte in bytes {
        match *byte {
            b'\n' if has_begun && is_empty => return true,
            b'\n' => is_empty = true,
            b'\r' => {}
            _ => {
                has_begun = true;
                is_empty = false;
            }
        }
    }
    false
}

/// A connection that was answered, and of which what still comes is read and dropped, so that the answer isn't lost.
#[derive(Drop)]
pub(crate) struct Closing<S> {
    stream: S,
    until: Duration,
    room: usize,
}

impl<S: Read + OpenStream + AsRawFd> Closing<S> {
    /// Ends the sending, and begins to drop what comes.
    pub(crate) fn new(stream: S, now: Duration) -> Closing<S> {
        let _ended = stream.shutdown(Shutdown::Write);
        Closing {
            stream,
            until: now.saturating_add(Duration::from_secs(DROP_TIME)),
            room: MOST_DROPPED,
        }
    }

    /// The number of its stream.
    pub(crate) fn as_raw_fd(&self) -> RawFd {
        self.stream.as_raw_fd()
    }

    /// When its time is up.
    pub(crate) fn ends(&self) -> Duration {
        self.until
    }

    /// Drops what has come, where it doesn't have to be waited for. Answers whether more is to be dropped.
    pub(crate) fn goes_on(&mut self, now: Duration) -> bool {
        let mut room = [0u8; MOST_BYTES];
        for _ in 0..MOST_DROPPED {
            if now >= self.until || self.room == 0 {
                return false;
            }
            let most = self.room.min(room.len());
            match self.stream.read(&mut room[..most]) {
                Ok(0) => return false,
                Ok(count) => self.room = self.room.saturating_sub(count),
                Err(error) => return is_passing(error.kind()),
            }
        }
        false
    }
}
