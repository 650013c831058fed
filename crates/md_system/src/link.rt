// A connection over TCP.
ghost use Rattle.std.specs.Prelude.{◌≡◌, ◌≤◌, None, length, IfOk};
ghost use Rattle.md_base.specs.Streams.{sink_side, source_side};

use crate::tries::{counted, read_some, write_some};
use md_base::{Failed, Link, Sink, Source};
use std::io::{Read, Write};
use std::os::fd::AsRawFd;

/// How long a peer that doesn't send is waited for: 2 seconds.
const READ_TENTHS: u32 = 20;

/// How long a peer that doesn't take what it is sent is waited for: 10 seconds.
const WRITE_TENTHS: u32 = 100;

/// What comes behind the bytes that were heard of a connection while it waited.
#[derive(Clone, Copy, Debug, PartialEq, Eq)]
pub(crate) enum Behind {
    /// More may come.
    More,
    /// The end of the stream.
    End,
    /// A fault: the peer is gone, or its time is up.
    Fault,
}

/// What was heard of a connection while it waited, and how much of it was given.
#[derive(Drop)]
pub(crate) struct Heard {
    pub(crate) bytes: Vec<u8>,
    pub(crate) given: usize,
    pub(crate) behind: Behind,
}

/// A connection over TCP. It tells nothing of what it holds. A peer that is waited for too long is a fault.
#[derive(Drop)]
pub struct TcpLink<S> {
    stream: S,
    heard: Heard,
    has_written: bool,
    read_faults: u64,
    write_faults: u64,
}

impl<S: Read + Write + AsRawFd> TcpLink<S> {
    /// A connection over this stream, of which so much was heard, with counts of 0.
    pub(crate) fn new(stream: S, heard: Heard) -> TcpLink<S>
        ensures reads { result.read_faults ≡ 0 }
        ensures writes { result.write_faults ≡ 0 }
    {
        TcpLink {
            stream,
            heard,
            has_written: false,
            read_faults: 0,
            write_faults: 0,
        }
    }

    /// The stream, and whether the peer took all that it was sent, and was sent something.
    pub(crate) fn into_stream(self) -> (S, bool) {
        let is_answered = self.has_written && self.write_faults == 0;
        (self.stream, is_answered)
    }
}

impl<S: Read + Write + AsRawFd> Source for TcpLink<S> {
    ghost stream = { λ _. None };

    ghost read_faults = { λ l. l.read_faults };

    ghost sink_beside = { λ l. sink_side None l.write_faults };

    fn read(&mut self, buf: &mut [u8]) -> Result<usize, Failed> {
        let count = match give(&mut self.heard, buf) {
            0 => read_behind(&mut self.stream, self.heard.behind, buf),
            count => Ok(count),
        };
        counted(&mut self.read_faults, count)
    }
}

impl<S: Read + Write + AsRawFd> Sink for TcpLink<S> {
    ghost held = { λ _. None };

    ghost write_faults = { λ l. l.write_faults };

    ghost source_beside = { λ l. source_side None l.read_faults };

    fn write(&mut self, piece: &[u8]) -> Result<usize, Failed> {
        let written = write_some(&mut self.stream, piece, WRITE_TENTHS);
        self.has_written = self.has_written || written.is_ok();
        counted(&mut self.write_faults, written)
    }
}

impl<S: Read + Write + AsRawFd> Link for TcpLink<S> {
    ghost use Rattle.std.proofs.Common.{refl};

    ghost reads_leave_the_sink = { λ _. refl };

    ghost writes_leave_the_source = { λ _. refl };
}

/// Puts bytes that were heard at the front of a buffer, and answers how many.
fn give(heard: &mut Heard, buf: &mut [u8]) -> usize
    ensures within { result ≤ length buf.old }
    ensures size { length buf.new ≡ length buf.old }
{
    let left = heard.bytes.get(heard.given..).unwrap_or(&[]);
    let count = left.len().min(buf.len());
    buf[..count].copy_from_slice(&left[..count]);
    heard.given = heard.given.saturating_add(count);
    count
}

/// Reads what comes behind the bytes that were heard.
fn read_behind<S: Read + AsRawFd>(
    stream: &mut S,
    behind: Behind,
    buf: &mut [u8],
) -> Result<usize, Failed>
    ensures { IfOk result (λ n. n ≤ length buf.old) }
{
    match behind {
        Behind::More => read_some(stream, buf, READ_TENTHS),
        Behind::End => Ok(0),
        Behind::Fault => Err(Failed::Device),
    }
}
