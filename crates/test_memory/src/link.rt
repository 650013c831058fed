// Connections in memory.
ghost use Rattle.std.specs.Prelude.{◌≡◌, ◌≤◌, ◌<◌, ◌||◌, ◌&&◌, ◌==◌, ◌↔◌, nat_lt, [], Some, length, take, drop, min, Contains, IfOk, OnErr, IsErrOf};
ghost use Rattle.md_base.specs.Outside.{HasCause, Takes, Gives, added, one_more};
ghost use Rattle.md_base.specs.Streams.{fresh, GivesNext, after_read, sink_side, source_side};

use crate::failures::is_due;
use md_base::{Failed, Link, Sink, Source};
use std::marker::Model;

/// A connection in memory that gives or takes a few bytes a call, and of which chosen calls fail: the bytes that it
/// sends, how many of them were read, whether a read met their end, and the bytes that were written to it.
#[derive(Drop)]
pub struct MemLink {
    input: Vec<u8>,
    place: usize,
    ended: bool,
    written: Vec<u8>,
    most: usize,
    fail: Vec<u64>,
    calls: u64,
    read_faults: u64,
    write_faults: u64,
}

impl Model for MemLink {
    ghost use Rattle.std.specs.Prelude.{◌≤◌, take, drop, length};
    ghost use Rattle.test_memory.specs.Memory.{FailingLink};

    ghost Value = { FailingLink };

    ghost view = { λ l. record {
      stream = record { taken = take l.place l.input.items; left = drop l.place l.input.items; ended = l.ended };
      written = l.written.items;
      most = l.most;
      fail = l.fail.items;
      calls = l.calls;
      read_faults = l.read_faults;
      write_faults = l.write_faults;
    } };

    ghost invariant = { λ l. (l.place ≤ length l.input.items) × (1 ≤ l.most) };
}

impl MemLink {
    /// A connection that sends these bytes, gives or takes at most `most` a call, and fails at the calls whose numbers,
    /// counted from 1, are in `fail`. Nothing is read from it yet, and nothing written to it.
    pub fn new(input: Vec<u8>, most: usize, fail: Vec<u64>) -> MemLink
        requires { 1 ≤ most }
        ensures { result ≡ record {
          stream = fresh input.items;
          written = [];
          most = most;
          fail = fail.items;
          calls = 0;
          read_faults = 0;
          write_faults = 0;
        } }
    {
        let written = Vec::new(*input.allocator());
        MemLink {
            input,
            place: 0,
            ended: false,
            written,
            most,
            fail,
            calls: 0,
            read_faults: 0,
            write_faults: 0,
        }
    }

    /// What was written to it.
    pub fn written(&self) -> &[u8]
        ensures { result.now ≡ self.now.written }
    {
        self.written.as_slice()
    }
}

impl Source for MemLink {
    ghost stream = { λ l. Some l.stream };

    ghost read_faults = { λ l. l.read_faults };

    ghost sink_beside = { λ l. sink_side (Some l.written) l.write_faults };

    fn read(&mut self, buf: &mut [u8]) -> Result<usize, Failed>
        ensures within { IfOk result (λ n. n ≤ length buf.old) }
        ensures bytes { IfOk result (λ n. GivesNext (Some self.old.stream) n buf.new) }
        ensures taken { IfOk result (λ n. Some self.new.stream ≡ after_read n (length buf.old) (Some self.old.stream)) }
        ensures kept { OnErr result (self.new.stream ≡ self.old.stream) }
        ensures cause { HasCause Failed.Device self.old.read_faults self.new.read_faults result }
        ensures beside { sink_side (Some self.new.written) self.new.write_faults ≡ sink_side (Some self.old.written) self.old.write_faults }

        // It fails at a call that is to fail, and there alone; never by want of memory.
        ensures due { IsErrOf result Failed.Device ↔ Contains self.old.fail (one_more self.old.calls) }
        ensures memory { IsErrOf result Failed.NoMemory → ⊥ }
        ensures count { IfOk result (λ n. n ≡ min (min (length buf.old) self.old.most) (length self.old.stream.left)) }
        ensures counted { self.new.calls ≡ one_more self.old.calls }
        ensures same { (self.new.most ≡ self.old.most) × (self.new.fail ≡ self.old.fail) }
    {
        if is_due(&self.fail, &mut self.calls) {
            self.read_faults = self.read_faults.saturating_add(1);
            return Err(Failed::Device);
        }
        let count = give_rest(&self.input, self.place, self.most, buf);
        self.place += count;
        self.ended = has_ended(self.ended, count, buf.len());
        Ok(count)
    }
}

impl Sink for MemLink {
    ghost held = { λ l. Some l.written };

    ghost write_faults = { λ l. l.write_faults };

    ghost source_beside = { λ l. source_side (Some l.stream) l.read_faults };

    fn write(&mut self, piece: &[u8]) -> Result<usize, Failed>
        ensures takes { IfOk result (λ n. Takes n piece.now) }
        ensures added { IfOk result (λ n. Some self.new.written ≡ added (take n piece.now) (Some self.old.written)) }
        ensures kept { OnErr result (self.new.written ≡ self.old.written) }
        ensures cause { HasCause Failed.Device self.old.write_faults self.new.write_faults result }
        ensures beside { source_side (Some self.new.stream) self.new.read_faults ≡ source_side (Some self.old.stream) self.old.read_faults }

        ensures due { IsErrOf result Failed.Device ↔ Contains self.old.fail (one_more self.old.calls) }
        ensures count { IfOk result (λ n. n ≡ min (length piece.now) self.old.most) }
        ensures counted { self.new.calls ≡ one_more self.old.calls }
        ensures same { (self.new.most ≡ self.old.most) × (self.new.fail ≡ self.old.fail) }
    {
        if is_due(&self.fail, &mut self.calls) {
            self.write_faults = self.write_faults.saturating_add(1);
            return Err(Failed::Device);
        }
        let count = piece.len().min(self.most);
        self.written.extend_from_slice(&piece[..count])?;
        Ok(count)
    }
}

impl Link for MemLink {
    ghost use Rattle.std.proofs.Common.{refl};

    ghost reads_leave_the_sink = { λ _. refl };

    ghost writes_leave_the_source = { λ _. refl };
}

/// A connection in memory that never fails: the bytes that it sends, how many of them were read, whether a read met
/// their end, and the bytes that were written to it.
#[derive(Drop)]
pub struct SureLink {
    input: Vec<u8>,
    place: usize,
    ended: bool,
    written: Vec<u8>,
    most: usize,
}

impl Model for SureLink {
    ghost use Rattle.std.specs.Prelude.{◌≤◌, take, drop, length};
    ghost use Rattle.test_memory.specs.Memory.{WholeLink};

    ghost Value = { WholeLink };

    ghost view = { λ l. record {
      stream = record { taken = take l.place l.input.items; left = drop l.place l.input.items; ended = l.ended };
      written = l.written.items;
      most = l.most;
    } };

    ghost invariant = { λ l. (l.place ≤ length l.input.items) × (1 ≤ l.most) };
}

impl SureLink {
    /// A connection that sends these bytes, and gives or takes at most `most` a call. Nothing is read from it yet,
    /// and nothing written to it.
    pub fn new(input: Vec<u8>, most: usize) -> SureLink
        requires { 1 ≤ most }
        ensures { result ≡ record { stream = fresh input.items; written = []; most = most } }
    {
        let written = Vec::new(*input.allocator());
        SureLink {
            input,
            place: 0,
            ended: false,
            written,
            most,
        }
    }

    /// What was written to it.
    pub fn written(&self) -> &[u8]
        ensures { result.now ≡ self.now.written }
    {
        self.written.as_slice()
    }
}

impl Source for SureLink {
    ghost stream = { λ l. Some l.stream };

    ghost read_faults = { λ _. 0 };

    ghost sink_beside = { λ l. sink_side (Some l.written) 0 };

    fn read(&mut self, buf: &mut [u8]) -> Result<usize, Failed>
        ensures within { IfOk result (λ n. n ≤ length buf.old) }
        ensures bytes { IfOk result (λ n. GivesNext (Some self.old.stream) n buf.new) }
        ensures taken { IfOk result (λ n. Some self.new.stream ≡ after_read n (length buf.old) (Some self.old.stream)) }
        ensures kept { OnErr result (Some self.new.stream ≡ Some self.old.stream) }
        ensures cause { HasCause Failed.Device 0 0 result }
        ensures beside { sink_side (Some self.new.written) 0 ≡ sink_side (Some self.old.written) 0 }

        // It never fails.
        ensures count { result ≡ Ok (min (min (length buf.old) self.old.most) (length self.old.stream.left)) }
        ensures same { self.new.most ≡ self.old.most }
    {
        let count = give_rest(&self.input, self.place, self.most, buf);
        self.place += count;
        self.ended = has_ended(self.ended, count, buf.len());
        Ok(count)
    }
}

/// Whether a stream has ended after a read of so many bytes into a buffer of this size.
fn has_ended(ended: bool, count: usize, size: usize) -> bool
    ensures { result ≡ (ended || ((count == 0) && nat_lt 0 size)) }
{
    ended || (count == 0 && size > 0)
}

/// Gives what is left from a place on, at most `most` bytes.
fn give_rest(bytes: &[u8], place: usize, most: usize, buf: &mut [u8]) -> usize
    requires within { place ≤ length bytes.now }
    requires some { 1 ≤ most }
    ensures gives { Gives (drop place bytes.now) result buf.new }
    ensures count { result ≡ min (min (length buf.old) most) (length (drop place bytes.now)) }
{
    let left = &bytes[place..];
    let count = buf.len().min(most).min(left.len());
    buf[..count].copy_from_slice(&left[..count]);
    count
}

impl Sink for SureLink {
    ghost held = { λ l. Some l.written };

    ghost write_faults = { λ _. 0 };

    ghost source_beside = { λ l. source_side (Some l.stream) 0 };

    fn write(&mut self, piece: &[u8]) -> Result<usize, Failed>
        ensures takes { IfOk result (λ n. Takes n piece.now) }
        ensures added { IfOk result (λ n. Some self.new.written ≡ added (take n piece.now) (Some self.old.written)) }
        ensures kept { OnErr result (Some self.new.written ≡ Some self.old.written) }
        ensures cause { HasCause Failed.Device 0 0 result }
        ensures beside { source_side (Some self.new.stream) 0 ≡ source_side (Some self.old.stream) 0 }

        ensures count { IfOk result (λ n. n ≡ min (length piece.now) self.old.most) }
        ensures same { self.new.most ≡ self.old.most }
    {
        let count = piece.len().min(self.most);
        self.written.extend_from_slice(&piece[..count])?;
        Ok(count)
    }
}

impl Link for SureLink {
    ghost use Rattle.std.proofs.Common.{refl};

    ghost reads_leave_the_sink = { λ _. refl };

    ghost writes_leave_the_source = { λ _. refl };
}
