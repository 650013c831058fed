// Sinks in memory.
ghost use Rattle.std.specs.Prelude.{◌≡◌, ◌≤◌, ◌↔◌, ◌++◌, ℕ, List, Some, length, take, min, Contains, IfOk, OnOk, OnErr, IsErrOf};
ghost use Rattle.md_base.specs.Outside.{HasCause, Takes, added, one_more};
ghost use Rattle.md_base.specs.Streams.{no_source};

use crate::failures::is_due;
use md_base::{Failed, Sink};
use std::marker::Model;

/// A sink in memory that takes a few bytes a call, and of which chosen calls fail.
#[derive(Drop)]
pub struct MemSink {
    bytes: Vec<u8>,
    most: usize,
    fail: Vec<u64>,
    calls: u64,
    faults: u64,
}

impl Model for MemSink {
    ghost use Rattle.std.specs.Prelude.{◌≤◌};
    ghost use Rattle.test_memory.specs.Memory.{FailingSink};

    ghost Value = { FailingSink };

    ghost view = { λ s. record { bytes = s.bytes.items; most = s.most; fail = s.fail.items; calls = s.calls; faults = s.faults } };

    ghost invariant = { λ s. 1 ≤ s.most };
}

impl MemSink {
    /// A sink that holds these bytes, takes at most `most` a call, and fails at the calls whose numbers, counted
    /// from 1, are in `fail`.
    pub fn new(bytes: Vec<u8>, most: usize, fail: Vec<u64>) -> MemSink
        requires { 1 ≤ most }
        ensures { result ≡ record { bytes = bytes.items; most = most; fail = fail.items; calls = 0; faults = 0 } }
    {
        MemSink {
            bytes,
            most,
            fail,
            calls: 0,
            faults: 0,
        }
    }

    /// What it holds.
    pub fn bytes(&self) -> &[u8]
        ensures { result.now ≡ self.now.bytes }
    {
        self.bytes.as_slice()
    }
}

impl Sink for MemSink {
    ghost held = { λ s. Some s.bytes };

    ghost write_faults = { λ s. s.faults };

    ghost source_beside = { λ _. no_source };

    fn write(&mut self, piece: &[u8]) -> Result<usize, Failed>
        ensures takes { IfOk result (λ n. Takes n piece.now) }
        ensures added { IfOk result (λ n. Some self.new.bytes ≡ added (take n piece.now) (Some self.old.bytes)) }
        ensures kept { OnErr result (Some self.new.bytes ≡ Some self.old.bytes) }
        ensures cause { HasCause Failed.Device self.old.faults self.new.faults result }

        ensures due { IsErrOf result Failed.Device ↔ Contains self.old.fail (one_more self.old.calls) }
        ensures count { IfOk result (λ n. n ≡ min (length piece.now) self.old.most) }
        ensures calls { self.new.calls ≡ one_more self.old.calls }
        ensures same { (self.new.most ≡ self.old.most) × (self.new.fail ≡ self.old.fail) }
    {
        if is_due(&self.fail, &mut self.calls) {
            self.faults = self.faults.saturating_add(1);
            return Err(Failed::Device);
        }
        let count = piece.len().min(self.most);
        self.bytes.extend_from_slice(&piece[..count])?;
        Ok(count)
    }
}

/// A sink in memory that never fails.
#[derive(Drop)]
pub struct SureSink {
    bytes: Vec<u8>,
    most: usize,
}

impl Model for SureSink {
    ghost use Rattle.std.specs.Prelude.{◌≤◌};
    ghost use Rattle.test_memory.specs.Memory.{WholeSink};

    ghost Value = { WholeSink };

    ghost view = { λ s. record { bytes = s.bytes.items; most = s.most } };

    ghost invariant = { λ s. 1 ≤ s.most };
}

impl SureSink {
    /// A sink that holds these bytes and takes at most `most` a call.
    pub fn new(bytes: Vec<u8>, most: usize) -> SureSink
        requires { 1 ≤ most }
        ensures { result ≡ record { bytes = bytes.items; most = most } }
    {
        SureSink { bytes, most }
    }

    /// What it holds.
    pub fn bytes(&self) -> &[u8]
        ensures { result.now ≡ self.now.bytes }
    {
        self.bytes.as_slice()
    }
}

impl Sink for SureSink {
    ghost held = { λ s. Some s.bytes };

    ghost write_faults = { λ _. 0 };

    ghost source_beside = { λ _. no_source };

    fn write(&mut self, piece: &[u8]) -> Result<usize, Failed>
        ensures takes { IfOk result (λ n. Takes n piece.now) }
        ensures added { IfOk result (λ n. Some self.new.bytes ≡ added (take n piece.now) (Some self.old.bytes)) }
        ensures kept { OnErr result (Some self.new.bytes ≡ Some self.old.bytes) }
        ensures cause { HasCause Failed.Device 0 0 result }

        ensures count { IfOk result (λ n. n ≡ min (length piece.now) self.old.most) }
        ensures same { self.new.most ≡ self.old.most }
    {
        let count = piece.len().min(self.most);
        self.bytes.extend_from_slice(&piece[..count])?;
        Ok(count)
    }
}
