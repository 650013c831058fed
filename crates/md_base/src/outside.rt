// The outside as traits: what a call gives, takes and leaves, and when it may fail.
ghost use Rattle.std.specs.Prelude.{◌≡◌, ◌≤◌, ℕ, List, [], Option, Some, length, take, IfOk, OnOk, OnErr, IfSome, IfNone, IsSome};
ghost use Rattle.md_base.specs.Outside.{HasCause, Takes, added};
ghost use Rattle.md_base.specs.Files.{Files, GivesFrom, holding, extended};
ghost use Rattle.md_base.specs.Streams.{Stream, SinkSide, SourceSide, GivesNext, after_read, sink_side, source_side};
ghost use Rattle.md_base.specs.Nets.{Connections, TakesFirst, NoneComing, connection_of, with_served};

use crate::{Failed, NoMemory};

/// Files by name.
///
/// A store has two counts of faults, one of `read_at` and one of `create` and `append`. A call that is refused
/// leaves what the store holds as it was.
pub trait Store {
    /// What the store holds, where it tells its content.
    ghost held: { Self → Option Files };

    /// The count of faults of `read_at`.
    ghost read_faults: { Self → ℕ };

    /// The count of faults of `create` and `append`.
    ghost write_faults: { Self → ℕ };

    /// Puts bytes of the named file from place `at` on at the front of `buf`, and answers how many: as many as it
    /// likes, and at least one while there are any and `buf` isn't empty. A 0 for a `buf` that isn't empty is the
    /// end. A name that isn't there is a fault.
    fn read_at(&mut self, name: &str, at: u64, buf: &mut [u8]) -> Result<usize, Failed>
        ensures within { IfOk result (λ n. n ≤ length buf.old) }
        ensures bytes { IfOk result (λ n. GivesFrom (held self.old) name.now at n buf.new) }
        ensures kept { held self.new ≡ held self.old }
        ensures cause { HasCause Failed.Device (read_faults self.old) (read_faults self.new) result }
        ensures writes { write_faults self.new ≡ write_faults self.old };

    /// Makes the named file empty.
    fn create(&mut self, name: &str) -> Result<(), Failed>
        ensures emptied { OnOk result (held self.new ≡ holding name.now [] (held self.old)) }
        ensures kept { OnErr result (held self.new ≡ held self.old) }
        ensures cause { HasCause Failed.Device (write_faults self.old) (write_faults self.new) result }
        ensures reads { read_faults self.new ≡ read_faults self.old };

    /// Adds a front of the piece at the end of the named file, and answers its length: at least 1 of a piece that
    /// isn't empty. A name that isn't there is an empty file, which it makes first.
    fn append(&mut self, name: &str, piece: &[u8]) -> Result<usize, Failed>
        ensures takes { IfOk result (λ n. Takes n piece.now) }
        ensures added { IfOk result (λ n. held self.new ≡ extended name.now (take n piece.now) (held self.old)) }
        ensures kept { OnErr result (held self.new ≡ held self.old) }
        ensures cause { HasCause Failed.Device (write_faults self.old) (write_faults self.new) result }
        ensures reads { read_faults self.new ≡ read_faults self.old };
}

/// A stream of bytes that is read.
pub trait Source {
    /// What was read and what is to come, where it is told.
    ghost stream: { Self → Option Stream };

    /// The count of faults of `read`.
    ghost read_faults: { Self → ℕ };

    /// The sink of the same link, which a read leaves as it is.
    ghost sink_beside: { Self → SinkSide };

    /// Puts the next bytes at the front of `buf`, and answers how many. A 0 for a `buf` that isn't empty is the end.
    fn read(&mut self, buf: &mut [u8]) -> Result<usize, Failed>
        ensures within { IfOk result (λ n. n ≤ length buf.old) }
        ensures bytes { IfOk result (λ n. GivesNext (stream self.old) n buf.new) }
        ensures taken { IfOk result (λ n. stream self.new ≡ after_read n (length buf.old) (stream self.old)) }
        ensures kept { OnErr result (stream self.new ≡ stream self.old) }
        ensures cause { HasCause Failed.Device (read_faults self.old) (read_faults self.new) result }
        ensures beside { sink_beside self.new ≡ sink_beside self.old };
}

/// A stream of bytes that is written.
pub trait Sink {
    /// What was written, where it is told.
    ghost held: { Self → Option (List ℕ) };

    /// The count of faults of `write`.
    ghost write_faults: { Self → ℕ };

    /// The source of the same link, which a write leaves as it is.
    ghost source_beside: { Self → SourceSide };

    /// Adds a front of the piece, and answers its length: at least 1 of a piece that isn't empty.
    fn write(&mut self, piece: &[u8]) -> Result<usize, Failed>
        ensures takes { IfOk result (λ n. Takes n piece.now) }
        ensures added { IfOk result (λ n. held self.new ≡ added (take n piece.now) (held self.old)) }
        ensures kept { OnErr result (held self.new ≡ held self.old) }
        ensures cause { HasCause Failed.Device (write_faults self.old) (write_faults self.new) result }
        ensures beside { source_beside self.new ≡ source_beside self.old };
}

/// A connection: a stream to read and a stream to write, of which a call on one leaves the other.
pub trait Link: Source + Sink {
    /// What a read leaves is what was written, and the count of faults of `write`.
    ghost reads_leave_the_sink: { (link : Self) → Self.sink_beside link ≡ sink_side (Self.held link) (Self.write_faults link) };

    /// What a write leaves is the stream, and the count of faults of `read`.
    ghost writes_leave_the_source: { (link : Self) → Self.source_beside link ≡ source_side (Self.stream link) (Self.read_faults link) };
}

/// Connections that come to a port.
pub trait Net {
    /// A connection.
    type Conn: Link;

    /// The connections to come and those that were served, where they are told.
    ghost connections: { Self → Option Connections };

    /// The count of faults of `bind` and `next`.
    ghost faults: { Self → ℕ };

    /// The port at which it listens, where it listens.
    ghost listens_at: { Self → Option ℕ };

    /// Listens at a port of 127.0.0.1. A net that can't listen there is left as it was.
    fn bind(&mut self, port: u16) -> Result<(), Failed>
        ensures bound { OnOk result (listens_at self.new ≡ Some port) }
        ensures stays { OnErr result (listens_at self.new ≡ listens_at self.old) }
        ensures kept { connections self.new ≡ connections self.old }
        ensures cause { HasCause Failed.Device (faults self.old) (faults self.new) result };

    /// The next connection, or `None` where there will be none.
    fn next(&mut self) -> Result<Option<Self::Conn>, Failed>
        requires { IsSome (listens_at self.old) }
        ensures first { IfOk result (λ found. IfSome found (λ link.
            TakesFirst (connections self.old) (connections self.new) (Self.Conn.stream link) (Self.Conn.held link))) }
        ensures no_faults { IfOk result (λ found. IfSome found (λ link.
            (Self.Conn.read_faults link ≡ 0) × (Self.Conn.write_faults link ≡ 0))) }
        ensures none { IfOk result (λ found. IfNone found (NoneComing (connections self.old))) }
        ensures none_taken { IfOk result (λ found. IfNone found (connections self.new ≡ connections self.old)) }
        ensures kept { OnErr result (connections self.new ≡ connections self.old) }
        ensures stays { listens_at self.new ≡ listens_at self.old }
        ensures cause { HasCause Failed.Device (faults self.old) (faults self.new) result };

    /// Takes a served connection back and closes it. Where memory is refused it is closed all the same, and isn't
    /// among those that were served.
    fn done(&mut self, link: Self::Conn) -> Result<(), NoMemory>
        ensures served { OnOk result (connections self.new ≡ with_served (connection_of (Self.Conn.stream link)
            (Self.Conn.held link) (Self.Conn.read_faults link) (Self.Conn.write_faults link)) (connections self.old)) }
        ensures kept { OnErr result (connections self.new ≡ connections self.old) }
        ensures stays { listens_at self.new ≡ listens_at self.old }
        ensures count { faults self.new ≡ faults self.old };
}
