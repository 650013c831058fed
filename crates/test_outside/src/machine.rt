// The error stream of the machine, and a connection.
ghost use Rattle.std.specs.Prelude.{IsSome};

use crate::input::show_bytes;
use crate::nets::serve_next;
use crate::peers::{at, free_port};
use crate::sinks::write_all;
use md_base::Net;
use md_system::{StdSink, TcpNet};
use std::alloc::Global;
use std::io;
use std::net::TcpStream;
use test_cases::Case;

/// What comes of writing to standard error.
pub fn show_error_stream(rt: &HostRuntime, case: &Case, found: &mut String) -> io::Result<()> {
    let mut sink = StdSink::new(Some(rt.stderr()));
    write_all(case, &mut sink, found)?;
    Ok(())
}

/// A connection over TCP that sends the bytes of the line `sends`: what comes of it, and what it gets.
pub fn show_tcp(
    rt: &HostRuntime,
    alloc: Global,
    case: &Case,
    found: &mut String,
) -> io::Result<()> {
    let port = free_port(rt)?;
    let mut net = TcpNet::new(alloc, rt);
    match net.bind(port) {
        Ok(()) => connect(rt, alloc, case, port, &mut net, found),
        Err(failed) => Ok(writeln!(found, "not listening: {failed}")?),
    }
}

/// Connects to a net that listens at this port.
fn connect<N: Net>(
    rt: &HostRuntime,
    alloc: Global,
    case: &Case,
    port: u16,
    net: &mut N,
    found: &mut String,
) -> io::Result<()>
    requires { IsSome (N.listens_at net.old) }
{
    let mut client = TcpStream::connect(rt, at(port))?;
    io::Write::write_all(&mut client, case.bytes("sends"))?;
    serve_next(alloc, case, net, found)?;
    let mut room = [0u8; 64];
    let count = io::Read::read(&mut client, &mut room)?;
    write!(found, "answered ")?;
    show_bytes(alloc, room.get(..count).unwrap_or(&[]), found)?;
    Ok(())
}
