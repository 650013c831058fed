// Connections over TCP, from both ends.
ghost use Rattle.std.specs.Prelude.{◌≡◌, IsSome};

use crate::input::{halves, number, show_bytes};
use md_base::{Link, Net, write_whole};
use md_system::TcpNet;
use std::alloc::{AllocError, Global};
use std::io;
use std::io::{Read, Write};
use std::net::{Ipv4Addr, OpenListener, Shutdown, SocketAddr, TcpStream};
use test_cases::{Case, Field};

/// The most bytes that are read of a peer at once.
const ROOM: usize = 8_192;

/// A port at which nobody listens.
pub fn free_port(rt: &HostRuntime) -> io::Result<u16> {
    let listener = std::net::Net::bind(rt, at(0))?;
    Ok(listener.local_addr()?.port())
}

/// This port here.
pub fn at(port: u16) -> SocketAddr {
    SocketAddr::from((Ipv4Addr::LOCALHOST, port))
}

/// Does what the lines say, in order. `peer COUNT BYTES` connects a peer that sends these bytes so many times, and `ends`
/// lets the last one end its sending. `serve BYTES` takes the next connection, reads once, and answers these bytes. So does
/// `reset BYTES`, and reads once more when the last peer has left without having read that, by which the connection is reset.
/// `elsewhere` tries another address of this machine. In the end what is left is closed, and `answered PLACE` tells all that a peer got.
pub fn show(rt: &HostRuntime, alloc: Global, case: &Case, found: &mut String) -> io::Result<()> {
    let port = free_port(rt)?;
    let mut peers = Vec::new(alloc);
    let mut net = TcpNet::new(alloc, rt);
    match net.bind(port) {
        Ok(()) => meet(rt, alloc, case, port, &mut peers, &mut net, found)?,
        Err(failed) => writeln!(found, "not listening: {failed}")?,
    }
    net.finish();
    for field in case.fields() {
        if field.key.as_str() == "answered" {
            answered(alloc, field, &mut peers, found)?;
        }
    }
    Ok(())
}

/// Connects peers to a net that listens at this port, and takes connections.
fn meet<N: Net>(
    rt: &HostRuntime,
    alloc: Global,
    case: &Case,
    port: u16,
    peers: &mut Vec<TcpStream>,
    net: &mut N,
    found: &mut String,
) -> io::Result<()>
    requires { IsSome (N.listens_at net.old) }
{
    for field in case.fields() {
        match field.key.as_str() {
            "peer" => peers.push(peer(rt, field, port)?)?,
            "ends" => end_last(peers)?,
            "serve" | "reset" => serve(alloc, field, peers, net, found)?,
            "elsewhere" => elsewhere(rt, port, found)?,
            _ => {}
        }
    }
    Ok(())
}

/// A peer that sends some bytes, so many times.
fn peer(rt: &HostRuntime, field: &Field, port: u16) -> io::Result<TcpStream> {
    let mut stream = TcpStream::connect(rt, at(port))?;
    let (count, _) = halves(field.text.as_str());
    let start = count.len().saturating_add(1);
    let bytes = field.bytes.get(start..).unwrap_or(&[]);
    for _ in 0..number(count) {
        stream.write_all(bytes)?;
    }
    Ok(stream)
}

/// Whether this port is reached at another address of this machine.
fn elsewhere(rt: &HostRuntime, port: u16, found: &mut String) -> Result<(), AllocError> {
    let other = SocketAddr::from((Ipv4Addr::new(127, 0, 0, 2), port));
    match TcpStream::connect(rt, other) {
        Ok(_) => writeln!(found, "reached at another address"),
        Err(_) => writeln!(found, "not reached at another address"),
    }
}

/// Ends the sending of the last peer.
fn end_last(peers: &[TcpStream]) -> io::Result<()> {
    match peers.last() {
        Some(stream) => stream.shutdown(Shutdown::Write),
        None => Ok(()),
    }
}

/// Takes the next connection, and answers on it, as the line says.
fn serve<N: Net>(
    alloc: Global,
    field: &Field,
    peers: &mut Vec<TcpStream>,
    net: &mut N,
    found: &mut String,
) -> Result<(), AllocError>
    requires { IsSome (N.listens_at net.old) }
    ensures { N.listens_at net.new ≡ N.listens_at net.old }
{
    match net.next() {
        Ok(Some(link)) => {
            let mut link = link;
            let told = match field.key.as_str() {
                "reset" => answer_reset(alloc, field.bytes.as_slice(), peers, &mut link, found),
                _ => answer(alloc, field.bytes.as_slice(), &mut link, found),
            };
            let _done = net.done(link);
            told
        }
        Ok(None) => writeln!(found, "no connection"),
        Err(failed) => writeln!(found, "no connection: {failed}"),
    }
}

/// Reads of a connection once, and answers these bytes where that succeeds.
fn answer<L: Link>(
    alloc: Global,
    bytes: &[u8],
    link: &mut L,
    found: &mut String,
) -> Result<(), AllocError> {
    let mut room = [0u8; ROOM];
    match link.read(&mut room) {
        Ok(count) => show_bytes(alloc, room.get(..count).unwrap_or(&[]), found)?,
        Err(failed) => return writeln!(found, "{failed}"),
    }
    match write_whole(link, bytes) {
        Ok(()) => Ok(()),
        Err(fault) => writeln!(found, "{fault}"),
    }
}

/// Reads once and answers these bytes, and reads once more when the last peer has left without having read them.
fn answer_reset<L: Link>(
    alloc: Global,
    bytes: &[u8],
    peers: &mut Vec<TcpStream>,
    link: &mut L,
    found: &mut String,
) -> Result<(), AllocError> {
    answer(alloc, bytes, link, found)?;
    drop(peers.pop());
    let mut room = [0u8; ROOM];
    match link.read(&mut room) {
        Ok(count) => show_bytes(alloc, room.get(..count).unwrap_or(&[]), found),
        Err(failed) => writeln!(found, "{failed}"),
    }
}

/// All that a peer got.
fn answered(
    alloc: Global,
    field: &Field,
    peers: &mut [TcpStream],
    found: &mut String,
) -> io::Result<()> {
    let place = number(field.text.as_str()) as usize;
    let Some(stream) = peers.get_mut(place) else {
        return Ok(());
    };
    let mut bytes = Vec::new(alloc);
    match stream.read_to_end(&mut bytes) {
        Ok(_) => write!(found, "answered ")?,
        Err(_) => write!(found, "cut short ")?,
    }
    Ok(show_bytes(alloc, bytes.as_slice(), found)?)
}
