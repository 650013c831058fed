// Nets to which one connection comes: what comes of it, and what was written to it.
ghost use Rattle.std.specs.Prelude.{◌≡◌, IsSome};

use crate::input::{failing, most, number, show_bytes};
use crate::sinks::write;
use md_base::{Link, Net};
use std::alloc::{AllocError, Global};
use test_cases::{Case, Field};
use test_memory::{MemLink, MemNet, SureLink, SureNet};

/// The port at which a net listens.
const PORT: u16 = 80;

/// A connection that sends the bytes of the line `sends`, and of which the calls `fails NUMBER` fail. It comes to a net of
/// which the calls `net-fails NUMBER` fail.
pub fn show_failing(alloc: Global, case: &Case, found: &mut String) -> Result<(), AllocError> {
    let mut net = failing_net(alloc, case)?;
    serve(alloc, case, &mut net, found)?;
    for link in net.served() {
        show_served(alloc, link.written(), found)?;
    }
    Ok(())
}

fn failing_net(alloc: Global, case: &Case) -> Result<MemNet, AllocError> {
    let sends = case.bytes("sends").to_vec(alloc)?;
    let link = MemLink::new(sends, most(case), failing(alloc, case, "fails")?);
    let mut coming = Vec::new(alloc);
    coming.push(link)?;
    Ok(MemNet::new(coming, failing(alloc, case, "net-fails")?))
}

/// A connection that never fails, and a net that never does.
pub fn show_sure(alloc: Global, case: &Case, found: &mut String) -> Result<(), AllocError> {
    let mut net = sure_net(alloc, case)?;
    serve(alloc, case, &mut net, found)?;
    for link in net.served() {
        show_served(alloc, link.written(), found)?;
    }
    Ok(())
}

fn sure_net(alloc: Global, case: &Case) -> Result<SureNet, AllocError> {
    let sends = case.bytes("sends").to_vec(alloc)?;
    let mut coming = Vec::new(alloc);
    coming.push(SureLink::new(sends, most(case)))?;
    Ok(SureNet::new(coming))
}

/// A net of which the calls `net-fails NUMBER` fail, and which is to listen at the ports of the lines `port NUMBER`, one
/// after the other: at which it listens then.
pub fn show_ports(alloc: Global, case: &Case, found: &mut String) -> Result<(), AllocError> {
    let mut net = MemNet::new(Vec::new(alloc), failing(alloc, case, "net-fails")?);
    for field in case.fields() {
        if field.key.as_str() == "port" {
            let port = u16::try_from(number(field.text.as_str())).unwrap_or(0);
            listen(&mut net, port, found)?;
        }
    }
    Ok(())
}

fn listen(net: &mut MemNet, port: u16, found: &mut String) -> Result<(), AllocError> {
    if let Err(failed) = net.bind(port) {
        writeln!(found, "not listening: {failed}")?;
    }
    match net.port() {
        Some(port) => writeln!(found, "listens at {port}"),
        None => writeln!(found, "listens nowhere"),
    }
}

fn show_served(alloc: Global, written: &[u8], found: &mut String) -> Result<(), AllocError> {
    write!(found, "served, with ")?;
    show_bytes(alloc, written, found)
}

/// Listens, and takes the next connection twice.
fn serve<N: Net>(
    alloc: Global,
    case: &Case,
    net: &mut N,
    found: &mut String,
) -> Result<(), AllocError> {
    match net.bind(PORT) {
        Ok(()) => {
            serve_next(alloc, case, net, found)?;
            serve_next(alloc, case, net, found)
        }
        Err(failed) => writeln!(found, "not listening: {failed}"),
    }
}

/// Takes the next connection, does with it what the case says, and gives it back.
pub fn serve_next<N: Net>(
    alloc: Global,
    case: &Case,
    net: &mut N,
    found: &mut String,
) -> Result<(), AllocError>
    requires { IsSome (N.listens_at net.old) }
    ensures { N.listens_at net.new ≡ N.listens_at net.old }
{
    match net.next() {
        Ok(Some(link)) => serve_one(alloc, case, net, link, found),
        Ok(None) => writeln!(found, "no connection"),
        Err(failed) => writeln!(found, "no connection: {failed}"),
    }
}

fn serve_one<N: Net>(
    alloc: Global,
    case: &Case,
    net: &mut N,
    link: N::Conn,
    found: &mut String,
) -> Result<(), AllocError>
    requires { IsSome (N.listens_at net.old) }
    ensures { N.listens_at net.new ≡ N.listens_at net.old }
{
    let mut link = link;
    let used = use_link(alloc, case, &mut link, found);
    match net.done(link) {
        Ok(()) => used,
        Err(_) => Err(AllocError),
    }
}

/// Does what the lines say, in order: `read COUNT` and `piece BYTES` by one call, `write BYTES` whole.
fn use_link<L: Link>(
    alloc: Global,
    case: &Case,
    link: &mut L,
    found: &mut String,
) -> Result<(), AllocError> {
    for field in case.fields() {
        act(alloc, field, link, found)?;
    }
    Ok(())
}

fn act<L: Link>(
    alloc: Global,
    field: &Field,
    link: &mut L,
    found: &mut String,
) -> Result<(), AllocError> {
    match field.key.as_str() {
        "read" => read(alloc, link, number(field.text.as_str()), found),
        "piece" => write_piece(link, field.bytes.as_slice(), found),
        "write" => write(link, field.bytes.as_slice(), found),
        _ => Ok(()),
    }
}

/// Reads by one call, into room for so many bytes.
fn read<L: Link>(
    alloc: Global,
    link: &mut L,
    count: u64,
    found: &mut String,
) -> Result<(), AllocError> {
    let mut room = vec![in alloc; 0u8; count as usize]?;
    match link.read(&mut room) {
        Ok(count) => show_bytes(alloc, room.get(..count).unwrap_or(&[]), found),
        Err(failed) => writeln!(found, "{failed}"),
    }
}

fn write_piece<L: Link>(link: &mut L, piece: &[u8], found: &mut String) -> Result<(), AllocError> {
    match link.write(piece) {
        Ok(count) => writeln!(found, "added {count}"),
        Err(failed) => writeln!(found, "{failed}"),
    }
}
