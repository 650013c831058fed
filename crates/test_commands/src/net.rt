// The net that the program is given: the connections of a case, in memory.
ghost use Rattle.std.specs.Prelude.{◌≤◌, All, IfOk};
ghost use Rattle.test_memory.specs.Memory.{IsFreshFailingLink};

use crate::connections::{Connections, Request};
use crate::outcome::failing;
use std::alloc::{AllocError, Global};
use test_memory::{MemLink, MemNet};

/// A net over which these connections come, and of which this call fails.
pub fn net_of(
    alloc: Global,
    connections: &Connections,
    most: usize,
    fails: u64,
) -> Result<MemNet, AllocError> {
    let coming = links_of(alloc, &connections.requests, most.max(1))?;
    let fails = failing(alloc, fails)?;
    Ok(MemNet::new(coming, fails))
}

/// A connection for each request, which gives and takes at most so many bytes a call.
fn links_of(alloc: Global, requests: &[Request], most: usize) -> Result<Vec<MemLink>, AllocError>
    requires { 1 ≤ most }
    ensures { IfOk result (λ coming. All IsFreshFailingLink coming.items) }
{
    let mut coming = Vec::new(alloc);
    for request in requests {
        let bytes = request.bytes.to_vec(alloc)?;
        let fails = failing(alloc, request.fails)?;
        coming.push(MemLink::new(bytes, most, fails))?;
    }
    Ok(coming)
}

/// Whether a net that listens at this port, if at any, listens where it has to; 0 is none.
pub fn is_there(port: Option<u16>, due: u64) -> bool {
    match port {
        Some(port) => port as u64 == due,
        None => due == 0,
    }
}

/// Whether these responses were written to the connections that were served, one to each.
pub fn are_written(served: &[MemLink], responses: &[Vec<u8>]) -> bool {
    served.len() == responses.len()
        && served
            .iter()
            .zip(responses)
            .all(|(link, response)| link.written() == response.as_slice())
}
