// The net at 127.0.0.1.
ghost use Rattle.std.specs.Prelude.{◌≡◌, None, Some, IfOk, IfSome, OnOk, OnErr, IsSome, option_map};
ghost use Rattle.md_base.specs.Outside.{HasCause};

use crate::held::{Held, Listening};
use crate::link::TcpLink;
use crate::tries::{counted, failed};
use md_base::{Failed, Net, NoMemory};
use std::alloc::Global;
use std::net::{Ipv4Addr, OpenListener, SocketAddr};
use std::os::fd::AsRawFd;
use std::rt::Clock;

/// A listener, and the port at which it listens.
#[derive(Drop)]
struct Bound<L> {
    listener: L,
    port: u16,
}

/// The net at 127.0.0.1. It tells nothing of the connections, and never says that there will be none.
///
/// It takes in connections as they come, and gives the first one whose head is there, or whose time is up, so that no
/// peer waits for another one's head. A connection that is given back stays until its peer has the answer.
#[derive(Drop)]
pub struct TcpNet<R: std::net::Net + Clock> {
    alloc: Global,
    net: R,
    bound: Option<Bound<R::Listener>>,
    held: Held<R::Stream>,
    faults: u64,
}

impl<R: std::net::Net + Clock> TcpNet<R> {
    /// A net that listens at no port yet, with a count of 0.
    pub fn new(alloc: Global, net: R) -> TcpNet<R>
        ensures count { result.faults ≡ 0 }
        ensures unbound { result.bound ≡ None }
    {
        TcpNet {
            alloc,
            net,
            bound: None,
            held: Held::new(alloc),
            faults: 0,
        }
    }

    /// Closes the connections that are left, and waits until the peers that were answered have their answers, a second
    /// at most.
    pub fn finish(&mut self)
        ensures count { self.new.faults ≡ self.old.faults }
        ensures stays { self.new.bound ≡ self.old.bound }
    {
        finish(&self.net, self.alloc, &mut self.held);
    }
}

impl<R: std::net::Net + Clock> Net for TcpNet<R> {
    type Conn = TcpLink<R::Stream>;

    ghost connections = { λ _. None };

    ghost faults = { λ n. n.faults };

    ghost listens_at = { λ n. option_map (λ bound. bound.port) n.bound };

    fn bind(&mut self, port: u16) -> Result<(), Failed> {
        match counted(&mut self.faults, listen(&self.net, port)) {
            Ok(listener) => {
                self.bound = Some(Bound { listener, port });
                Ok(())
            }
            Err(fault) => Err(fault),
        }
    }

    fn next(&mut self) -> Result<Option<TcpLink<R::Stream>>, Failed>
        requires { IsSome (option_map (λ bound. bound.port) self.old.bound) }
        ensures no_faults { IfOk result (λ found. IfSome found (λ link. (link.read_faults ≡ 0) × (link.write_faults ≡ 0))) }
        ensures stays { option_map (λ bound. bound.port) self.new.bound ≡ option_map (λ bound. bound.port) self.old.bound }
        ensures cause { HasCause Failed.Device self.old.faults self.new.faults result }

        // It never says that there will be none.
        ensures found { IfOk result IsSome }
    {
        let found = next_ready(self.alloc, &self.net, &self.bound, &mut self.held);
        match counted(&mut self.faults, found) {
            Ok(link) => Ok(Some(link)),
            Err(fault) => Err(fault),
        }
    }

    fn done(&mut self, link: TcpLink<R::Stream>) -> Result<(), NoMemory> {
        let (stream, is_answered) = link.into_stream();
        match self.net.monotonic() {
            Ok(now) if is_answered => self.held.close(stream, now),
            // It is closed at once.
            _ => Ok(()),
        }
    }
}

/// Listens at a port of 127.0.0.1. An accept there doesn't wait.
fn listen<R: std::net::Net>(net: &R, port: u16) -> Result<R::Listener, Failed> {
    let address = SocketAddr::from((Ipv4Addr::LOCALHOST, port));
    let listener = net.bind(address).map_err(failed)?;
    listener.set_nonblocking(true).map_err(failed)?;
    Ok(listener)
}

/// The first connection that is ready to be served.
fn next_ready<R: std::net::Net + Clock>(
    alloc: Global,
    net: &R,
    bound: &Option<Bound<R::Listener>>,
    held: &mut Held<R::Stream>,
) -> Result<TcpLink<R::Stream>, Failed>
    ensures { IfOk result (λ link. (link.read_faults ≡ 0) × (link.write_faults ≡ 0)) }
{
    let Some(bound) = bound else {
        return Err(Failed::Device);
    };
    let mut refusals = 0;
    for _ in 0..u64::MAX {
        let now = net.monotonic().map_err(failed)?;
        let listening = held.take_in(alloc, &bound.listener, &mut refusals, now)?;
        held.hear(now)?;
        if let Some(link) = held.first_ready() {
            return Ok(link);
        }
        match listening {
            Listening::Open => held.wait(alloc, Some(bound.listener.as_raw_fd()), false, now)?,
            Listening::Full => held.wait(alloc, None, false, now)?,
            Listening::Paused => held.wait(alloc, None, true, now)?,
        }
    }
    Err(Failed::Device)
}

/// Closes what is held, once the peers that were answered have their answers, or their time is up.
fn finish<R: std::net::Net + Clock>(net: &R, alloc: Global, held: &mut Held<R::Stream>) {
    held.forget();
    for _ in 0..u64::MAX {
        let Ok(now) = net.monotonic() else {
            return;
        };
        if held.hear(now).is_err() || held.is_empty() {
            return;
        }
        if held.wait(alloc, None, false, now).is_err() {
            return;
        }
    }
}
