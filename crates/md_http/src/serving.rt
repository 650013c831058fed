// How connections are served one after the other.
ghost use Rattle.std.specs.Prelude.{◌≡◌, ◌<◌, ◌≤◌, ◌+◌, ℕ, List, [], Some, IsErrOf, IsSome, IfOk, OnOk, OnErr, IfSome};
ghost use Rattle.md_base.specs.Nets.{Connections, connection_of, with_served};
ghost use Rattle.md_base.specs.Outside.{HasCause};
ghost use Rattle.md_base.specs.Streams.{fresh};
ghost use Rattle.md_cost.specs.FileView.{IsFileView};
ghost use Rattle.md_cost.specs.View.{View};
ghost use Rattle.md_http.specs.Serving.{Serves, IsStep, IsEnd, IsTally};

use crate::link::{Served, serve_link};
use md_base::{Failed, Net, NoMemory};
use md_cost::Loaded;
use std::alloc::Global;
use std::error::Error;
use std::fmt;

/// How many connections were served, and how many of them were answered.
#[derive(Clone, Copy, PartialEq, Eq)]
pub struct Tally {
    pub connections: u32,
    pub answered: u32,
}

/// Why serving stopped.
#[derive(Clone, Copy, Debug, PartialEq, Eq)]
pub enum ServeFault {
    /// The net gave no connection.
    Net,
    NoMemory,
}

impl fmt::Display for ServeFault {
    fn fmt<W: fmt::Write>(&self, f: &mut fmt::Formatter<W>) -> fmt::Result {
        match self {
            ServeFault::Net => write!(f, "the net failed"),
            ServeFault::NoMemory => write!(f, "want of memory"),
        }
    }
}

impl Error for ServeFault {}

impl From<NoMemory> for ServeFault {
    ghost use Rattle.std.specs.Prelude.{◌≡◌};
    ghost use Rattle.md_http.specs.declared.serving.ServeFault.TheVariants as fault;

    ghost from_gives = { λ _ e. e ≡ fault.NoMemory };

    fn from(_: NoMemory) -> ServeFault {
        ServeFault::NoMemory
    }
}

/// Serves as many connections as are asked for, or all that come where these are fewer, one after the other, and gives
/// each back. A connection that can't be read or written stops nothing. `Net` comes exactly where the net's count of
/// faults rose, and the port at which it listens stays.
pub fn serve_connections<N: Net>(
    alloc: Global,
    loaded: &Loaded,
    net: &mut N,
    requests: u32,
) -> Result<Tally, ServeFault>
    requires { IsSome (N.listens_at net.old) }
    ensures served { (v : View) (before : Connections) → IsFileView loaded.now.profile v → N.connections net.old ≡ Some before → Serves v requests before (N.connections net.new) result }
    ensures counts { IfOk result (λ tally. IsTally requests tally) }
    ensures cause { HasCause ServeFault.Net (N.faults net.old) (N.faults net.new) result }
    ensures stays { N.listens_at net.new ≡ N.listens_at net.old }
{
    let mut tally = Tally {
        connections: 0,
        answered: 0,
    };
    while tally.connections < requests {
        match serve_next(alloc, loaded, net) {
            Ok(Some(served)) => tally = counted(tally, served),
            Ok(None) => return Ok(tally),
            Err(fault) => return Err(fault),
        }
    }
    Ok(tally)
}

/// The tally with one more connection.
fn counted(tally: Tally, served: Served) -> Tally
    requires fits { tally.connections < 4294967295 }
    requires within { tally.answered ≤ tally.connections }
    ensures connections { result.connections ≡ tally.connections + 1 }
    ensures answered { served ≡ Served.Answered → result.answered ≡ tally.answered + 1 }
    ensures others { (served ≡ Served.Answered → ⊥) → result.answered ≡ tally.answered }
    ensures within { result.answered ≤ result.connections }
{
    let answered = match served {
        Served::Answered => tally.answered + 1,
        _ => tally.answered,
    };
    Tally {
        connections: tally.connections + 1,
        answered,
    }
}

/// Serves the next connection, where one comes.
fn serve_next<N: Net>(
    alloc: Global,
    loaded: &Loaded,
    net: &mut N,
) -> Result<Option<Served>, ServeFault>
    requires { IsSome (N.listens_at net.old) }
    ensures step { (v : View) (before : Connections) → IsFileView loaded.now.profile v → N.connections net.old ≡ Some before → IsStep v before (N.connections net.new) result }
    ensures memory { IfOk result (λ found. IfSome found (λ served. served ≡ Served.NoMemory → ⊥)) }
    ensures cause { HasCause ServeFault.Net (N.faults net.old) (N.faults net.new) result }
    ensures stays { N.listens_at net.new ≡ N.listens_at net.old }
{
    match net.next() {
        Ok(Some(link)) => match serve_one(alloc, loaded, net, link) {
            Ok(served) => Ok(Some(served)),
            Err(fault) => Err(fault),
        },
        Ok(None) => Ok(None),
        Err(Failed::Device) => Err(ServeFault::Net),
        Err(Failed::NoMemory) => Err(ServeFault::NoMemory),
    }
}

/// Serves a connection that just came, and gives it back.
fn serve_one<N: Net>(
    alloc: Global,
    loaded: &Loaded,
    net: &mut N,
    link: N::Conn,
) -> Result<Served, ServeFault>
    requires reads { N.Conn.read_faults link ≡ 0 }
    requires writes { N.Conn.write_faults link ≡ 0 }
    ensures end { (v : View) (before : Connections) (input : List ℕ) → IsFileView loaded.now.profile v → N.connections net.old ≡ Some before
        → N.Conn.stream link ≡ Some (fresh input) → N.Conn.held link ≡ Some [] → IsEnd v before input (N.connections net.new) result }
    ensures memory { IfOk result (λ served. served ≡ Served.NoMemory → ⊥) }
    ensures fault { IsErrOf result ServeFault.Net → ⊥ }
    ensures count { N.faults net.new ≡ N.faults net.old }
    ensures stays { N.listens_at net.new ≡ N.listens_at net.old }
{
    let mut link = link;
    let served = serve_link(alloc, loaded, &mut link);
    give_back(net, link)?;
    match served {
        Served::NoMemory => Err(ServeFault::NoMemory),
        other => Ok(other),
    }
}

/// Gives a connection back as it stands.
fn give_back<N: Net>(net: &mut N, link: N::Conn) -> Result<(), ServeFault>
    ensures served { OnOk result (N.connections net.new ≡ with_served (connection_of (N.Conn.stream link) (N.Conn.held link) (N.Conn.read_faults link) (N.Conn.write_faults link)) (N.connections net.old)) }
    ensures kept { OnErr result (N.connections net.new ≡ N.connections net.old) }
    ensures memory { IsErrOf result ServeFault.Net → ⊥ }
    ensures stays { N.listens_at net.new ≡ N.listens_at net.old }
    ensures count { N.faults net.new ≡ N.faults net.old }
{
    net.done(link)?;
    Ok(())
}
