// The command `serve`.
ghost use Rattle.std.specs.Prelude.{ℕ, ◌≡◌, List, Option, Some, IfOk, IsSome, MatchResult, OnOk, OnErr, string_bytes};
ghost use Rattle.md_base.specs.Files.{Files};
ghost use Rattle.md_base.specs.Outside.{HasCause, Rose};
ghost use Rattle.md_cost.specs.FileView.{IsFileView};
ghost use Rattle.md_cost.specs.View.{View};
ghost use Rattle.md_tool.specs.Due.{WriteEnds};
ghost use Rattle.md_tool.specs.Served.{ServeEnds, net_side, BindEnds, ConnectionsEnd, fault_of, tally_line};
ghost use Rattle.md_tool.specs.Stored.{IsLoadedFrom};
ghost use Rattle.md_tool.specs.Rises.{RisesBy};

use crate::fault::Fault;
use crate::stored::load_file;
use crate::write::write;
use md_base::{Failed, Net, Sink, Store};
use md_cost::Loaded;
use md_http::{ServeFault, Tally, serve_connections};
use std::alloc::{AllocError, Global};

/// Serves the pages of the profile in a file to as many connections as are asked for, one after the other, and writes
/// how many came and how many of them were answered.
pub fn serve_file<S: Store, O: Sink, N: Net>(
    alloc: Global,
    name: &str,
    port: u16,
    requests: u32,
    store: &mut S,
    out: &mut O,
    net: &mut N,
) -> Result<(), Fault>
    ensures ends { ServeEnds (S.held store.old) name.now port requests (net_side (N.connections net.old) (N.listens_at net.old)) (net_side (N.connections net.new) (N.listens_at net.new)) (O.held out.old) (O.held out.new)
        (Rose (S.read_faults store.old) (S.read_faults store.new)) (Rose (O.write_faults out.old) (O.write_faults out.new))
        (Rose (N.faults net.old) (N.faults net.new)) result }
    ensures kept { S.held store.new ≡ S.held store.old }
    ensures reads { RisesBy Fault.Read (S.read_faults store.old) (S.read_faults store.new) result }
    ensures writes { S.write_faults store.new ≡ S.write_faults store.old }
    ensures outs { RisesBy Fault.Write (O.write_faults out.old) (O.write_faults out.new) result }
    ensures nets { RisesBy Fault.Network (N.faults net.old) (N.faults net.new) result }
{
    let loaded = load_file(alloc, name, store)?;
    serve_loaded(alloc, &loaded, port, requests, out, net)
}

/// Serves the pages of a loaded profile, and writes how many connections came and how many of them were answered.
fn serve_loaded<O: Sink, N: Net>(
    alloc: Global,
    loaded: &Loaded,
    port: u16,
    requests: u32,
    out: &mut O,
    net: &mut N,
) -> Result<(), Fault>
    ensures ends { (held : Option Files) (name : List ℕ) → IsLoadedFrom held name loaded.now
        → ServeEnds held name port requests (net_side (N.connections net.old) (N.listens_at net.old)) (net_side (N.connections net.new) (N.listens_at net.new)) (O.held out.old) (O.held out.new)
        ⊥ (Rose (O.write_faults out.old) (O.write_faults out.new)) (Rose (N.faults net.old) (N.faults net.new)) result }
    ensures outs { RisesBy Fault.Write (O.write_faults out.old) (O.write_faults out.new) result }
    ensures nets { RisesBy Fault.Network (N.faults net.old) (N.faults net.new) result }
{
    // What is served is the view of the profile, which has one.
    let _viewed = loaded.profile();
    bind(net, port)?;
    let tally = serve(alloc, loaded, net, requests)?;
    tell_tally(alloc, tally, out)
}

/// Listens at a port.
fn bind<N: Net>(net: &mut N, port: u16) -> Result<(), Fault>
    ensures bound { OnOk result (N.listens_at net.new ≡ Some port) }
    ensures stays { OnErr result (N.listens_at net.new ≡ N.listens_at net.old) }
    ensures kept { N.connections net.new ≡ N.connections net.old }
    ensures ends { BindEnds (Rose (N.faults net.old) (N.faults net.new)) result }
    ensures cause { HasCause Fault.Network (N.faults net.old) (N.faults net.new) result }
    ensures nets { RisesBy Fault.Network (N.faults net.old) (N.faults net.new) result }
{
    match net.bind(port) {
        Ok(()) => Ok(()),
        Err(Failed::Device) => Err(Fault::Network),
        Err(Failed::NoMemory) => Err(Fault::NoMemory),
    }
}

/// Serves connections.
fn serve<N: Net>(alloc: Global, loaded: &Loaded, net: &mut N, requests: u32) -> Result<Tally, Fault>
    requires { IsSome (N.listens_at net.old) }
    ensures ends { (v : View) → IsFileView loaded.now.profile v
        → ConnectionsEnd v requests (N.connections net.old) (N.connections net.new) (Rose (N.faults net.old) (N.faults net.new)) result }
    ensures stays { N.listens_at net.new ≡ N.listens_at net.old }
    ensures nets { RisesBy Fault.Network (N.faults net.old) (N.faults net.new) result }
{
    match serve_connections(alloc, loaded, net, requests) {
        Ok(tally) => Ok(tally),
        Err(fault) => Err(fault_of(fault)),
    }
}

/// The fault that one of serving is.
fn fault_of(fault: ServeFault) -> Fault
    ensures { result ≡ fault_of fault }
{
    match fault {
        ServeFault::Net => Fault::Network,
        ServeFault::NoMemory => Fault::NoMemory,
    }
}

/// Writes how many connections came, and how many of them were answered.
fn tell_tally<O: Sink>(alloc: Global, tally: Tally, out: &mut O) -> Result<(), Fault>
    ensures ends { WriteEnds (tally_line tally) (O.held out.old) (O.held out.new) (Rose (O.write_faults out.old) (O.write_faults out.new)) result }
    ensures outs { RisesBy Fault.Write (O.write_faults out.old) (O.write_faults out.new) result }
{
    match tally_line(alloc, tally) {
        Ok(line) => write(out, line.as_str().as_bytes()),
        Err(_) => Err(Fault::NoMemory),
    }
}

fn tally_line(alloc: Global, tally: Tally) -> Result<String, AllocError>
    ensures { IfOk result (λ line. string_bytes line ≡ tally_line tally) }
{
    let Tally {
        connections,
        answered,
    } = tally;
    format!(in alloc; "connections {connections} answered {answered}\n")
}
