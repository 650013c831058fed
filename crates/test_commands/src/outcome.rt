// What comes of a case.
use crate::case::{Case, File};
use crate::failing::Fails;
use crate::net::{are_written, is_there, net_of};
use crate::tries::tried;
use md_tool::{Status, top};
use std::alloc::{AllocError, Global};
use test_memory::{MemNet, MemSink, MemStore};

/// Where a run keeps its profile where no other name is given.
pub const PROFILE: &str = "mdprof.data";

/// What came of a case.
#[derive(Drop)]
pub struct Came {
    pub status: u64,
    pub store: MemStore,
    pub out: MemSink,
    pub err: MemSink,
    pub net: MemNet,
}

/// `ok` and the case's name, or its name and what came otherwise than it says.
pub fn of(alloc: Global, case: &Case) -> Result<String, AllocError> {
    let came = run(alloc, case, case.fails)?;
    let name = case.name.as_str();
    if let Some(what) = wrong(&came, case) {
        let status = came.status;
        return format!(in alloc; "FAILED {name}: {what}, status {status}");
    }
    if case.each.is_empty() {
        return format!(in alloc; "ok {name}");
    }
    tried(alloc, case)
}

/// Runs the case's words where these calls fail.
pub fn run(alloc: Global, case: &Case, fails: Fails) -> Result<Came, AllocError> {
    let mut store = store_of(alloc, case, fails.store)?;
    let mut out = sink_of(alloc, case.most, fails.out)?;
    let mut err = sink_of(alloc, case.most, fails.err)?;
    let mut net = net_of(alloc, &case.connections, case.most, fails.net)?;
    let Status(status) = top(alloc, &case.words, &mut store, &mut out, &mut err, &mut net);
    Ok(Came {
        status: status as u64,
        store,
        out,
        err,
        net,
    })
}

/// What came otherwise than the case says, if something did.
pub fn wrong(came: &Came, case: &Case) -> Option<&'static str> {
    if came.status != case.status {
        Some("another status")
    } else if came.out.bytes() != case.out.as_slice() {
        Some("another output")
    } else if came.err.bytes() != case.err.as_slice() {
        Some("something else on the error stream")
    } else if !are_left(&came.store, case) {
        Some("other files")
    } else if !are_written(came.net.served(), &case.connections.responses) {
        Some("other responses")
    } else if !is_there(came.net.port(), case.connections.port) {
        Some("another port")
    } else {
        None
    }
}

/// A store that holds the case's files.
fn store_of(alloc: Global, case: &Case, fails: u64) -> Result<MemStore, AllocError> {
    let mut files = Vec::new(alloc);
    for file in &case.files {
        let name = String::from_str(alloc, file.name.as_str())?;
        let bytes = file.bytes.to_vec(alloc)?;
        files.push((name, bytes))?;
    }
    let fails = failing(alloc, fails)?;
    Ok(MemStore::new(files, case.most.max(1), fails))
}

/// A sink that holds nothing.
fn sink_of(alloc: Global, most: usize, fails: u64) -> Result<MemSink, AllocError> {
    let fails = failing(alloc, fails)?;
    Ok(MemSink::new(Vec::new(alloc), most.max(1), fails))
}

/// The one call that fails, or none.
pub fn failing(alloc: Global, call: u64) -> Result<Vec<u64>, AllocError> {
    let mut fails = Vec::new(alloc);
    if call > 0 {
        fails.push(call)?;
    }
    Ok(fails)
}

/// Whether the store holds the files that have to be there, and of others just those that it was given, as they were, and,
/// after a run, its profile under the usual name.
fn are_left(store: &MemStore, case: &Case) -> bool {
    case.left.iter().all(|file| is_left(store, file))
        && store
            .files()
            .iter()
            .all(|(name, bytes)| may_be_left(case, name, bytes))
}

fn is_left(store: &MemStore, file: &File) -> bool {
    store
        .files()
        .iter()
        .any(|(name, bytes)| is_same(file, name, bytes))
}

fn may_be_left(case: &Case, name: &str, bytes: &[u8]) -> bool {
    (name == PROFILE && is_of_run(case))
        || case.left.iter().any(|file| is_same(file, name, bytes))
        || case.files.iter().any(|file| is_same(file, name, bytes))
}

/// Whether the case's command is a run.
pub fn is_of_run(case: &Case) -> bool {
    matches!(case.words.first(), Some(word) if word.as_str() == "run")
}

pub fn is_same(file: &File, name: &str, bytes: &[u8]) -> bool {
    file.name.as_str() == name && file.bytes.as_slice() == bytes
}
