//! Commands over the files and the streams of the machine, one after the other, most of which end with a status that isn't 0. A line of
//! the standard input has the words of one, with single spaces between them. The two streams are exchanged: what a command writes to its
//! error stream comes on standard output, and behind it its status. The program ends with the status of the last one, as `mdprof` does
//! with that of its only one.
#![tactic(auto)]

use md_system::{StdSink, StdStore, TcpNet};
use md_tool::top;
use std::alloc::{AllocError, Global};
use std::io::{self, ErrorKind};
use std::process::{self, ExitCode};

fn main(rt: HostRuntime) -> io::Result<ExitCode> {
    let alloc = rt.alloc();
    let mut last = 0;
    for line in rt.lines(alloc) {
        let line = line?;
        last = status_of(&rt, alloc, line.as_str())?;
        println!(rt; "status {last}")?;
    }
    Ok(ExitCode::from(last))
}

/// Does the command of these words, and gives its status.
fn status_of(rt: &HostRuntime, alloc: Global, line: &str) -> io::Result<u8> {
    let words = words(alloc, line)?;
    let mut store = StdStore::new(alloc, rt, process::id(rt.process()));
    let mut out = StdSink::new(Some(rt.stderr()));
    let mut err = StdSink::new(Some(rt.stdout()));
    let mut net = TcpNet::new(alloc, rt);
    let status = top(
        alloc,
        words.as_slice(),
        &mut store,
        &mut out,
        &mut err,
        &mut net,
    );
    match store.settle(matches!(status.0, 0 | 4 | 10)) {
        Ok(()) => Ok(status.0),
        Err(_) => Err(ErrorKind::Other.into()),
    }
}

/// The words of a line.
fn words(alloc: Global, line: &str) -> Result<Vec<String>, AllocError> {
    let mut words = Vec::new(alloc);
    for word in line.split(' ') {
        let word = String::from_str(alloc, word)?;
        words.push(word)?;
    }
    Ok(words)
}
