//! The program `mdprof`: the words of its command line, the real files, standard output and standard error, and the exit
//! status. All that a command does is `md_tool::top`; what it wrote to a file takes its name behind it.
#![tactic(auto)]

ghost use Rattle.std.specs.Prelude.{◌≡◌, true, false};

use md_base::{Sink, write_whole};
use md_system::{StdSink, StdStore, TcpNet, take_free_numbers};
use md_tool::top;
use std::io::ErrorKind;
use std::process::ExitCode;
use std::{env, io, process};

/// The exit status of a want of memory.
const WANT_OF_MEMORY: u8 = 8;

/// The exit status of something that can't be written.
const WRITE_FAULT: u8 = 7;

fn main(rt: HostRuntime) -> ExitCode {
    let alloc = rt.alloc();
    // Before any file is opened.
    let standard = take_free_numbers(&rt);
    let words = match words(&rt) {
        Ok(words) => words,
        Err(fault) if fault.kind() == ErrorKind::OutOfMemory => {
            return ExitCode::from(WANT_OF_MEMORY);
        }
        // A word that isn't text is no word of any command.
        Err(_) => Vec::new(alloc),
    };
    let mut store = StdStore::new(alloc, &rt, process::id(rt.process()));
    let mut out = StdSink::new(standard.output.then_some(rt.stdout()));
    let mut err = StdSink::new(standard.error.then_some(rt.stderr()));
    let mut net = TcpNet::new(alloc, &rt);
    let status = top(
        alloc,
        words.as_slice(),
        &mut store,
        &mut out,
        &mut err,
        &mut net,
    );
    net.finish();
    let settled = store.settle(is_kept(status.0));
    ExitCode::from(status_of(status.0, settled.is_ok(), &mut err))
}

/// Whether what was written to a file is whole where the command ends with this status.
fn is_kept(status: u8) -> bool {
    matches!(status, 0 | 4 | 10)
}

/// The status of a command whose files took their names, or didn't, which is told.
fn status_of<K: Sink>(status: u8, is_settled: bool, err: &mut K) -> u8
    ensures settled { is_settled ≡ true → result ≡ status }
    ensures unsettled { is_settled ≡ false → result ≡ 7 }
{
    if is_settled {
        return status;
    }
    // Where this can't be written either, the status tells it alone.
    let _told = write_whole(err, b"mdprof: write fault\n");
    WRITE_FAULT
}

/// The words after the program's name.
fn words(rt: &(impl env::Env + AllocGlobal)) -> io::Result<Vec<String>> {
    let mut words = Vec::new(rt.alloc());
    for word in env::args(rt)?.skip(1) {
        words.push(word)?;
    }
    Ok(words)
}
