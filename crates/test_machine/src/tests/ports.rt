// Ports of runs of the plain program, written out by hand.
use bumpalo::Bump;
use md_plain::{Item, run};
use md_reader::read;
use std::alloc::Global;
use std::test::Fail;

/// A closure is called until it fails.
const OPEN: &str =
    ":- module t.\n:- pred main(io::di, io::uo) is det.\nmain(A, B) :- P = p, ( call(P), fail -> true ; true ).\n:- pred p is nondet.\np :- ( true ; true ).\n";

/// The same, where a second answer is cut off.
const CUT: &str =
    ":- module t.\n:- pred main(io::di, io::uo) is det.\nmain(A, B) :- P = p, ( call(P), fail -> true ; true ).\n:- pred p is semidet.\np :- ( true ; true ).\n";

/// The same, where an exception is thrown.
const THROWN: &str =
    ":- module t.\n:- pred main(io::di, io::uo) is det.\nmain(A, B) :- P = p, ( call(P), fail -> true ; true ).\n:- pred p is det.\np :- S = \"bad\", require.error(S).\n";

/// A port as its letter and its activation, an allocation with its words.
fn told(item: &Item) -> Option<(u8, u64)> {
    match item {
        Item::Call(a, ..) => Some((b'c', *a)),
        Item::Exit(a) => Some((b'e', *a)),
        Item::Redo(a) => Some((b'r', *a)),
        Item::Fail(a) => Some((b'f', *a)),
        Item::Excp(a) => Some((b'x', *a)),
        Item::Alloc(_, words) => Some((b'a', *words)),
        _ => None,
    }
}

/// The ports and allocations of a program that is read, and not checked.
fn ports(alloc: Global, text: &[u8]) -> Result<Vec<(u8, u64)>, Fail> {
    if text.len() > 1_048_576 {
        return Err(Fail::from("a short text"));
    }
    let bump = Bump::new(alloc);
    let program = read(alloc, text)?;
    let mut ports = Vec::new(alloc);
    for item in run(&bump, &program, 100)? {
        if let Some(port) = told(item) {
            ports.push(port)?;
        }
    }
    Ok(ports)
}

#[test]
fn a_body_comes_back_is_cut_or_throws(rt: HostRuntime) -> Result<(), Fail> {
    let first = [(b'c', 0), (b'a', 3), (b'c', 1)];
    for (text, others) in [
        (
            OPEN,
            [
                (b'e', 1),
                (b'r', 1),
                (b'e', 1),
                (b'r', 1),
                (b'f', 1),
                (b'e', 0),
            ]
            .as_slice(),
        ),
        (CUT, [(b'e', 1), (b'e', 0)].as_slice()),
        (THROWN, [(b'x', 1), (b'x', 0)].as_slice()),
    ] {
        let ports = ports(rt.alloc(), text.as_bytes())?;
        assert_eq!(rt; ports.starts_with(first.as_slice()), true);
        assert_eq!(rt; ports.ends_with(others), true);
        assert_eq!(rt; ports.len(), first.len() + others.len());
    }
    Ok(())
}
