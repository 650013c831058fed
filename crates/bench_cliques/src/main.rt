//! A program for measuring: `bench_cliques SHAPE NODES LINKS` makes a call graph and tells how many cliques it has. SHAPE is
//! `random`, `path`, `cycle`, `parallel` or `selves`.
#![tactic(auto)]

mod shape;

use md_clique::cliques;
use shape::{Shape, links_of};
use std::env;
use std::io::{self, ErrorKind};
use std::process::ExitCode;

fn main(rt: HostRuntime) -> io::Result<ExitCode> {
    let mut words = env::args(&rt)?.skip(1);
    let shape = words.next().and_then(|name| Shape::named(name.as_str()));
    let nodes = words
        .next()
        .and_then(|text| text.as_str().parse::<u32>().ok());
    let links = words
        .next()
        .and_then(|text| text.as_str().parse::<u32>().ok());
    let (Some(shape), Some(nodes), Some(links)) = (shape, nodes, links) else {
        return usage(&rt);
    };
    if nodes == 0 {
        return usage(&rt);
    }
    let links = links_of(rt.alloc(), shape, nodes, links)?;
    let Ok(found) = cliques(rt.alloc(), nodes, &links) else {
        return Err(ErrorKind::OutOfMemory.into());
    };
    let largest = (0..found.count())
        .map(|clique| found.members(clique).len())
        .max();
    println!(rt;
        "cliques {}, members of the largest {}",
        found.count(),
        largest.unwrap_or(0)
    )?;
    Ok(ExitCode::SUCCESS)
}

/// Tells how the program is called.
fn usage(rt: &HostRuntime) -> io::Result<ExitCode> {
    eprintln!(rt; "usage: bench_cliques random|path|cycle|parallel|selves NODES LINKS")?;
    Ok(ExitCode::from(1))
}
