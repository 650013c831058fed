// Programs with what they write, how they end and what they weigh, worked out by hand from the language's description.
use super::came::{counted_run, silent_run};
use super::programs::{COUNT, ERR, HELLO, NONE, SOME};
use md_machine::{End, Ran};
use std::process::Abort;
use std::test::Fail;

/// The run of this text wrote this, ended so, and threw that.
fn came_to(rt: &impl Abort, text: &str, ran: &Ran, output: &str, end: End, error: &str) {
    assert_eq!(rt; ran.output.as_slice(), output.as_bytes(), "{text}");
    assert_eq!(rt; ran.end, end, "{text}");
    assert_eq!(rt; ran.error.as_slice(), error.as_bytes(), "{text}");
}

#[test]
fn programs_write_and_end_as_they_say(rt: HostRuntime) -> Result<(), Fail> {
    for (text, budget, output, end, error) in [
        (HELLO, 15, "hello\n", End::Finished, ""),
        (HELLO, 14, "hello", End::OutOfSteps, ""),
        (HELLO, 0, "", End::OutOfSteps, ""),
        (COUNT, 58, "", End::Finished, ""),
        (COUNT, 57, "", End::OutOfSteps, ""),
        (SOME, 44, "yes", End::Finished, ""),
        (NONE, 1000, "none", End::Finished, ""),
        (ERR, 49, "", End::Thrown, "bad"),
        (ERR, 48, "", End::OutOfSteps, ""),
    ] {
        let ran = silent_run(rt.alloc(), text, budget)?;
        came_to(&rt, text, &ran, output, end, error);
    }
    Ok(())
}

#[test]
fn a_run_hands_over_its_ports(rt: HostRuntime) -> Result<(), Fail> {
    // main calls count four times, below one another.
    let (ran, counts) = counted_run(rt.alloc(), COUNT, 58)?;
    came_to(&rt, COUNT, &ran, "", End::Finished, "");
    assert_eq!(rt; (counts.calls, counts.exits), (5, 5));
    assert_eq!(rt; (counts.fails, counts.redos), (0, 0));
    assert_eq!(rt; (counts.excps, counts.allocs), (0, 0));
    Ok(())
}
