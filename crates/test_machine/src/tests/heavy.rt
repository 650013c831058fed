// Long runs and deep ones.
use super::came::{counted_run, silent_run};
use md_machine::End;
use std::process::Abort;
use std::test::Fail;

/// The most steps that a run may be given.
const MOST: u32 = 16_777_216;

/// Counts down from a million: 13 steps for each number.
const MILLION: &str =
    ":- module t.\n:- pred main(io::di, io::uo) is det.\nmain(IO0, IO) :- N = 1000000, count(N), IO = IO0.\n:- pred count(int::in) is det.\ncount(N) :- Z = 0, ( N =< Z -> true ; D = 1, M = N - D, count(M) ).\n";

/// Counts down from ten millions.
const TEN_MILLIONS: &str =
    ":- module t.\n:- pred main(io::di, io::uo) is det.\nmain(IO0, IO) :- N = 10000000, count(N), IO = IO0.\n:- pred count(int::in) is det.\ncount(N) :- Z = 0, ( N =< Z -> true ; D = 1, M = N - D, count(M) ).\n";

/// Goes down from a million, and leaves a choice open at each number, 13 steps for each: the first answer is that of 0, and will do.
const CHOICES: &str =
    ":- module t.\n:- pred main(io::di, io::uo) is det.\nmain(IO0, IO) :- N = 1000000, ( some [X] ( deep(N, X), X < N ) -> S = \"y\" ; S = \"n\" ), io.write_string(S, IO0, IO).\n:- pred deep(int::in, int::out) is nondet.\ndeep(N, X) :- ( Z = 0, N > Z, D = 1, M = N - D, deep(M, X) ; X = N ).\n";

/// All choices of eighteen bits.
const BITS: &str =
    ":- module t.\n:- pred main(io::di, io::uo) is det.\nmain(IO0, IO) :- ( bits -> S = \"y\" ; S = \"n\" ), io.write_string(S, IO0, IO).\n:- pred bits is failure.\nbits :- bit(A), bit(B), bit(C), bit(D), bit(E), bit(F), bit(G), bit(H), bit(I), bit(J), bit(K), bit(L), bit(M), bit(N), bit(O), bit(P), bit(Q), bit(R), fail.\n:- pred bit(int::out) is multi.\nbit(X) :- ( X = 0 ; X = 1 ).\n";

/// The run of a program within this budget wrote this and ended so.
fn comes_to(
    rt: &(impl Abort + AllocGlobal),
    text: &str,
    budget: u32,
    output: &str,
    end: End,
) -> Result<(), Fail> {
    let ran = silent_run(rt.alloc(), text, budget)?;
    assert_eq!(rt; ran.end, end);
    assert_eq!(rt; ran.output.as_slice(), output.as_bytes());
    Ok(())
}

#[test]
fn a_million_calls_nest(rt: HostRuntime) -> Result<(), Fail> {
    comes_to(&rt, MILLION, 13_000_019, "", End::Finished)?;
    comes_to(&rt, MILLION, 13_000_018, "", End::OutOfSteps)
}

#[test]
fn a_million_choices_are_open(rt: HostRuntime) -> Result<(), Fail> {
    comes_to(&rt, CHOICES, 13_000_028, "y", End::Finished)?;
    comes_to(&rt, CHOICES, 13_000_027, "", End::OutOfSteps)
}

#[test]
fn a_run_has_all_the_steps_that_there_are(rt: HostRuntime) -> Result<(), Fail> {
    comes_to(&rt, TEN_MILLIONS, MOST, "", End::OutOfSteps)
}

#[test]
fn all_choices_are_tried(rt: HostRuntime) -> Result<(), Fail> {
    // The call of a bit at each of 2^0 + .. + 2^17 places exits twice, and then fails.
    let (ran, counts) = counted_run(rt.alloc(), BITS, MOST)?;
    assert_eq!(rt; ran.end, End::Finished);
    assert_eq!(rt; ran.output.as_slice(), b"n".as_slice());
    assert_eq!(rt; (counts.calls, counts.exits), (262_145, 524_287));
    assert_eq!(rt; (counts.redos, counts.fails), (524_286, 262_144));
    Ok(())
}
