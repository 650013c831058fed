// Programs made with a fixed seed, against the plain program.
use super::plain::agreed;
use std::test::Fail;
use test_programs::{Family, made};

/// What the programs are made of.
const FAMILY: Family<'static> = Family {
    head: ":- module t.\n:- type shape ---> dot ; box(int, int).\n:- pred main(io::di, io::uo) is det.\nmain(IO0, IO) :- N = 1, L = 6, ( some [X] ( p0(N, X), X > L ) -> S = \"y\" ; S = \"n\" ), io.write_string(S, IO0, IO).\n",
    goals: [
        "# = @",
        "D~ = 1, # = @ + D~",
        "( # = @ ; # = 1 )",
        "( # = 5 ; ^(@, #) ; # = 3 )",
        "( @ = 1, # = 2 ; @ = 2, # = 4 ; @ = 4, # = 1 )",
        "( L~ = 3, @ < L~ -> # = @ ; # = 2 )",
        "( some [S~] ( ^(@, S~), S~ > @ ) -> # = 1 ; # = @ )",
        "( ^(@, S~), not ( S~ = @ ) -> # = 7 ; # = @ )",
        "not ( ^(@, S~), S~ > @ ), # = @",
        "some [S~] ( ^(@, S~), ^(S~, R~), R~ > @ ), # = @",
        "^(@, #)",
        "C~ = ^(@), call(C~, #)",
        "C~ = ^, call(C~, @, #)",
        "L~ = 6, @ < L~, # = @",
        "L~ = 4, ( @ > L~ -> E~ = \"large\", require.error(E~), # = @ ; # = @ )",
        "D~ = 1, T~ = box(D~, @), ( T~ = dot, # = 0 ; T~ = box(A~, #), A~ =< # )",
    ],
    names: ["p0", "p1", "p2", "p3", "p4"],
    last: ":- pred p4(int::in, int::out) is multi.\np4(A, B) :- ( B = A ; B = 6 ; D = 3, B = A + D ).\n",
    any: 20,
};

/// The predicates of the program that the number 7 makes.
const SEVENTH: &str =
    ":- pred p0(int::in, int::out) is nondet.\np0(V0, V1) :- p0(V0, V1).\n:- pred p1(int::in, int::out) is nondet.\np1(V0, V2) :- ( V0 = 1, V1 = 2 ; V0 = 2, V1 = 4 ; V0 = 4, V1 = 1 ), some [S_1] ( p2(V1, S_1), p2(S_1, R_1), R_1 > V1 ), V2 = V1.\n:- pred p2(int::in, int::out) is nondet.\np2(V0, V1) :- C_0 = p3, call(C_0, V0, V1).\n:- pred p3(int::in, int::out) is nondet.\np3(V0, V1) :- D_0 = 1, V1 = V0 + D_0.\n:- pred p4(int::in, int::out) is multi.\np4(A, B) :- ( B = A ; B = 6 ; D = 3, B = A + D ).\n";

#[test]
fn a_number_makes_one_text(rt: HostRuntime) -> Result<(), Fail> {
    let text = made(rt.alloc(), &FAMILY, 7)?;
    assert!(rt; text.ends_with(SEVENTH.as_bytes()));
    Ok(())
}

#[test]
fn made_programs_run_as_the_plain_program_runs_them(rt: HostRuntime) -> Result<(), Fail> {
    for seed in 0..60u32 {
        let text = made(rt.alloc(), &FAMILY, seed.wrapping_mul(7_919))?;
        agreed(&rt, &text, 600)?;
    }
    Ok(())
}
