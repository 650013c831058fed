// Texts of more programs, most of them without output.
use md_machine::End;

/// Nothing is done.
const EMPTY: &str =
    ":- module t.\n:- pred main(io::di, io::uo) is det.\nmain(IO0, IO) :- IO = IO0.\n";

/// The largest number and one more.
const WRAP: &str =
    ":- module t.\n:- pred main(io::di, io::uo) is det.\nmain(IO0, IO) :- A = 9223372036854775807, B = 1, C = A + B, io.write_int(C, IO0, IO1), io.nl(IO1, IO).\n";

/// Calls by three ways, first from the condition that is met.
const FIRST_ORDER: &str =
    ":- module t.\n:- pred main(io::di, io::uo) is det.\nmain(IO0, IO) :- K = 1, x(K), IO = IO0.\n:- pred x(int::in) is det.\nx(K) :- Z = 0, A = 1, ( K = A -> true ; n ), ( K = Z -> true ; r(A) ).\n:- pred r(int::in) is det.\nr(J) :- Z = 0, ( J = Z -> true ; x(Z) ).\n:- pred n is det.\nn :- Z = 0, r(Z).\n";

/// The same, first from the other.
const SECOND_ORDER: &str =
    ":- module t.\n:- pred main(io::di, io::uo) is det.\nmain(IO0, IO) :- K = 2, x(K), IO = IO0.\n:- pred x(int::in) is det.\nx(K) :- Z = 0, A = 1, ( K = A -> true ; n ), ( K = Z -> true ; r(A) ).\n:- pred r(int::in) is det.\nr(J) :- Z = 0, ( J = Z -> true ; x(Z) ).\n:- pred n is det.\nn :- Z = 0, r(Z).\n";

/// Predicates of three modules.
const MODULES: &str =
    ":- module t.\n:- pred main(io::di, io::uo) is det.\nmain(IO0, IO) :- a.f, IO = IO0.\n:- pred a.f is det.\na.f :- b.g.\n:- pred b.g is det.\nb.g :- a.h.\n:- pred a.h is det.\na.h :- true.\n";

/// Two closures that change places.
const CHANGING: &str =
    ":- module t.\n:- pred main(io::di, io::uo) is det.\nmain(IO0, IO) :- A = 1, N = 3, P = add(A), Q = double, drive(P, Q, N), IO = IO0.\n:- pred drive(pred(int, int)::in(pred(in, out) is det), pred(int, int)::in(pred(in, out) is det), int::in) is det.\ndrive(P, Q, N) :- Z = 0, ( N =< Z -> true ; call(P, N, R), D = 1, M = N - D, drive(Q, P, M) ).\n:- pred add(int::in, int::in, int::out) is det.\nadd(A, B, C) :- C = A + B.\n:- pred double(int::in, int::out) is det.\ndouble(A, B) :- T = 2, B = A * T.\n";

/// A closure that hands the io states on.
const LOOP: &str =
    ":- module t.\n:- pred main(io::di, io::uo) is det.\nmain(IO0, IO) :- N = 2, loop(N, IO0, IO).\n:- pred loop(int::in, io::di, io::uo) is det.\nloop(N, IO0, IO) :- Z = 0, ( N =< Z -> IO = IO0 ; D = 1, M = N - D, P = loop(M), call(P, IO0, IO) ).\n";

/// It has no end.
const SPIN: &str =
    ":- module t.\n:- pred main(io::di, io::uo) is det.\nmain(IO0, IO) :- spin, IO = IO0.\n:- pred spin is det.\nspin :- spin.\n";

/// An exception leaves a condition with a choice left.
const BOOM: &str =
    ":- module t.\n:- pred main(io::di, io::uo) is det.\nmain(IO0, IO) :- ( some [X] ( pick(X), S = \"no\", require.error(S) ) -> IO = IO0 ; IO = IO0 ).\n:- pred pick(int::out) is multi.\npick(X) :- ( X = 1 ; X = 2 ).\n";

/// Two line ends.
const TWO: &str =
    ":- module t.\n:- pred main(io::di, io::uo) is det.\nmain(IO0, IO) :- p(IO0, IO1), p(IO1, IO).\n:- pred p(io::di, io::uo) is det.\np(IO0, IO) :- q, io.nl(IO0, IO).\n:- pred q is det.\nq :- true.\n";

/// The other arm of a condition.
const SIGN: &str =
    ":- module t.\n:- pred main(io::di, io::uo) is det.\nmain(IO0, IO) :- N = 3, sign(N, S), io.write_int(S, IO0, IO).\n:- pred sign(int::in, int::out) is det.\nsign(N, S) :- Z = 0, ( N < Z -> S = N ; S = Z ).\n";

/// Programs, with what they write and how they end.
pub const EXAMPLES: [(&str, &str, End); 11] = [
    (EMPTY, "", End::Finished),
    (WRAP, "-9223372036854775808\n", End::Finished),
    (FIRST_ORDER, "", End::Finished),
    (SECOND_ORDER, "", End::Finished),
    (MODULES, "", End::Finished),
    (CHANGING, "", End::Finished),
    (LOOP, "", End::Finished),
    (SPIN, "", End::OutOfSteps),
    (BOOM, "", End::Thrown),
    (TWO, "\n\n", End::Finished),
    (SIGN, "0", End::Finished),
];
