// Goals and terms.
use crate::Variables;
use md_base::{Name, SiteId, Text};

/// A goal with the line of its first token.
#[cycle(ast)]
#[derive(Drop)]
pub struct Goal {
    pub line: u32,
    pub kind: GoalKind,
}

/// What a goal is. Variables are places in the clause's table of names.
#[cycle(ast)]
#[derive(Drop)]
pub enum GoalKind {
    True,
    Fail,
    Unify(u32, Term),
    /// `Z = A + B` and the like: Z, A, the operator, B.
    Arith(u32, u32, Op, u32),
    Compare(u32, Cmp, u32),
    WriteInt(u32, u32, u32),
    WriteStr(u32, u32, u32),
    Nl(u32, u32),
    Call(SiteId, PredName, Variables),
    /// `call(P, Y1, ..)`: the closure, then the other arguments.
    HoCall(SiteId, u32, Variables),
    /// At least two goals.
    Conj(Vec<Goal>),
    /// At least two arms.
    Disj(Vec<Goal>),
    /// Condition, then, else.
    If(Box<Goal>, Box<Goal>, Box<Goal>),
    Not(Box<Goal>),
    Some(Variables, Box<Goal>),
    /// `require.error(S)`: throws, with the bytes that the variable has.
    Error(u32),
}

/// The right side of a unification.
#[derive(Drop)]
pub enum Term {
    Var(u32),
    Int(i64),
    Str(Text),
    /// A functor, a constant or a closure, with its arguments.
    Name(PredName, Variables),
}

/// A name that may be qualified by a module other than the file's.
#[derive(Drop)]
pub struct PredName {
    pub qualifier: Option<Name>,
    pub name: Name,
}

/// Arithmetic wraps at 64 bits.
#[derive(Clone, Copy, Debug, PartialEq, Eq, Hash)]
pub enum Op {
    Add,
    Sub,
    Mul,
}

/// A comparison of integers: `<`, `=<`, `>`, `>=`.
#[derive(Clone, Copy, Debug, PartialEq, Eq, Hash)]
pub enum Cmp {
    Lt,
    Le,
    Gt,
    Ge,
}
