// Procedures that are called.

/// What a call of a procedure weighs, and the number of its body among the goals.
#[derive(Clone, Copy)]
pub struct Callee {
    pub weight: u32,
    pub body: u32,
}
