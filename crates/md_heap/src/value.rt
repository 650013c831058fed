// A value, in two words.
ghost use Rattle.std.specs.Prelude.{◌≡◌};
ghost use Rattle.md_heap.specs.Rank.{rank};

/// A value of a running program.
#[derive(Clone, Copy, Debug)]
pub enum Value {
    /// An integer.
    Int(i64),
    /// A literal, by its number. Equal literals have equal numbers.
    Lit(u64),
    /// A cell of the heap, by its number.
    Cell(u64),
}

impl Value {
    ghost use Rattle.std.specs.Prelude.{◌≡◌};
    ghost use Rattle.md_heap.specs.Rank.{rank};

    /// The value's rank: what an integer is without its sign, and the number of a literal or a cell. Values of different ranks differ;
    /// two integers of one rank, or two literals, are one but for a sign.
    pub fn rank(self) -> u64
        ensures { result ≡ rank self }
    {
        match self {
            Value::Int(number) => number.unsigned_abs(),
            Value::Lit(number) => number,
            Value::Cell(number) => number,
        }
    }
}
