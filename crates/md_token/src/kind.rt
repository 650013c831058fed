// The kinds of tokens.
ghost use Rattle.std.specs.Prelude.{◌≡◌, true};
ghost use Rattle.md_token.specs.Kinds as spec;

/// What a token is.
#[derive(Clone, Copy, Debug, PartialEq, Eq)]
pub enum Kind {
    /// A name that is none of the seven words below.
    Name,
    /// A name, `.`, and a name.
    Qualified,
    Variable,
    /// One or more digits.
    Integer,
    /// A string, with its quotes.
    Text,
    True,
    Fail,
    Not,
    Some,
    Call,
    Is,
    Pred,
    /// `:-`
    Declare,
    /// `--->`
    Yields,
    /// `->`
    Then,
    /// `::`
    HasMode,
    /// `;`
    Semicolon,
    /// `,`
    Comma,
    /// `(`
    Open,
    /// `)`
    Close,
    /// `[`
    OpenList,
    /// `]`
    CloseList,
    /// `=`
    Equals,
    /// `=<`
    AtMost,
    /// `<`
    Less,
    /// `>`
    Greater,
    /// `>=`
    AtLeast,
    /// `+`
    Plus,
    /// `-`
    Minus,
    /// `*`
    Times,
    /// The end sign: a `.` that white space, `%` or the end of the text follows.
    End,
    /// The end of the text.
    Stop,
    /// Bytes that make no token.
    Bad,
}

/// Whether two kinds are the same.
pub fn same_kind(a: Kind, b: Kind) -> bool
    ensures value { result ≡ spec.same_kind a b }
    ensures same { result ≡ true → a ≡ b }
{
    a == b
}
