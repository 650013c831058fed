// Tokens.
ghost use Rattle.std.specs.Prelude.{◌≡◌, ◌≤◌, false, length};
ghost use Rattle.md_token.specs.declared.kind.Kind.TheVariants as kinds;
ghost use Rattle.md_token.specs.Kinds.{is_final};
ghost use Rattle.md_token.specs.Token.{HasParts};

use crate::Kind;

/// A token: its kind, the bytes that spell it, and its line, counted from 1.
#[derive(Clone, Copy)]
pub struct Token<'a> {
    pub kind: Kind,
    pub text: &'a [u8],
    pub line: u32,
    /// Only `Stop` and `Bad` may be empty.
    pub ghost filled: { is_final kind ≡ false → 1 ≤ length text.now },
    /// Neither part of a qualified name is empty.
    pub ghost qualified: { kind ≡ kinds.Qualified → HasParts text.now },
}
