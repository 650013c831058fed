// A law over the definitions of tokens alone: the contract of a function that does nothing.
ghost use Rattle.std.specs.Prelude.{◌≡◌, ℕ, List};
ghost use Rattle.md_token.specs.Spelling.{Cut};
ghost use Rattle.md_token.specs.Token.{Lexeme, tokens_of};

/// A text is cut into tokens in one way, and these are what going along its bytes finds.
pub fn a_text_is_cut_in_one_way()
    ensures cut { (text : List ℕ) → Cut 1 text (tokens_of text) }
    ensures no_other { (text : List ℕ) (ts : List Lexeme) → Cut 1 text ts → tokens_of text ≡ ts }
{}
