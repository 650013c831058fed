// Laws over the grammar alone. Each is the contract of a function that does nothing.
ghost use Rattle.std.specs.Prelude.{◌≡◌, ◌<◌, ℕ, List, length};
ghost use Rattle.md_hlds.specs.Hlds.{Hlds, goals_before};
ghost use Rattle.md_token.specs.Token.{tokens_of};
ghost use Rattle.md_reader.specs.Arguments.{HaveFewArguments};
ghost use Rattle.md_reader.specs.Excess.{AreWithin, beginning};
ghost use Rattle.md_reader.specs.Faults.{IsLimitFault, IsSyntaxFault};
ghost use Rattle.md_reader.specs.Grammar.{Spells};
ghost use Rattle.md_reader.specs.Input.{standard};

/// A text spells at most one program.
pub fn a_text_spells_one_program()
    ensures { (text : List ℕ) (p q : Hlds) → Spells text p → Spells text q → p ≡ q }
{}

/// No token of a text that spells a program has more than the limits allow.
pub fn a_program_is_within_the_limits()
    ensures { (text : List ℕ) (p : Hlds) → Spells text p → AreWithin standard beginning (tokens_of text) }
{}

/// The first token at fault of a text stands in one line, and is at fault for syntax or for a limit, not for both.
pub fn a_text_has_one_first_fault()
    ensures syntax { (text : List ℕ) (line other : ℕ) → IsSyntaxFault text line → IsSyntaxFault text other → line ≡ other }
    ensures limit { (text : List ℕ) (line other : ℕ) → IsLimitFault text line → IsLimitFault text other → line ≡ other }
    ensures kind { (text : List ℕ) (line other : ℕ) → IsSyntaxFault text line → IsLimitFault text other → ⊥ }
{}

/// A program has fewer goals than its text has bytes.
pub fn a_text_has_more_bytes_than_goals()
    ensures { (text : List ℕ) (p : Hlds) → Spells text p → goals_before p.procedures (length p.procedures) < length text }
{}

/// A functor of a program has fewer arguments than the program's text has bytes.
pub fn a_text_has_more_bytes_than_arguments()
    ensures { (text : List ℕ) (p : Hlds) → Spells text p → HaveFewArguments (length text) p.types }
{}
