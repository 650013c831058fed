// Places in the code of a program. The law is the contract of a function that does nothing.
ghost use Rattle.std.specs.Prelude.{◌≡◌, ◌<◌, ℕ, true, List, length, All};
ghost use Rattle.md_hlds.specs.Hlds.{Hlds};
ghost use Rattle.md_reader.specs.Grammar.{Spells};
ghost use Rattle.md_flat.specs.declared.code.Code.{Code};
ghost use Rattle.md_flat.specs.Placed.{bounds, is_placed, is_detail_placed, is_routine_good};
ghost use Rattle.md_code.specs.Details.{IsCodeOf};

/// The code of a program that a text spells is in range: no instruction, detail or routine names an address, a slot or a detail
/// that isn't there, and each routine has a mark for each variable of its head. Their number is below 2^32 where that of the
/// slots is, as it is in code that is there.
pub fn code_is_placed()
    ensures instructions { (text : List ℕ) (s : Hlds) → Spells text s → (code : Code) → IsCodeOf s code → All (λ i. is_placed (bounds code.reach (length code.instructions.items) (length code.details.items)) i ≡ true) code.instructions.items }
    ensures details { (text : List ℕ) (s : Hlds) → Spells text s → (code : Code) → IsCodeOf s code → All (λ d. is_detail_placed (bounds code.reach (length code.instructions.items) (length code.details.items)) d ≡ true) code.details.items }
    ensures routines { (text : List ℕ) (s : Hlds) → Spells text s → (code : Code) → IsCodeOf s code → code.reach < 4294967296 → All (λ r. is_routine_good (bounds code.reach (length code.instructions.items) (length code.details.items)) r ≡ true) code.routines.items }
{}
