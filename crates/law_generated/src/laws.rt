// Laws over the generated programs.
ghost use Rattle.std.specs.Prelude.{◌≡◌, ◌≤◌, ℕ, None, Ok};
ghost use Rattle.md_reader.specs.Grammar.{Spells};
ghost use Rattle.md_reader.specs.Reading.{reading};
ghost use Rattle.md_modes.specs.Modes.{mode_fault};
ghost use Rattle.md_det.specs.Faults.{det_fault};
ghost use Rattle.law_generated.specs.Generated.{gen_text, generated};

/// The text for each number that `gen` takes spells the program for it, is read as that, and the program has no fault of modes and
/// none of determinism: so each generated text is accepted.
pub fn generated_texts_are_accepted()
    ensures spelled { (n : ℕ) → 1 ≤ n → n ≤ 20 → Spells (gen_text n) (generated n) }
    ensures read { (n : ℕ) → 1 ≤ n → n ≤ 20 → reading (gen_text n) ≡ Ok (generated n) }
    ensures modes { (n : ℕ) → 1 ≤ n → n ≤ 20 → mode_fault (generated n) ≡ None }
    ensures determinism { (n : ℕ) → 1 ≤ n → n ≤ 20 → det_fault (generated n) ≡ None }
{}
