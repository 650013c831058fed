// Laws over the definitions of programs, of their checks and of their runs. Each is the contract of a function that does
// nothing.
ghost use Rattle.std.specs.Prelude.{◌≡◌, ℕ, List, None};
ghost use Rattle.md_hlds.specs.Hlds.{Hlds};
ghost use Rattle.md_hlds.specs.Run.{run};
ghost use Rattle.md_modes.specs.Modes.{mode_fault};
ghost use Rattle.md_det.specs.Faults.{det_fault};
ghost use Rattle.md_reader.specs.Grammar.{Spells};
ghost use Rattle.law_safety.specs.Safe.{HasNoStuck};
ghost use Rattle.law_safety.specs.Answers.{AnswersAsDeclared, ComesToItsEnd};

/// A program that a text spells and that has no fault of modes never gets stuck: at each goal that a run of it unfolds,
/// within whatever budget, a rule applies.
pub fn never_stuck()
    ensures { (bytes : List ℕ) (program : Hlds) → Spells bytes program → mode_fault program ≡ None → (budget : ℕ) → HasNoStuck (run program budget) }
{}

/// Each procedure of an accepted program has as many answers as its determinism says, for inputs of the declared types:
/// `det` exactly one, `semidet` at most one, `multi` at least one, `failure` none. That is said of each trace of its body
/// that is deep enough and not thrown.
pub fn answers_as_declared()
    ensures { (bytes : List ℕ) (program : Hlds) → Spells bytes program → mode_fault program ≡ None → det_fault program ≡ None → AnswersAsDeclared program }
{}

/// A run of an accepted program begins with main, and it is finished or it has thrown, unless the budget cuts it.
pub fn comes_to_its_end()
    ensures { (bytes : List ℕ) (program : Hlds) → Spells bytes program → mode_fault program ≡ None → det_fault program ≡ None → (budget : ℕ) → ComesToItsEnd program budget }
{}
