// How runs begin over flat code. Each law is the contract of a function that does nothing.
ghost use Rattle.law_flat.specs.Begins.{Begins};
ghost use Rattle.law_flat.specs.Flat.{HasRoutine, flat_told};
ghost use Rattle.law_flat.specs.Stays.{Stays};
ghost use Rattle.md_code.specs.Details.{IsCodeOf, routine_of};
ghost use Rattle.md_flat.specs.Meaning.{State};
ghost use Rattle.md_flat.specs.declared.code.Code.{Code};
ghost use Rattle.md_hlds.specs.Hlds.{Hlds, Procedure, procedure_called};
ghost use Rattle.md_hlds.specs.Run.{main_name, run};
ghost use Rattle.md_hlds.specs.Trace.{Call, call_weight};
ghost use Rattle.md_modes.specs.Modes.{mode_fault};
ghost use Rattle.md_reader.specs.Grammar.{Spells};
ghost use Rattle.std.specs.Prelude.{List, None, Some, [], slice_get, ℕ, ◌<◌, ◌∷◌, ◌≡◌, ◌≤◌};

/// Main is the procedure that the code names. Where its body is about to begin, main's call has been seen, and the machine is at what is due. Where the budget has no
/// room for main's call there is no run.
pub fn runs_begin<M>()
    ensures main { (spelled : List ℕ) → (s : Hlds) → Spells spelled s → mode_fault s ≡ None → (code : Code) → IsCodeOf s code → (m : ℕ × Procedure) × (procedure_called s main_name ≡ Some m) × (slice_get s.procedures m.0 ≡ Some m.1) × (m.0 ≡ code.main) × HasRoutine (flat_told code) code.main (routine_of s m.0 m.1) }
    ensures begins { (spelled : List ℕ) → (s : Hlds) → Spells spelled s → mode_fault s ≡ None → (code : Code) → IsCodeOf s code → (m : ℕ × Procedure) → procedure_called s main_name ≡ Some m → (b : ℕ) → call_weight m.1 ≤ b → (st : State M) → (h : Begins s (flat_told code) b m st) → Stays s (flat_told code) ((h.frames.first.mark, 0) ∷ []) b (Call 0 None None m.0 ∷ []) st }
    ensures nothing { (s : Hlds) → (m : ℕ × Procedure) → procedure_called s main_name ≡ Some m → (b : ℕ) → b < call_weight m.1 → run s b ≡ [] }
{}
