// Calls in the code of a program that a text spells. Each law is the contract of a function that does nothing.
ghost use Rattle.law_flat.specs.Entering.{CallsTo};
ghost use Rattle.law_flat.specs.Flat.{flat_told};
ghost use Rattle.law_flat.specs.Leads.{FailsAt, IsCall, Leads};
ghost use Rattle.law_flat.specs.Shapes.{InRange};
ghost use Rattle.law_flat.specs.Shows.{Frames};
ghost use Rattle.law_flat.specs.Stays.{Here};
ghost use Rattle.law_frames.specs.Standing.{Runs};
ghost use Rattle.law_frames.specs.Stores.{Act, Choice, Store};
ghost use Rattle.law_frames.specs.Ways.{Address, Way, on};
ghost use Rattle.md_code.specs.Details.{IsCodeOf};
ghost use Rattle.md_flat.specs.Meaning.{State};
ghost use Rattle.md_flat.specs.declared.code.Code.{Code};
ghost use Rattle.md_hlds.specs.Hlds.{Hlds, Procedure, procedure_called};
ghost use Rattle.md_hlds.specs.HldsGoal.{At, CallGoal, numbered_goal};
ghost use Rattle.md_hlds.specs.Trace.{Items, call_weight};
ghost use Rattle.md_hlds.specs.declared.goal.PredName.{PredName};
ghost use Rattle.md_modes.specs.Modes.{mode_fault};
ghost use Rattle.md_reader.specs.Grammar.{Spells};
ghost use Rattle.std.specs.Prelude.{List, None, Some, ℕ, ◌+◌, ◌≡◌};

/// A call by a name, where the code leads along it: the goal has the detail of the call of a procedure that is there; and where there
/// is room for its frame, the procedure's body is entered.
pub fn named_calls<M>()
    ensures { (spelled : List ℕ) → (s : Hlds) → Spells spelled s → mode_fault s ≡ None → (code : Code) → IsCodeOf s code → (marks : List (M × ℕ)) → (b : ℕ) → (seen : Items) → (st : State M) → (F : Frames) → (p : ℕ) → (S : Store) → (n l site : ℕ) → (name : PredName) → (ys : List ℕ) → (a : Address) → (w : Way) → (x : Act) → (c : List Act) → (cs : List Choice) → (weight next other : ℕ) → ((q : ℕ × Procedure) → procedure_called s name ≡ Some q → (weight ≡ p + call_weight q.1) × IsCall s (flat_told code) n site (F.shapes x.index).size q ys next other) → InRange (F.shapes x.index) ys → Leads s (flat_told code) (F.shapes x.index) next 0 w → FailsAt s (flat_told code) (F.shapes x.index) other 0 a → (h : Here s (flat_told code) marks b seen st F p S (Runs (on a (numbered_goal n (At l (CallGoal site name ys))) w) x c) x cs cs) → CallsTo s (flat_told code) marks b seen st x n weight h.next }
{}
