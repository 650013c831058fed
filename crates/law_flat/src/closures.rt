// Calls by closures over flat code. Each law is the contract of a function that does nothing.
ghost use Rattle.law_flat.specs.Entering.{AppliesTo};
ghost use Rattle.law_flat.specs.Flat.{Flat, HasAt, HasRoutine, flat_told};
ghost use Rattle.law_flat.specs.Leads.{FailsAt, IsApplication, Leads};
ghost use Rattle.law_flat.specs.Shapes.{InRange};
ghost use Rattle.law_flat.specs.Shows.{Frames};
ghost use Rattle.law_flat.specs.Stays.{AfterSeeing, CallHere, Here};
ghost use Rattle.law_frames.specs.Standing.{Runs};
ghost use Rattle.law_frames.specs.Stores.{Act, Choice, Store, trimmed};
ghost use Rattle.law_frames.specs.Ways.{Address, Way, exits, on, yields};
ghost use Rattle.md_code.specs.Blocks.{instruction};
ghost use Rattle.md_code.specs.Details.{IsCodeOf, Routine};
ghost use Rattle.md_flat.specs.Meaning.{On, State, if_charged, less_left, open_results, returned, with_choice};
ghost use Rattle.md_flat.specs.declared.code.Code.{Code};
ghost use Rattle.md_hlds.specs.Hlds.{Hlds};
ghost use Rattle.md_hlds.specs.HldsGoal.{At, HoCallGoal, numbered_goal};
ghost use Rattle.md_hlds.specs.Trace.{Exit, Items};
ghost use Rattle.md_modes.specs.Modes.{mode_fault};
ghost use Rattle.md_reader.specs.Grammar.{Spells};
ghost use Rattle.std.specs.Prelude.{List, None, [], false, length, suc, true, ℕ, ◌++◌, ◌<◌, ◌∷◌, ◌≡◌, ◌≤◌};
ghost use Rattle.md_flat.specs.declared.instruction.Operation.TheVariants as act;

/// An activation that a closure called returns: what its exit hands out is found by the routine of its procedure, since the call's
/// detail has only the arguments. So it is at an exit that leaves a choice.
pub fn returns_from_closures<M>()
    ensures exits { (s : Hlds) → (code : Flat) → (marks : List (M × ℕ)) → (b : ℕ) → (seen : Items) → (st : State M) → (F : Frames) → (p : ℕ) → (S : Store) → (a : Address) → (x y : Act) → (c : List Act) → (cs : List Choice) → Here s code marks b seen st F p S (Runs (exits a false) x (y ∷ c)) x cs cs → (r : CallHere code code.reach st) × (r.detail.call.is_closure ≡ true → (q : Routine) × HasRoutine code (F.shapes x.index).procedure q × (length r.detail.inputs ≤ length q.head) × AfterSeeing s code marks b seen (seen ++ Exit x.number ∷ []) (if_charged p st (On (returned r.frame r.detail.call.next (open_results q.head q.inputs r.detail.inputs) (less_left p st))))) }
    ensures exits_cut { (s : Hlds) → (code : Flat) → (marks : List (M × ℕ)) → (b : ℕ) → (seen : Items) → (st : State M) → (F : Frames) → (p : ℕ) → (S : Store) → (a : Address) → (x y : Act) → (c : List Act) → (cs : List Choice) → Here s code marks b seen st F p S (Runs (exits a true) x (y ∷ c)) x (trimmed (S.heights x.index 0) cs) cs → (r : CallHere code code.reach st) × (r.detail.call.is_closure ≡ true → (q : Routine) × HasRoutine code (F.shapes x.index).procedure q × (length r.detail.inputs ≤ length q.head) × AfterSeeing s code marks b seen (seen ++ Exit x.number ∷ []) (if_charged p st (On (returned r.frame r.detail.call.next (open_results q.head q.inputs r.detail.inputs) (less_left p st))))) }
    ensures leaves { (s : Hlds) → (code : Flat) → (marks : List (M × ℕ)) → (b : ℕ) → (seen : Items) → (st : State M) → (F : Frames) → (p : ℕ) → (S : Store) → (a : Address) → (x y : Act) → (c : List Act) → (cs : List Choice) → (again other : ℕ) → HasAt code again (instruction 0 other act.Redo) → FailsAt s code (F.shapes x.index) other 0 a → suc st.height < length st.choices → Here s code marks b seen st F p S (Runs (yields a) x (y ∷ c)) x cs cs → (r : CallHere code code.reach st) × (r.detail.call.is_closure ≡ true → (q : Routine) × HasRoutine code (F.shapes x.index).procedure q × (length r.detail.inputs ≤ length q.head) × AfterSeeing s code marks b seen (seen ++ Exit x.number ∷ []) (if_charged p st (On (returned r.frame r.detail.call.next (open_results q.head q.inputs r.detail.inputs) (with_choice again (F.shapes x.index).size (less_left p st)))))) }
{}

/// A call by a closure, where the code leads along it: the slot has the cell of a closure of a procedure that is there, which takes the
/// call's arguments; and where there is room for its frame, the procedure's body is entered.
pub fn open_calls<M>()
    ensures { (spelled : List ℕ) → (s : Hlds) → Spells spelled s → mode_fault s ≡ None → (code : Code) → IsCodeOf s code → (marks : List (M × ℕ)) → (b : ℕ) → (seen : Items) → (st : State M) → (F : Frames) → (p : ℕ) → (S : Store) → (n l site from : ℕ) → (ys : List ℕ) → (a : Address) → (w : Way) → (x : Act) → (c : List Act) → (cs : List Choice) → (next other : ℕ) → IsApplication (flat_told code) n site (F.shapes x.index).size ys next other → InRange (F.shapes x.index) (from ∷ ys) → Leads s (flat_told code) (F.shapes x.index) next 0 w → FailsAt s (flat_told code) (F.shapes x.index) other 0 a → (h : Here s (flat_told code) marks b seen st F p S (Runs (on a (numbered_goal n (At l (HoCallGoal site from ys))) w) x c) x cs cs) → AppliesTo s (flat_told code) marks b seen st x n from p h.next }
{}
