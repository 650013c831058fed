// Steps of unifications of terms over flat code. Each law is the contract of a function that does nothing.
ghost use Rattle.law_flat.specs.Flat.{Flat, HasAt, HasDetail};
ghost use Rattle.law_flat.specs.Leads.{FailsAt, Leads};
ghost use Rattle.law_flat.specs.Shapes.{InRange};
ghost use Rattle.law_flat.specs.Shows.{Frames};
ghost use Rattle.law_flat.specs.Stays.{After, Here, Taking};
ghost use Rattle.law_flat.specs.Taken.{AreTaken, HasCell, TakesAt};
ghost use Rattle.law_frames.specs.Standing.{Runs};
ghost use Rattle.law_frames.specs.Stores.{Act, Choice, Store};
ghost use Rattle.law_frames.specs.Ways.{Address, Way, on};
ghost use Rattle.md_code.specs.Blocks.{instruction};
ghost use Rattle.md_code.specs.Details.{Detail, simple_detail};
ghost use Rattle.md_code.specs.Tables.{functor_number, functors_of};
ghost use Rattle.md_flat.specs.Meaning.{On, State, put, slot};
ghost use Rattle.md_heap.specs.Cells.{cell_at};
ghost use Rattle.md_heap.specs.declared.value.Value.TheVariants.{Cell};
ghost use Rattle.md_hlds.specs.Hlds.{Hlds};
ghost use Rattle.md_hlds.specs.HldsGoal.{At, SimpleGoal, Unifies, numbered_goal};
ghost use Rattle.md_hlds.specs.Trace.{Items};
ghost use Rattle.md_hlds.specs.declared.goal.PredName.{PredName};
ghost use Rattle.md_hlds.specs.declared.goal.Term.TheVariants.{Name, Var};
ghost use Rattle.md_modes.specs.Classes.{role_at};
ghost use Rattle.md_modes.specs.Modes.{mode_fault};
ghost use Rattle.md_modes.specs.Notes.{constructs, program_notes, takes_apart, tests};
ghost use Rattle.md_reader.specs.Grammar.{Spells};
ghost use Rattle.std.specs.Prelude.{List, None, Some, [], length, suc, ℕ, ◌+◌, ◌<◌, ◌∷◌, ◌≡◌};
ghost use Rattle.md_flat.specs.Meaning as flat;
ghost use Rattle.md_flat.specs.declared.instruction.Operation.TheVariants as act;
ghost use Rattle.md_hlds.specs.Value as value;

/// A constant of a functor is written, which is the functor's own cell, and its weight is charged later. The functor is there.
pub fn constants_of_functors<M>()
    ensures { (spelled : List ℕ) → (s : Hlds) → (code : Flat) → (marks : List (M × ℕ)) → (b : ℕ) → (seen : Items) → (st : State M) → (F : Frames) → (p : ℕ) → (S : Store) → (n l y : ℕ) → (q : PredName) → (a : Address) → (w : Way) → (x : Act) → (c : List Act) → (cs : List Choice) → (next : ℕ) → Spells spelled s → mode_fault s ≡ None → role_at (program_notes s) n ≡ Some constructs → InRange (F.shapes x.index) (y ∷ []) → functor_number s q.name 0 < length (functors_of s) → Leads s code (F.shapes x.index) next (suc p) w → Here s code marks b seen st F p S (Runs (on a (numbered_goal n (At l (SimpleGoal (Unifies y (Name q []))))) w) x c) x cs cs → After s code marks b seen (put y next (Cell (functor_number s q.name 0)) st) }
{}

/// The values of two variables are compared: what is pending, the goal's own weight and each pair of nodes that is looked at are
/// charged together.
pub fn comparisons_of_values<M>()
    ensures { (spelled : List ℕ) → (s : Hlds) → (code : Flat) → (marks : List (M × ℕ)) → (b : ℕ) → (seen : Items) → (st : State M) → (F : Frames) → (p : ℕ) → (S : Store) → (n l y z : ℕ) → (a : Address) → (w : Way) → (x : Act) → (c : List Act) → (cs : List Choice) → (next other : ℕ) → Spells spelled s → mode_fault s ≡ None → role_at (program_notes s) n ≡ Some tests → InRange (F.shapes x.index) (y ∷ z ∷ []) → Leads s code (F.shapes x.index) next 0 w → FailsAt s code (F.shapes x.index) other 0 a → Here s code marks b seen st F p S (Runs (on a (numbered_goal n (At l (SimpleGoal (Unifies y (Var z))))) w) x c) x cs cs → After s code marks b seen (flat.same y z (suc p) next other st) }
{}

/// Where a goal takes a cell apart, its head is tested first: what is pending and the goal's weight are charged. Where no parts are
/// to be compared all are taken next.
pub fn heads_of_cells<M>()
    ensures taken { (spelled : List ℕ) → (s : Hlds) → (code : Flat) → (marks : List (M × ℕ)) → (b : ℕ) → (seen : Items) → (st : State M) → (F : Frames) → (p : ℕ) → (S : Store) → (n l y : ℕ) → (q : PredName) → (zs : List ℕ) → (a : Address) → (w : Way) → (x : Act) → (c : List Act) → (cs : List Choice) → (second next other : ℕ) → Spells spelled s → mode_fault s ≡ None → role_at (program_notes s) n ≡ Some (takes_apart []) → InRange (F.shapes x.index) (y ∷ zs) → TakesAt code n y next second → HasDetail code n (simple_detail s n (Unifies y (Name q zs))) → Leads s code (F.shapes x.index) next 0 w → FailsAt s code (F.shapes x.index) other 0 a → Here s code marks b seen st F p S (Runs (on a (numbered_goal n (At l (SimpleGoal (Unifies y (Name q zs))))) w) x c) x cs cs → After s code marks b seen (flat.head_tested (functor_number s q.name (length zs)) (suc p) second other st (slot st y)) }
    ensures compared { (spelled : List ℕ) → (s : Hlds) → (code : Flat) → (marks : List (M × ℕ)) → (b : ℕ) → (seen : Items) → (st : State M) → (F : Frames) → (p : ℕ) → (S : Store) → (n l y : ℕ) → (q : PredName) → (zs bound : List ℕ) → (a : Address) → (w : Way) → (x : Act) → (c : List Act) → (cs : List Choice) → (second third next other : ℕ) → Spells spelled s → mode_fault s ≡ None → role_at (program_notes s) n ≡ Some (takes_apart bound) → InRange (F.shapes x.index) (y ∷ zs) → HasAt code second (instruction 0 third (act.Meet y n other)) → HasAt code third (instruction 0 next (act.Fields y n)) → HasDetail code n (simple_detail s n (Unifies y (Name q zs))) → Leads s code (F.shapes x.index) next 0 w → FailsAt s code (F.shapes x.index) other 0 a → Here s code marks b seen st F p S (Runs (on a (numbered_goal n (At l (SimpleGoal (Unifies y (Name q zs))))) w) x c) x cs cs → After s code marks b seen (flat.head_tested (functor_number s q.name (length zs)) (suc p) second other st (slot st y)) }
{}

/// Parts of a cell go into the slots of variables: what is due has their values already. Before it nothing may be done.
pub fn parts_of_cells<M>()
    ensures behind { (s : Hlds) → (code : Flat) → (marks : List (M × ℕ)) → (b : ℕ) → (seen : Items) → (st : State M) → (F : Frames) → (S : Store) → (n y cell : ℕ) → (d : Detail) → (values : List (ℕ × value.Value)) → (w : Way) → (x : Act) → (c : List Act) → (cs : List Choice) → (third next : ℕ) → HasAt code third (instruction 0 next (act.Fields y n)) → HasDetail code n d → slot st y ≡ Cell cell → cell < length st.heap → AreTaken s st.heap (cell_at st.heap cell).parts (F.shapes x.index).variables d.outputs values → Leads s code (F.shapes x.index) next 0 w → Taking s code marks b seen st F S values w x c cs → After s code marks b seen (On (flat.at third st)) }
    ensures taken { (s : Hlds) → (code : Flat) → (marks : List (M × ℕ)) → (b : ℕ) → (seen : Items) → (st : State M) → (F : Frames) → (S : Store) → (y cell : ℕ) → (d : Detail) → (values : List (ℕ × value.Value)) → (w : Way) → (x : Act) → (c : List Act) → (cs : List Choice) → (next : ℕ) → slot st y ≡ Cell cell → cell < length st.heap → AreTaken s st.heap (cell_at st.heap cell).parts (F.shapes x.index).variables d.outputs values → Leads s code (F.shapes x.index) next 0 w → Taking s code marks b seen st F S values w x c cs → After s code marks b seen (flat.fields_taken d.outputs next st (slot st y)) }
{}

/// Parts of a cell whose head has been found are compared with variables that have values, up to the first that differs, and each
/// pair of nodes that is looked at is charged. The goal is still due, and its weight has been charged.
pub fn comparisons_of_parts<M>()
    ensures { (spelled : List ℕ) → (s : Hlds) → (code : Flat) → (marks : List (M × ℕ)) → (b : ℕ) → (seen : Items) → (st : State M) → (F : Frames) → (p : ℕ) → (S : Store) → (n l y : ℕ) → (q : PredName) → (zs bound : List ℕ) → (a : Address) → (w : Way) → (x : Act) → (c : List Act) → (cs : List Choice) → (third next other : ℕ) → Spells spelled s → mode_fault s ≡ None → role_at (program_notes s) n ≡ Some (takes_apart bound) → InRange (F.shapes x.index) (y ∷ zs) → HasAt code third (instruction 0 next (act.Fields y n)) → HasDetail code n (simple_detail s n (Unifies y (Name q zs))) → HasCell st y (functor_number s q.name (length zs)) → Leads s code (F.shapes x.index) next 0 w → FailsAt s code (F.shapes x.index) other 0 a → Here s code marks b seen (record st { left = suc p + st.left }) F p S (Runs (on a (numbered_goal n (At l (SimpleGoal (Unifies y (Name q zs))))) w) x c) x cs cs → After s code marks b seen (flat.met y (simple_detail s n (Unifies y (Name q zs))).inputs 0 third other st) }
{}
