// Steps of a machine over flat code that show a port. Each law is the contract of a function that does nothing.
ghost use Rattle.law_flat.specs.Calls.{Calls};
ghost use Rattle.law_flat.specs.Flat.{Flat, HasAt};
ghost use Rattle.law_flat.specs.Leads.{Enters, FailsAt, Leads};
ghost use Rattle.law_flat.specs.Shapes.{InRange, Shape};
ghost use Rattle.law_flat.specs.Shows.{Frames};
ghost use Rattle.law_flat.specs.Stays.{AfterSeeing, CallHere, Here};
ghost use Rattle.law_frames.specs.Calls.{body_of};
ghost use Rattle.law_frames.specs.Standing.{Misses, Runs};
ghost use Rattle.law_frames.specs.Stores.{Act, Choice, Store, trimmed};
ghost use Rattle.law_frames.specs.Ways.{Address, Way, cut_body, exits, on, port, redoes, whole_body, yields};
ghost use Rattle.law_runs.specs.FitRuns.{called_act, ins_of};
ghost use Rattle.md_code.specs.Blocks.{instruction};
ghost use Rattle.md_code.specs.Details.{call_inputs};
ghost use Rattle.md_code.specs.Leaves.{has_choices, leaves_table};
ghost use Rattle.md_code.specs.Tables.{unwind_address};
ghost use Rattle.md_flat.specs.Meaning.{On, State, entered, given_up, if_charged, less_left, returned, with_choice};
ghost use Rattle.md_hlds.specs.Hlds.{Hlds, Procedure, procedure_called};
ghost use Rattle.md_hlds.specs.HldsGoal.{At, CallGoal, Raises, SimpleGoal, numbered_goal};
ghost use Rattle.md_hlds.specs.Trace.{Call, Exit, Fail, Items, Redo, Throw, call_weight};
ghost use Rattle.md_hlds.specs.declared.goal.PredName.{PredName};
ghost use Rattle.md_modes.specs.Modes.{mode_fault};
ghost use Rattle.md_reader.specs.Grammar.{Spells};
ghost use Rattle.std.specs.Prelude.{List, None, Some, [], false, length, suc, true, ℕ, ◌++◌, ◌+◌, ◌<◌, ◌∷◌, ◌≡◌};
ghost use Rattle.md_flat.specs.declared.instruction.Operation.TheVariants as act;
ghost use Rattle.md_flat.specs.Meaning as flat;

/// An activation with a caller returns or fails: its frame names the call, and the caller goes on where the detail of the call
/// says, at an exit with the outputs in its slots.
pub fn returns_to_callers<M>()
    ensures exits { (s : Hlds) → (code : Flat) → (marks : List (M × ℕ)) → (b : ℕ) → (seen : Items) → (st : State M) → (F : Frames) → (p : ℕ) → (S : Store) → (a : Address) → (x y : Act) → (c : List Act) → (cs : List Choice) → Here s code marks b seen st F p S (Runs (exits a false) x (y ∷ c)) x cs cs → (r : CallHere code code.reach st) × (r.detail.call.is_closure ≡ false → AfterSeeing s code marks b seen (seen ++ Exit x.number ∷ []) (if_charged p st (On (returned r.frame r.detail.call.next r.detail.outputs (less_left p st))))) }
    ensures exits_cut { (s : Hlds) → (code : Flat) → (marks : List (M × ℕ)) → (b : ℕ) → (seen : Items) → (st : State M) → (F : Frames) → (p : ℕ) → (S : Store) → (a : Address) → (x y : Act) → (c : List Act) → (cs : List Choice) → Here s code marks b seen st F p S (Runs (exits a true) x (y ∷ c)) x (trimmed (S.heights x.index 0) cs) cs → (r : CallHere code code.reach st) × (r.detail.call.is_closure ≡ false → AfterSeeing s code marks b seen (seen ++ Exit x.number ∷ []) (if_charged p st (On (returned r.frame r.detail.call.next r.detail.outputs (less_left p st))))) }
    ensures fails { (s : Hlds) → (code : Flat) → (marks : List (M × ℕ)) → (b : ℕ) → (seen : Items) → (st : State M) → (F : Frames) → (S : Store) → (x y : Act) → (c : List Act) → (cs : List Choice) → Here s code marks b seen st F 0 S (Misses port x (y ∷ c)) x cs cs → (r : CallHere code code.reach st) × AfterSeeing s code marks b seen (seen ++ Fail x.number ∷ []) (if_charged 0 st (On (given_up r.frame r.detail.call.other (less_left 0 st)))) }
{}

/// An exit of a body that may have more answers leaves a choice, where there is room for it, which comes back for a redo.
pub fn exits_that_leave<M>()
    ensures { (s : Hlds) → (code : Flat) → (marks : List (M × ℕ)) → (b : ℕ) → (seen : Items) → (st : State M) → (F : Frames) → (p : ℕ) → (S : Store) → (a : Address) → (x y : Act) → (c : List Act) → (cs : List Choice) → (again other : ℕ) → HasAt code again (instruction 0 other act.Redo) → FailsAt s code (F.shapes x.index) other 0 a → suc st.height < length st.choices → Here s code marks b seen st F p S (Runs (yields a) x (y ∷ c)) x cs cs → (r : CallHere code code.reach st) × (r.detail.call.is_closure ≡ false → AfterSeeing s code marks b seen (seen ++ Exit x.number ∷ []) (if_charged p st (On (returned r.frame r.detail.call.next r.detail.outputs (with_choice again (F.shapes x.index).size (less_left p st)))))) }
{}

/// An exception is thrown with the bytes of the literal that a slot has, and the machine goes on where it leaves activations.
pub fn exceptions<M>()
    ensures { (spelled : List ℕ) → (s : Hlds) → (code : Flat) → (marks : List (M × ℕ)) → (b : ℕ) → (seen : Items) → (st : State M) → (F : Frames) → (p : ℕ) → (S : Store) → (n l y : ℕ) → (a : Address) → (w : Way) → (x : Act) → (c : List Act) → (cs : List Choice) → Spells spelled s → mode_fault s ≡ None → InRange (F.shapes x.index) (y ∷ []) → Here s code marks b seen st F p S (Runs (on a (numbered_goal n (At l (SimpleGoal (Raises y)))) w) x c) x cs cs → (bytes : List ℕ) × AfterSeeing s code marks b seen (seen ++ Throw bytes ∷ []) (flat.raised y (suc p) unwind_address st) }
{}

/// A call by name writes a frame above all that are kept, with copies of the inputs, whatever its other slots hold; its body is
/// entered: one that may have more answers, or one that is cut.
pub fn calls<M>()
    ensures whole { (spelled : List ℕ) → (s : Hlds) → (code : Flat) → (marks : List (M × ℕ)) → (b : ℕ) → (seen : Items) → (st : State M) → (F : Frames) → (p : ℕ) → (S : Store) → (n l site : ℕ) → (name : PredName) → (ys : List ℕ) → (a : Address) → (w : Way) → (x : Act) → (c : List Act) → (cs : List Choice) → (q : ℕ × Procedure) → (f : Shape) → (weight entry next other : ℕ) → (mark : M) → Spells spelled s → mode_fault s ≡ None → procedure_called s name ≡ Some q → has_choices q.1.det ≡ true → weight ≡ p + call_weight q.1 → Leads s code f entry 0 (whole_body (leaves_table s) (body_of s q)) → (h : Here s code marks b seen st F p S (Runs (on a (numbered_goal n (At l (CallGoal site name ys))) w) x c) x cs cs) → Calls s code F st x (called_act h.next x cs q [] q.1.args ys a (numbered_goal n (At l (CallGoal site name ys))) w) cs f n (ins_of q.1.args q.1.head ys) → AfterSeeing s code ((mark, h.next) ∷ marks) b seen (seen ++ Call h.next (Some x.number) (Some site) q.0 ∷ []) (if_charged weight st (On (entered n (record { site = site; procedure = q.0; entry = entry; size = (F.shapes x.index).size; next = next; other = other; is_closure = false }) (call_inputs q.1.args q.1.head ys) mark (less_left weight st)))) }
    ensures cut { (spelled : List ℕ) → (s : Hlds) → (code : Flat) → (marks : List (M × ℕ)) → (b : ℕ) → (seen : Items) → (st : State M) → (F : Frames) → (p : ℕ) → (S : Store) → (n l site : ℕ) → (name : PredName) → (ys : List ℕ) → (a : Address) → (w : Way) → (x : Act) → (c : List Act) → (cs : List Choice) → (q : ℕ × Procedure) → (f : Shape) → (weight entry next other : ℕ) → (mark : M) → Spells spelled s → mode_fault s ≡ None → procedure_called s name ≡ Some q → has_choices q.1.det ≡ false → weight ≡ p + call_weight q.1 → Enters s code f entry (cut_body (leaves_table s) (body_of s q)) → (h : Here s code marks b seen st F p S (Runs (on a (numbered_goal n (At l (CallGoal site name ys))) w) x c) x cs cs) → Calls s code F st x (called_act h.next x cs q [] q.1.args ys a (numbered_goal n (At l (CallGoal site name ys))) w) cs f n (ins_of q.1.args q.1.head ys) → AfterSeeing s code ((mark, h.next) ∷ marks) b seen (seen ++ Call h.next (Some x.number) (Some site) q.0 ∷ []) (if_charged weight st (On (entered n (record { site = site; procedure = q.0; entry = entry; size = (F.shapes x.index).size; next = next; other = other; is_closure = false }) (call_inputs q.1.args q.1.head ys) mark (less_left weight st)))) }
{}

/// An activation that has left a choice comes back into its body.
pub fn redos<M>()
    ensures { (s : Hlds) → (code : Flat) → (marks : List (M × ℕ)) → (b : ℕ) → (seen : Items) → (st : State M) → (F : Frames) → (S : Store) → (a : Address) → (x : Act) → (c : List Act) → (cs : List Choice) → (other : ℕ) → FailsAt s code (F.shapes x.index) other 0 a → Here s code marks b seen st F 0 S (Misses (redoes a) x c) x cs cs → AfterSeeing s code marks b seen (seen ++ Redo x.number ∷ []) (if_charged 0 st (On (flat.at other (less_left 0 st)))) }
{}
