// Steps of switches over flat code. Each law is the contract of a function that does nothing.
ghost use Rattle.law_flat.specs.Flat.{Flat, HasAt, HasDetail};
ghost use Rattle.law_flat.specs.Keyed.{AreLiterals};
ghost use Rattle.law_flat.specs.Leads.{ArmsLead, FailsAt};
ghost use Rattle.law_flat.specs.Shows.{Frames};
ghost use Rattle.law_flat.specs.Stays.{After, Here};
ghost use Rattle.law_frames.specs.Standing.{Runs};
ghost use Rattle.law_frames.specs.Stores.{Act, Choice, Store};
ghost use Rattle.law_frames.specs.Ways.{Address, Way, on};
ghost use Rattle.md_code.specs.Blocks.{least_functor, shape_keys, instruction, switch_by};
ghost use Rattle.md_code.specs.Details.{switch_detail};
ghost use Rattle.md_code.specs.Tables.{functor_number, second_at};
ghost use Rattle.md_det.specs.Findings.{program_findings, switch_at};
ghost use Rattle.md_det.specs.declared.finding.Switch.{Switch};
ghost use Rattle.md_flat.specs.Meaning.{On, State, slot};
ghost use Rattle.md_hlds.specs.Hlds.{Hlds};
ghost use Rattle.md_hlds.specs.HldsGoal.{At, DisjGoal, HldsGoals, numbered_from, numbered_goal};
ghost use Rattle.md_hlds.specs.Switch.{FunctorKey, IntKey, Key, TextKey};
ghost use Rattle.md_hlds.specs.Trace.{Items};
ghost use Rattle.md_modes.specs.Modes.{mode_fault};
ghost use Rattle.md_reader.specs.Grammar.{Spells};
ghost use Rattle.std.specs.Prelude.{List, None, Some, [], suc, ℕ, ℤ, ◌∷◌, ◌≡◌};
ghost use Rattle.law_flat.specs.Steps.{SwitchStep};
ghost use Rattle.md_flat.specs.Meaning as flat;
ghost use Rattle.md_flat.specs.declared.instruction.Operation.TheVariants as act;

/// A switch by integers or literals goes on at the arm for the value in the slot of its variable, and where none is for it, where it
/// fails; its weight is charged later. The literals are the program's. Where there is no key no arm is taken.
pub fn switches_by_constants<M>()
    ensures integers { (spelled : List ℕ) → (s : Hlds) → (code : Flat) → (marks : List (M × ℕ)) → (b : ℕ) → (seen : Items) → (st : State M) → (F : Frames) → (p : ℕ) → (S : Store) → (n l : ℕ) → (ps : HldsGoals) → (a : Address) → (w : Way) → (x : Act) → (c : List Act) → (cs : List Choice) → (by : Switch) → (i : ℤ) → (ks : List Key) → Spells spelled s → mode_fault s ≡ None → switch_at (program_findings s) n ≡ Some by → shape_keys s ps ≡ IntKey i ∷ ks → AreLiterals s (shape_keys s ps) → ArmsLead s code (F.shapes x.index) n (suc p) a w (numbered_from (suc n) ps) → FailsAt s code (F.shapes x.index) (second_at n) (suc p) a → Here s code marks b seen st F p S (Runs (on a (numbered_goal n (At l (DisjGoal ps))) w) x c) x cs cs → After s code marks b seen (flat.selected by.var (second_at n) (switch_detail s n ps (Some by)).cases st) }
    ensures literals { (spelled : List ℕ) → (s : Hlds) → (code : Flat) → (marks : List (M × ℕ)) → (b : ℕ) → (seen : Items) → (st : State M) → (F : Frames) → (p : ℕ) → (S : Store) → (n l : ℕ) → (ps : HldsGoals) → (a : Address) → (w : Way) → (x : Act) → (c : List Act) → (cs : List Choice) → (by : Switch) → (bytes : List ℕ) → (ks : List Key) → Spells spelled s → mode_fault s ≡ None → switch_at (program_findings s) n ≡ Some by → shape_keys s ps ≡ TextKey bytes ∷ ks → AreLiterals s (shape_keys s ps) → ArmsLead s code (F.shapes x.index) n (suc p) a w (numbered_from (suc n) ps) → FailsAt s code (F.shapes x.index) (second_at n) (suc p) a → Here s code marks b seen st F p S (Runs (on a (numbered_goal n (At l (DisjGoal ps))) w) x c) x cs cs → After s code marks b seen (flat.selected by.var (second_at n) (switch_detail s n ps (Some by)).cases st) }
    ensures none { (spelled : List ℕ) → (s : Hlds) → (code : Flat) → (marks : List (M × ℕ)) → (b : ℕ) → (seen : Items) → (st : State M) → (F : Frames) → (p : ℕ) → (S : Store) → (n l : ℕ) → (ps : HldsGoals) → (a : Address) → (w : Way) → (x : Act) → (c : List Act) → (cs : List Choice) → (by : Switch) → Spells spelled s → mode_fault s ≡ None → switch_at (program_findings s) n ≡ Some by → shape_keys s ps ≡ [] → ArmsLead s code (F.shapes x.index) n (suc p) a w (numbered_from (suc n) ps) → FailsAt s code (F.shapes x.index) (second_at n) (suc p) a → Here s code marks b seen st F p S (Runs (on a (numbered_goal n (At l (DisjGoal ps))) w) x c) x cs cs → After s code marks b seen (On (flat.at (second_at n) st)) }
{}

/// A switch by functors goes on at the arm for the head of the cell in the slot of its variable, and where none is for it, where it
/// fails; its weight is charged later.
pub fn switches_by_functors<M>()
    ensures { (spelled : List ℕ) → (s : Hlds) → (code : Flat) → (marks : List (M × ℕ)) → (b : ℕ) → (seen : Items) → (st : State M) → (F : Frames) → (p : ℕ) → (S : Store) → (n l : ℕ) → (ps : HldsGoals) → (a : Address) → (w : Way) → (x : Act) → (c : List Act) → (cs : List Choice) → (by : Switch) → (f : List ℕ) → (arity : ℕ) → (ks : List Key) → Spells spelled s → mode_fault s ≡ None → switch_at (program_findings s) n ≡ Some by → shape_keys s ps ≡ FunctorKey f arity ∷ ks → ArmsLead s code (F.shapes x.index) n (suc p) a w (numbered_from (suc n) ps) → FailsAt s code (F.shapes x.index) (second_at n) (suc p) a → Here s code marks b seen st F p S (Runs (on a (numbered_goal n (At l (DisjGoal ps))) w) x c) x cs cs → After s code marks b seen (flat.switched (least_functor s (functor_number s f arity) ks) (second_at n) (switch_detail s n ps (Some by)).targets st (slot st by.var)) }
{}

/// Where the code leads along a switch, whichever keys it has, its first instruction is one that makes of the machine what is right.
pub fn switch_goals<M>()
    ensures { (spelled : List ℕ) → (s : Hlds) → (code : Flat) → (marks : List (M × ℕ)) → (b : ℕ) → (seen : Items) → (st : State M) → (F : Frames) → (p : ℕ) → (S : Store) → (n l other : ℕ) → (ps : HldsGoals) → (a : Address) → (w : Way) → (x : Act) → (c : List Act) → (cs : List Choice) → (by : Switch) → (pc : ℕ) → Spells spelled s → mode_fault s ≡ None → switch_at (program_findings s) n ≡ Some by → HasAt code pc (instruction 0 (second_at n) (switch_by s n by.var (shape_keys s ps))) → HasDetail code n (switch_detail s n ps (Some by)) → AreLiterals s (shape_keys s ps) → HasAt code (second_at n) (instruction (suc p) other act.Charge) → ArmsLead s code (F.shapes x.index) n (suc p) a w (numbered_from (suc n) ps) → FailsAt s code (F.shapes x.index) other 0 a → Here s code marks b seen st F p S (Runs (on a (numbered_goal n (At l (DisjGoal ps))) w) x c) x cs cs → SwitchStep s code marks b seen st n by.var pc }
{}
