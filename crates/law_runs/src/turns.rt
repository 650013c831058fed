// Turns of a machine in place at states where the modes hold. Each law is the contract of a function that does nothing.
ghost use Rattle.std.specs.Prelude.{◌≡◌, ℕ, suc, ◌+◌, List, [], ◌∷◌, length, None};
ghost use Rattle.md_hlds.specs.HldsGoal.{Simple, HldsGoal, At, SimpleGoal, ConjGoal, DisjGoal, IfGoal, NotGoal, SomeGoal, HldsGoals, goal_size, Numbered, numbered_goal};
ghost use Rattle.md_hlds.specs.Hlds.{Hlds};
ghost use Rattle.md_hlds.specs.Value.{Env};
ghost use Rattle.law_steps.specs.State.{State};
ghost use Rattle.md_modes.specs.Goals.{simple_variables};
ghost use Rattle.md_modes.specs.Modes.{mode_fault};
ghost use Rattle.md_det.specs.Findings.{program_findings, switch_at};
ghost use Rattle.md_reader.specs.Grammar.{Spells};
ghost use Rattle.law_safety.specs.Known.{FitsAt};
ghost use Rattle.law_frames.specs.Ways.{Address, to, Way, on, goals_of, part_way, parts_way, condition_way, negation_way, some_way};
ghost use Rattle.law_frames.specs.Stores.{Act, Choice, choice, choice_if, Store, with_height_if};
ghost use Rattle.law_frames.specs.Standing.{Runs, Stands};
ghost use Rattle.law_frames.specs.Moves.{env_of};
ghost use Rattle.law_frames.specs.Leaving.{LeavesRight};
ghost use Rattle.law_fits.specs.Fast.{Hold, fast_simple};
ghost use Rattle.law_fits.specs.States.{FitsState};
ghost use Rattle.law_fits.specs.Reads.{reads_at};
ghost use Rattle.md_code.specs.Leaves.{leaves_table};
ghost use Rattle.law_runs.specs.FitRuns.{FitsTurn, AfterEffect, AfterSwitch};

/// What the checks find of the goals that leave choices is right at each turn that fits; and the turn of a goal on a way of a
/// machine in place fits, where the modes hold at its state.
pub fn choices_are_right()
    ensures right { (bytes : List ℕ) (program : Hlds) → Spells bytes program → mode_fault program ≡ None → (e : Env) (g : Numbered) (goals : List Numbered) → FitsAt program e g goals → LeavesRight program (leaves_table program) g.number e g.goal }
    ensures here { (program : Hlds) (S : Store) (a : Address) (p : Numbered) (w : Way) (x : Act) (c : List Act) (cs : List Choice) (k : ℕ) (st : State) → Stands (leaves_table program) S (Runs (on a p w) x c) cs k st → FitsState program st → FitsAt program (env_of st) p (goals_of w) }
{}

/// A simple goal does with the slots of its frame what they say, by which of its variables have values as the checks note it:
/// it writes values and the way goes on, or it fails, or it throws.
pub fn simple_turns()
    ensures { (bytes : List ℕ) (program : Hlds) → Spells bytes program → mode_fault program ≡ None → (S : Store) (a : Address) (n line : ℕ) (g : Simple) (w : Way) (x : Act) (c : List Act) (cs : List Choice) (k : ℕ) (st : State) → Stands (leaves_table program) S (Runs (on a (numbered_goal n (At line (SimpleGoal g))) w) x c) cs k st → FitsState program st → AfterEffect program st S n a w x c cs k (fast_simple program (reads_at program n) (S.values x.index) g) }
{}

/// The slots of the frame hold the values of a simple goal's variables that have one: so what the goal does with them, by the
/// role that the checks note, is what the laws of simple goals say.
pub fn slots_hold_what_is_read()
    ensures { (program : Hlds) (S : Store) (a : Address) (n line : ℕ) (g : Simple) (w : Way) (x : Act) (c : List Act) (cs : List Choice) (k : ℕ) (st : State) → Stands (leaves_table program) S (Runs (on a (numbered_goal n (At line (SimpleGoal g))) w) x c) cs k st → Hold (S.values x.index) (simple_variables g) (env_of st) }
{}

/// A conjunction goes on with its parts, an if-then-else, a negation and a quantified goal with their conditions, above a
/// choice where those may leave one.
pub fn turns_of_parts()
    ensures conjunction { (bytes : List ℕ) (program : Hlds) → Spells bytes program → mode_fault program ≡ None → (S : Store) (a : Address) (n line : ℕ) (ps : HldsGoals) (w : Way) (x : Act) (c : List Act) (cs : List Choice) (k : ℕ) (st : State) → Stands (leaves_table program) S (Runs (on a (numbered_goal n (At line (ConjGoal ps))) w) x c) cs k st → FitsState program st → FitsTurn program st x.number n 1 [] S (Runs (parts_way (leaves_table program) (suc n) ps a w) x c) cs k }
    ensures condition { (bytes : List ℕ) (program : Hlds) → Spells bytes program → mode_fault program ≡ None → (S : Store) (a : Address) (n line : ℕ) (p t e : HldsGoal) (w : Way) (x : Act) (c : List Act) (cs : List Choice) (k : ℕ) (st : State) → Stands (leaves_table program) S (Runs (on a (numbered_goal n (At line (IfGoal p t e))) w) x c) cs k st → FitsState program st → FitsTurn program st x.number n 1 [] (with_height_if (leaves_table program (suc n)) S x.index (suc n) (length cs)) (Runs (condition_way (leaves_table program) n (numbered_goal (suc n) p) (part_way (leaves_table program) n a (numbered_goal (suc n + goal_size p) t) w) (part_way (leaves_table program) n a (numbered_goal (suc n + goal_size p + goal_size t) e) w)) x c) (choice_if (leaves_table program (suc n)) (choice x c (to (part_way (leaves_table program) n a (numbered_goal (suc n + goal_size p + goal_size t) e) w))) cs) k }
    ensures negation { (bytes : List ℕ) (program : Hlds) → Spells bytes program → mode_fault program ≡ None → (S : Store) (a : Address) (n line : ℕ) (p : HldsGoal) (w : Way) (x : Act) (c : List Act) (cs : List Choice) (k : ℕ) (st : State) → Stands (leaves_table program) S (Runs (on a (numbered_goal n (At line (NotGoal p))) w) x c) cs k st → FitsState program st → FitsTurn program st x.number n 1 [] (with_height_if (leaves_table program (suc n)) S x.index (suc n) (length cs)) (Runs (negation_way (leaves_table program) n a (numbered_goal (suc n) p) w) x c) (choice_if (leaves_table program (suc n)) (choice x c (to w)) cs) k }
    ensures quantified { (bytes : List ℕ) (program : Hlds) → Spells bytes program → mode_fault program ≡ None → (S : Store) (a : Address) (n line : ℕ) (vs : List ℕ) (p : HldsGoal) (w : Way) (x : Act) (c : List Act) (cs : List Choice) (k : ℕ) (st : State) → Stands (leaves_table program) S (Runs (on a (numbered_goal n (At line (SomeGoal vs p))) w) x c) cs k st → FitsState program st → FitsTurn program st x.number n 1 [] (with_height_if (leaves_table program (suc n)) S x.index (suc n) (length cs)) (Runs (some_way (leaves_table program) n a (numbered_goal (suc n) p) w) x c) cs k }
{}

/// A disjunction that is a switch by the checks takes the arm for the value in the slot of its variable, or fails; any other
/// tries its arms.
pub fn turns_of_disjunctions()
    ensures { (bytes : List ℕ) (program : Hlds) → Spells bytes program → mode_fault program ≡ None → (S : Store) (a : Address) (n line : ℕ) (ps : HldsGoals) (w : Way) (x : Act) (c : List Act) (cs : List Choice) (k : ℕ) (st : State) → Stands (leaves_table program) S (Runs (on a (numbered_goal n (At line (DisjGoal ps))) w) x c) cs k st → FitsState program st → AfterSwitch program st S n a w x c cs k ps (switch_at (program_findings program) n) }
{}
