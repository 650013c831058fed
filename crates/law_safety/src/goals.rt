// Laws of the answers of one goal by itself, at its place in a clause and in an environment that fits what is known before
// it. Each is the contract of a function that does nothing.
ghost use Rattle.std.specs.Prelude.{◌≡◌, ℕ, Bool, true, List, Some, None, slice_get};
ghost use Rattle.md_hlds.specs.HldsGoal.{HldsGoal, At, DisjGoal, HldsGoals, Numbered};
ghost use Rattle.md_hlds.specs.Hlds.{Procedure, Hlds};
ghost use Rattle.md_hlds.specs.Value.{Env};
ghost use Rattle.md_hlds.specs.Trace.{Frame};
ghost use Rattle.md_inst.specs.Instantiation.{InstMap};
ghost use Rattle.md_modes.specs.Goals.{variables, parts_variables};
ghost use Rattle.md_modes.specs.Modes.{mode_fault};
ghost use Rattle.md_det.specs.declared.finding.Switch.{Switch};
ghost use Rattle.md_det.specs.Switches.{switch_of};
ghost use Rattle.md_det.specs.Determinism.{goal_pair};
ghost use Rattle.md_det.specs.Faults.{det_fault};
ghost use Rattle.md_det.specs.Findings.{program_findings};
ghost use Rattle.md_reader.specs.Grammar.{Spells};
ghost use Rattle.law_safety.specs.Values.{Fits};
ghost use Rattle.law_safety.specs.Known.{place, Begins, switches_on, IsChosen, FitsAt};
ghost use Rattle.law_safety.specs.GoalAnswers.{AnswersAt, TakesArm, found_at};

/// Each goal of an accepted program has as many answers as its pair says: at least one where it can't fail, at most one
/// where its bound is one, none where it is zero. That is said of each trace of the goal by itself that is deep enough and
/// not thrown. Of the arm of a switch it is said where the switch's variable has the functor or constant of that arm, as it
/// has at a turn of a run.
pub fn goals_answer_as_their_pair()
    ensures at_a_place { (bytes : List ℕ) (program : Hlds) → Spells bytes program → mode_fault program ≡ None → det_fault program ≡ None → (q : ℕ × Procedure) (strict : Bool) (n : ℕ) (p : HldsGoal) (known : InstMap) → slice_get program.procedures q.0 ≡ Some q.1 → (before : Begins program q strict n p known) → (f : Frame) → Fits program (variables p) known f.env → IsChosen program (switches_on before) p f.env → (depth next : ℕ) → AnswersAt program f n p (goal_pair (place program q.1 strict) (switches_on before) p known) depth next }
    ensures at_a_turn { (bytes : List ℕ) (program : Hlds) → Spells bytes program → mode_fault program ≡ None → det_fault program ≡ None → (f : Frame) (g : Numbered) (goals : List Numbered) → (turn : FitsAt program f.env g goals) → (depth next : ℕ) → AnswersAt program f g.number g.goal (goal_pair (place program turn.procedure.1 turn.strict) (switches_on turn.before) g.goal turn.known) depth next }
{}

/// A disjunction that is a switch with no functor missing takes an arm, one whose functor the variable's value has.
pub fn whole_switches_take_an_arm()
    ensures { (bytes : List ℕ) (program : Hlds) → Spells bytes program → mode_fault program ≡ None → (q : ℕ × Procedure) (strict : Bool) (n l : ℕ) (ps : HldsGoals) (known : InstMap) → slice_get program.procedures q.0 ≡ Some q.1 → Begins program q strict n (At l (DisjGoal ps)) known → (e : Env) → Fits program (parts_variables ps) known e → (w : Switch) → switch_of program ps known ≡ Some w → w.whole ≡ true → TakesArm program e w.var n ps }
{}

/// What the checks find at a goal's number is its pair, with the switch whose arm it begins, and the switch that it is.
pub fn pairs_are_found()
    ensures { (program : Hlds) (q : ℕ × Procedure) (strict : Bool) (n : ℕ) (p : HldsGoal) (known : InstMap) → slice_get program.procedures q.0 ≡ Some q.1 → (before : Begins program q strict n p known) → slice_get (program_findings program) n ≡ Some (found_at program q.1 strict (switches_on before) p known) }
{}
