// Laws of the modes at each state of the abstract machine. Each is the contract of a function that does nothing.
ghost use Rattle.std.specs.Prelude.{◌≡◌, ℕ, List, [], ◌∷◌, Some, None};
ghost use Rattle.md_hlds.specs.HldsGoal.{Numbered};
ghost use Rattle.md_hlds.specs.Hlds.{Hlds, Procedure, procedure_called};
ghost use Rattle.md_hlds.specs.Trace.{Frame};
ghost use Rattle.md_hlds.specs.Run.{main_name};
ghost use Rattle.law_steps.specs.State.{Wait, Goes, Fails, Throws, state};
ghost use Rattle.law_steps.specs.Steps.{returned, retried, unwound, unfolds};
ghost use Rattle.law_steps.specs.Makes.{beginning};
ghost use Rattle.md_modes.specs.Modes.{mode_fault};
ghost use Rattle.md_reader.specs.Grammar.{Spells};
ghost use Rattle.law_safety.specs.Known.{FitsAt};
ghost use Rattle.law_fits.specs.States.{FitsState, FitsStep, FitsUnfolded};

/// The modes of a program that a text spells and that has no fault of modes hold where main's body begins, and each step of
/// the abstract machine keeps them. At a turn a rule applies.
pub fn modes_hold_at_each_state()
    ensures begins { (bytes : List ℕ) (program : Hlds) → Spells bytes program → mode_fault program ≡ None → (m : ℕ × Procedure) → procedure_called program main_name ≡ Some m → FitsState program (beginning program m) }
    ensures returns { (program : Hlds) (f : Frame) (js : List Frame) (ws : List Wait) (next : ℕ) → f.goals ≡ [] → FitsState program (state (Goes f js) ws next) → FitsStep program (returned f js ws next) }
    ensures retries { (program : Hlds) (ws : List Wait) (next : ℕ) → FitsState program (state Fails ws next) → FitsStep program (retried ws next) }
    ensures unwinds { (program : Hlds) (js : List Frame) (ws : List Wait) (next : ℕ) → FitsState program (state (Throws js) ws next) → FitsStep program (unwound js ws next) }
    ensures turns { (bytes : List ℕ) (program : Hlds) → Spells bytes program → mode_fault program ≡ None → (f : Frame) (js : List Frame) (ws : List Wait) (next : ℕ) (g : Numbered) (goals : List Numbered) → f.goals ≡ g ∷ goals → FitsState program (state (Goes f js) ws next) → FitsUnfolded program (unfolds program f g.number goals js ws next g.goal) }
{}

/// At a turn the environment fits what the mode rules know before the goal, as it does at each turn of a run.
pub fn turns_of_states_fit()
    ensures { (program : Hlds) (f : Frame) (js : List Frame) (ws : List Wait) (next : ℕ) (g : Numbered) (goals : List Numbered) → f.goals ≡ g ∷ goals → FitsState program (state (Goes f js) ws next) → FitsAt program f.env g goals }
{}
