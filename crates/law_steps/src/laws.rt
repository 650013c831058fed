// Laws of the abstract machine. Each is the contract of a function that does nothing.
ghost use Rattle.std.specs.Prelude.{◌≡◌, ◌≤◌, ◌<◌, ◌-◌, ◌++◌, ℕ, List, [], ◌∷◌, Some};
ghost use Rattle.md_hlds.specs.HldsGoal.{Numbered};
ghost use Rattle.md_hlds.specs.Hlds.{Hlds, Procedure, procedure_called};
ghost use Rattle.md_hlds.specs.Trace.{Items, Frame, call_weight};
ghost use Rattle.md_hlds.specs.Run.{run, main_name};
ghost use Rattle.law_steps.specs.State.{Wait, State, Goes, Fails, Throws, state};
ghost use Rattle.law_steps.specs.Steps.{returned, retried, unwound, unfolds};
ghost use Rattle.law_steps.specs.Makes.{Makes, beginning, with_main};
ghost use Rattle.law_steps.specs.Standing.{StandsIn, AfterIn, AfterTurnIn};

/// Whatever a machine makes from where main's body begins, with what main's call leaves of the budget, is the rest of the
/// run: its turns, its ports and allocations and what it writes, in order, up to its end.
pub fn machines_make_runs()
    ensures whole { (s : Hlds) (budget : ℕ) (m : ℕ × Procedure) (items : Items) → procedure_called s main_name ≡ Some m → call_weight m.1 ≤ budget → Makes s (budget - call_weight m.1) (beginning s m) items → run s budget ≡ with_main m items }
    ensures none { (s : Hlds) (budget : ℕ) (m : ℕ × Procedure) → procedure_called s main_name ≡ Some m → budget < call_weight m.1 → run s budget ≡ [] }
{}

/// A machine stands in the run where main's body begins, and each step leads it on, or to the run's end; at any time what
/// has been made is a front of the run.
pub fn machines_stand_in_runs()
    ensures begins { (s : Hlds) (budget : ℕ) (m : ℕ × Procedure) → procedure_called s main_name ≡ Some m → call_weight m.1 ≤ budget → StandsIn s budget (budget - call_weight m.1) (with_main m []) (beginning s m) }
    ensures returns { (s : Hlds) (budget left : ℕ) (done : Items) (f : Frame) (js : List Frame) (ws : List Wait) (next : ℕ) → f.goals ≡ [] → StandsIn s budget left done (state (Goes f js) ws next) → AfterIn s budget left done (returned f js ws next) }
    ensures retries { (s : Hlds) (budget left : ℕ) (done : Items) (ws : List Wait) (next : ℕ) → StandsIn s budget left done (state Fails ws next) → AfterIn s budget left done (retried ws next) }
    ensures unwinds { (s : Hlds) (budget left : ℕ) (done : Items) (js : List Frame) (ws : List Wait) (next : ℕ) → StandsIn s budget left done (state (Throws js) ws next) → AfterIn s budget left done (unwound js ws next) }
    ensures turns { (s : Hlds) (budget left : ℕ) (done : Items) (f : Frame) (js : List Frame) (ws : List Wait) (next : ℕ) (p : Numbered) (goals : List Numbered) → f.goals ≡ p ∷ goals → StandsIn s budget left done (state (Goes f js) ws next) → AfterTurnIn s budget left done f.act p.number (unfolds s f p.number goals js ws next p.goal) }
    ensures fronts { (s : Hlds) (budget left : ℕ) (done : Items) (st : State) → StandsIn s budget left done st → (more : Items) × (run s budget ≡ done ++ more) }
{}
