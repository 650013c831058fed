// A machine in place makes the run of a program where the modes hold. Each law is the contract of a function that does nothing.
ghost use Rattle.std.specs.Prelude.{◌≡◌, ◌≤◌, ◌<◌, ℕ, ◌+◌, ◌-◌, List, [], ◌∷◌, ◌++◌, Some, None, pos, slice_get};
ghost use Rattle.md_hlds.specs.declared.types.Det.TheVariants.{Det};
ghost use Rattle.md_hlds.specs.Hlds.{Hlds, Procedure, procedure_called};
ghost use Rattle.md_hlds.specs.Value.{Number};
ghost use Rattle.md_hlds.specs.Trace.{Turn, Items, call_weight};
ghost use Rattle.md_hlds.specs.Run.{run, main_name};
ghost use Rattle.law_steps.specs.State.{State};
ghost use Rattle.law_steps.specs.Steps.{Sticks};
ghost use Rattle.law_steps.specs.Makes.{with_main};
ghost use Rattle.md_modes.specs.Modes.{mode_fault};
ghost use Rattle.md_reader.specs.Grammar.{Spells};
ghost use Rattle.law_frames.specs.Ways.{cut_body, main_body};
ghost use Rattle.law_frames.specs.Stores.{Act, Choice, Store};
ghost use Rattle.law_frames.specs.Standing.{Doing, Runs};
ghost use Rattle.law_frames.specs.Moves.{Unfolds, MovesTo, Stops};
ghost use Rattle.law_frames.specs.Running.{visible};
ghost use Rattle.law_frames.specs.Calls.{MainFrame, body_of};
ghost use Rattle.law_fits.specs.States.{FitsState};
ghost use Rattle.md_code.specs.Leaves.{leaves_table};
ghost use Rattle.law_runs.specs.FitRuns.{FitsTurn, FitsMove, FitRun, FitPends, FitTurns, FitCharges};

/// A machine in place begins a run in main's frame, with the code of main's procedure or with code of its own. At each turn a
/// rule applies; steps and turns lead it on, and where the abstract machine ends the run has been made.
pub fn fit_machines_run()
    ensures begins { (bytes : List ℕ) (program : Hlds) → Spells bytes program → mode_fault program ≡ None → (m : ℕ × Procedure) → procedure_called program main_name ≡ Some m → (b : ℕ) → call_weight m.1 ≤ b → (S : Store) (x : Act) → MainFrame m S x → FitRun program b (b - call_weight m.1) (with_main m []) S (Runs (main_body (leaves_table program) (body_of program m)) x []) [] 1 }
    ensures begins_cut { (bytes : List ℕ) (program : Hlds) → Spells bytes program → mode_fault program ≡ None → (m : ℕ × Procedure) → procedure_called program main_name ≡ Some m → (b : ℕ) → call_weight m.1 ≤ b → (S : Store) (x : Act) → MainFrame m S x → FitRun program b (b - call_weight m.1) (with_main m []) S (Runs (cut_body (leaves_table program) (body_of program m)) x []) [] 1 }
    ensures applies { (bytes : List ℕ) (program : Hlds) → Spells bytes program → mode_fault program ≡ None → (st : State) (a n w : ℕ) → Unfolds program st a n (Sticks w) → FitsState program st → ⊥ }
    ensures keeps { (program : Hlds) (st : State) (items : Items) (S : Store) (d : Doing) (cs : List Choice) (k : ℕ) → MovesTo (leaves_table program) st items S d cs k → FitsState program st → FitsMove program st items S d cs k }
    ensures moves { (program : Hlds) (b left : ℕ) (done : Items) (S T : Store) (d e : Doing) (cs ds : List Choice) (k m : ℕ) (items : Items) (r : FitRun program b left done S d cs k) → FitsMove program r.st items T e ds m → FitRun program b left (done ++ items) T e ds m }
    ensures turns { (program : Hlds) (b left : ℕ) (done : Items) (S T : Store) (d e : Doing) (cs ds : List Choice) (k m : ℕ) (a g weight : ℕ) (items : Items) (r : FitRun program b left done S d cs k) → FitsTurn program r.st a g weight items T e ds m → FitTurns program b left done a g weight items T e ds m }
    ensures stops { (program : Hlds) (b left : ℕ) (done items : Items) (S : Store) (d : Doing) (cs : List Choice) (k : ℕ) (r : FitRun program b left done S d cs k) → Stops r.st items → run program b ≡ done ++ items }
{}

/// A program without a fault of modes has a main, which has one answer; its frame, the first, is one whose first variable
/// holds the io state.
pub fn main_is_there()
    ensures there { (bytes : List ℕ) (program : Hlds) → Spells bytes program → mode_fault program ≡ None → (m : ℕ × Procedure) × (procedure_called program main_name ≡ Some m) × (slice_get program.procedures m.0 ≡ Some m.1) × (m.1.det ≡ Det) }
    ensures frame { (m : ℕ × Procedure) (S : Store) (x : Act) → S.acts x.index ≡ x → x.index ≡ 0 → x.number ≡ 0 → ((h : ℕ) (rest : List ℕ) → m.1.head ≡ h ∷ rest → S.values x.index h ≡ Number (pos 0)) → MainFrame m S x }
{}

/// So it is where weights are charged later: a turn without items is deferred, steps without items are made, and a turn with
/// items charges what is pending together with its own weight. Where the budget has no room for it, the run has ended, and
/// what is seen of it has been made.
pub fn fit_machines_defer()
    ensures nothing { (program : Hlds) (b left : ℕ) (done : Items) (S : Store) (d : Doing) (cs : List Choice) (k : ℕ) → FitRun program b left done S d cs k → FitPends program b left 0 done S d cs k }
    ensures defers { (program : Hlds) (b left p : ℕ) (done : Items) (S T : Store) (d e : Doing) (cs ds : List Choice) (k m : ℕ) (a g weight : ℕ) (r : FitPends program b left p done S d cs k) → FitsTurn program r.st a g weight [] T e ds m → FitPends program b left (p + weight) (done ++ (Turn a (Some g) weight ∷ [])) T e ds m }
    ensures moves { (program : Hlds) (b left p : ℕ) (done : Items) (S T : Store) (d e : Doing) (cs ds : List Choice) (k m : ℕ) (r : FitPends program b left p done S d cs k) → FitsMove program r.st [] T e ds m → FitPends program b left p done T e ds m }
    ensures charges { (program : Hlds) (b left p : ℕ) (done : Items) (S T : Store) (d e : Doing) (cs ds : List Choice) (k m : ℕ) (a g weight : ℕ) (items : Items) (r : FitPends program b left p done S d cs k) → FitsTurn program r.st a g weight items T e ds m → FitCharges program b left p done a g weight items T e ds m }
    ensures moves_charged { (program : Hlds) (b left p : ℕ) (done : Items) (S T : Store) (d e : Doing) (cs ds : List Choice) (k m : ℕ) (items : Items) (r : FitPends program b left p done S d cs k) → p ≤ left → FitsMove program r.st items T e ds m → FitRun program b (left - p) (done ++ items) T e ds m }
    ensures stops_charged { (program : Hlds) (b left p : ℕ) (done items : Items) (S : Store) (d : Doing) (cs : List Choice) (k : ℕ) (r : FitPends program b left p done S d cs k) → p ≤ left → Stops r.st items → run program b ≡ done ++ items }
    ensures charged { (program : Hlds) (b left p : ℕ) (done : Items) (S : Store) (d : Doing) (cs : List Choice) (k : ℕ) → FitPends program b left p done S d cs k → p ≤ left → FitRun program b (left - p) done S d cs k }
    ensures refused { (program : Hlds) (b left p : ℕ) (done : Items) (S : Store) (d : Doing) (cs : List Choice) (k : ℕ) → FitPends program b left p done S d cs k → left < p → visible (run program b) ≡ visible done }
{}
