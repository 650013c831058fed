// A machine in place makes the run. Each law is the contract of a function that does nothing.
ghost use Rattle.std.specs.Prelude.{◌≡◌, ◌≤◌, ◌<◌, ℕ, ◌+◌, ◌-◌, List, [], ◌∷◌, ◌++◌, Some};
ghost use Rattle.md_hlds.specs.Hlds.{Hlds, Procedure, procedure_called};
ghost use Rattle.md_hlds.specs.Trace.{Turn, Items, call_weight};
ghost use Rattle.md_hlds.specs.Run.{run, main_name, cut, events, output, is_finished, error};
ghost use Rattle.law_steps.specs.State.{State};
ghost use Rattle.law_steps.specs.Steps.{Turns, Sticks};
ghost use Rattle.law_steps.specs.Standing.{StandsIn};
ghost use Rattle.law_steps.specs.Makes.{beginning, with_main};
ghost use Rattle.law_frames.specs.Ways.{Leaves, Way, cut_body, whole_body, main_body};
ghost use Rattle.law_frames.specs.Stores.{Act, Choice, Store, IsStacked};
ghost use Rattle.law_frames.specs.Standing.{Doing, Runs, Stands, AreFramed};
ghost use Rattle.law_frames.specs.Moves.{Moves, Unfolds, MovesTo, Stops, TurnsTo};
ghost use Rattle.law_frames.specs.Calls.{MainFrame, body_of};
ghost use Rattle.law_frames.specs.Running.{InRun, TurnsOn, SticksOn, visible, Pends, PendRun, TurnsCharged, Folds};

/// Main's body begins, with the code of its procedure or with code of its own, and the machine stands in the run.
pub fn main_begins()
    ensures cut { (s : Hlds) (lv : Leaves) (m : ℕ × Procedure) (S : Store) (x : Act) → MainFrame m S x → Stands lv S (Runs (cut_body lv (body_of s m)) x []) [] 1 (beginning s m) }
    ensures whole { (s : Hlds) (lv : Leaves) (m : ℕ × Procedure) (S : Store) (x : Act) → MainFrame m S x → Stands lv S (Runs (whole_body lv (body_of s m)) x []) [] 1 (beginning s m) }
    ensures own { (s : Hlds) (lv : Leaves) (m : ℕ × Procedure) (S : Store) (x : Act) → MainFrame m S x → Stands lv S (Runs (main_body lv (body_of s m)) x []) [] 1 (beginning s m) }
    ensures in_run { (s : Hlds) (lv : Leaves) (b : ℕ) (m : ℕ × Procedure) (S : Store) (d : Doing) → procedure_called s main_name ≡ Some m → call_weight m.1 ≤ b → Stands lv S d [] 1 (beginning s m) → InRun s lv b (b - call_weight m.1) (with_main m []) S d [] 1 }
{}

/// A machine that stands in the run stands in it after each step and each turn, or has made the run. While one runs, its
/// head and those of its callers stand in their frames, each above its callers.
pub fn machines_run()
    ensures moves { (s : Hlds) (lv : Leaves) (b left : ℕ) (done items : Items) (S T : Store) (d e : Doing) (cs ds : List Choice) (k m : ℕ) (r : InRun s lv b left done S d cs k) → MovesTo lv r.st items T e ds m → InRun s lv b left (done ++ items) T e ds m }
    ensures stops { (s : Hlds) (lv : Leaves) (b left : ℕ) (done items : Items) (S : Store) (d : Doing) (cs : List Choice) (k : ℕ) (r : InRun s lv b left done S d cs k) → Stops r.st items → run s b ≡ done ++ items }
    ensures turns { (s : Hlds) (lv : Leaves) (b left : ℕ) (done : Items) (a g weight : ℕ) (items : Items) (S T : Store) (d e : Doing) (cs ds : List Choice) (k m : ℕ) (r : InRun s lv b left done S d cs k) → TurnsTo s lv r.st a g weight items T e ds m → TurnsOn s lv b left done a g weight items T e ds m }
    ensures sticks { (s : Hlds) (lv : Leaves) (b left : ℕ) (done : Items) (a g weight : ℕ) (S : Store) (d : Doing) (cs : List Choice) (k : ℕ) (r : InRun s lv b left done S d cs k) → Unfolds s r.st a g (Sticks weight) → SticksOn s b left done a g weight }
    ensures framed { (lv : Leaves) (S : Store) (w : Way) (x : Act) (c : List Act) (cs : List Choice) (k : ℕ) (st : State) → Stands lv S (Runs w x c) cs k st → AreFramed S (x ∷ c) }
{}

/// Weights may be charged later, together, while nothing is seen: events, output, end and error are the same. A turn that
/// makes no items, and steps that make none, may be passed while weights are pending; what is seen is made once they are
/// charged, and where the budget has no room for them the run has ended before.
pub fn weights_fold()
    ensures alike { (xs ys : Items) → Folds 0 xs ys → (left : ℕ) → visible (cut left xs) ≡ visible (cut left ys) }
    ensures seen { (xs ys : Items) → visible xs ≡ visible ys → (events xs ≡ events ys) × (output xs ≡ output ys) × (is_finished xs ≡ is_finished ys) × (error xs ≡ error ys) }
    ensures nothing { (s : Hlds) (b left : ℕ) (done : Items) (st : State) → StandsIn s b left done st → Pends s b left 0 done st }
    ensures silent_turn { (s : Hlds) (b left p : ℕ) (done : Items) (st there : State) (a g w : ℕ) → Pends s b left p done st → Unfolds s st a g (Turns w [] there) → Pends s b left (p + w) (done ++ (Turn a (Some g) w ∷ [])) there }
    ensures silent_steps { (s : Hlds) (b left p : ℕ) (done : Items) (st there : State) → Pends s b left p done st → Moves st [] there → Pends s b left p done there }
    ensures begins { (s : Hlds) (lv : Leaves) (b left : ℕ) (done : Items) (S : Store) (d : Doing) (cs : List Choice) (k : ℕ) → InRun s lv b left done S d cs k → PendRun s lv b left 0 done S d cs k }
    ensures turns_silently { (s : Hlds) (lv : Leaves) (b left p : ℕ) (done : Items) (a g weight : ℕ) (S T : Store) (d e : Doing) (cs ds : List Choice) (k m : ℕ) (r : PendRun s lv b left p done S d cs k) → TurnsTo s lv r.st a g weight [] T e ds m → PendRun s lv b left (p + weight) (done ++ (Turn a (Some g) weight ∷ [])) T e ds m }
    ensures moves_silently { (s : Hlds) (lv : Leaves) (b left p : ℕ) (done : Items) (S T : Store) (d e : Doing) (cs ds : List Choice) (k m : ℕ) (r : PendRun s lv b left p done S d cs k) → MovesTo lv r.st [] T e ds m → PendRun s lv b left p done T e ds m }
    ensures turns_charged { (s : Hlds) (lv : Leaves) (b left p : ℕ) (done : Items) (a g weight : ℕ) (items : Items) (S T : Store) (d e : Doing) (cs ds : List Choice) (k m : ℕ) (r : PendRun s lv b left p done S d cs k) → TurnsTo s lv r.st a g weight items T e ds m → TurnsCharged s lv b left p done a g weight items T e ds m }
    ensures moves_charged { (s : Hlds) (lv : Leaves) (b left p : ℕ) (done items : Items) (S T : Store) (d e : Doing) (cs ds : List Choice) (k m : ℕ) (r : PendRun s lv b left p done S d cs k) → p ≤ left → MovesTo lv r.st items T e ds m → InRun s lv b (left - p) (done ++ items) T e ds m }
    ensures stops_charged { (s : Hlds) (lv : Leaves) (b left p : ℕ) (done items : Items) (S : Store) (d : Doing) (cs : List Choice) (k : ℕ) (r : PendRun s lv b left p done S d cs k) → p ≤ left → Stops r.st items → run s b ≡ done ++ items }
    ensures charged { (s : Hlds) (lv : Leaves) (b left p : ℕ) (done : Items) (S : Store) (d : Doing) (cs : List Choice) (k : ℕ) → p ≤ left → PendRun s lv b left p done S d cs k → InRun s lv b (left - p) done S d cs k }
    ensures refused { (s : Hlds) (lv : Leaves) (b left p : ℕ) (done : Items) (S : Store) (d : Doing) (cs : List Choice) (k : ℕ) → left < p → PendRun s lv b left p done S d cs k → visible (run s b) ≡ visible done }
{}
