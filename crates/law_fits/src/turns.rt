// Laws of one turn, where the environment fits what the mode rules know before the goal. Each is the contract of a function
// that does nothing.
ghost use Rattle.std.specs.Prelude.{◌≡◌, ◌<◌, ℕ, List, ◌∷◌, Some, None, is_some};
ghost use Rattle.md_hlds.specs.declared.goal.PredName.{PredName};
ghost use Rattle.md_hlds.specs.HldsGoal.{Simple, At, SimpleGoal, CallGoal, HoCallGoal, Numbered};
ghost use Rattle.md_hlds.specs.Hlds.{Hlds};
ghost use Rattle.md_hlds.specs.Value.{Value, Env, value_at};
ghost use Rattle.md_hlds.specs.Simple.{simple};
ghost use Rattle.md_inst.specs.Instantiation.{known_at, times};
ghost use Rattle.md_modes.specs.Goals.{variables, simple_variables};
ghost use Rattle.md_modes.specs.Modes.{mode_fault};
ghost use Rattle.md_reader.specs.Grammar.{Spells};
ghost use Rattle.law_safety.specs.Values.{Agrees};
ghost use Rattle.law_safety.specs.Known.{FitsAt};
ghost use Rattle.law_fits.specs.Fast.{outcome, fast_simple};
ghost use Rattle.law_fits.specs.Reads.{reads_at};
ghost use Rattle.law_fits.specs.Handing.{HandsNamed, HandsOpen};

/// At a turn each variable of the goal has a value of its type where it is known as bound, and none where it is known as
/// free. Which variables a simple goal and a call have values of is what `reads_at` says for the goal's number.
pub fn turns_read_what_is_noted()
    ensures known { (program : Hlds) (e : Env) (g : Numbered) (goals : List Numbered) (turn : FitsAt program e g goals) (y : ℕ) → 0 < times y (variables g.goal) → Agrees program (value_at e y) (known_at turn.known y) }
    ensures simple { (program : Hlds) (e : Env) (g : Numbered) (goals : List Numbered) (line : ℕ) (t : Simple) (y : ℕ) → FitsAt program e g goals → g.goal ≡ At line (SimpleGoal t) → 0 < times y (simple_variables t) → is_some (value_at e y) ≡ reads_at program g.number y }
    ensures named { (bytes : List ℕ) (program : Hlds) → Spells bytes program → mode_fault program ≡ None → (e : Env) (g : Numbered) (goals : List Numbered) (line site : ℕ) (name : PredName) (ys : List ℕ) (y : ℕ) → FitsAt program e g goals → g.goal ≡ At line (CallGoal site name ys) → 0 < times y ys → is_some (value_at e y) ≡ reads_at program g.number y }
    ensures open_call { (bytes : List ℕ) (program : Hlds) → Spells bytes program → mode_fault program ≡ None → (e : Env) (g : Numbered) (goals : List Numbered) (line site x : ℕ) (ys : List ℕ) (y : ℕ) → FitsAt program e g goals → g.goal ≡ At line (HoCallGoal site x ys) → 0 < times y (x ∷ ys) → is_some (value_at e y) ≡ reads_at program g.number y }
{}

/// At a turn a simple goal does what slots say that hold the values of its variables which have one; what is in the others'
/// is not asked.
pub fn turns_go_by_slots()
    ensures { (program : Hlds) (slots : ℕ → Value) (e : Env) (g : Numbered) (goals : List Numbered) (line : ℕ) (t : Simple) → FitsAt program e g goals → g.goal ≡ At line (SimpleGoal t) → ((y : ℕ) → 0 < times y (simple_variables t) → (v : Value) → value_at e y ≡ Some v → slots y ≡ v) → simple program e t ≡ outcome e (fast_simple program (reads_at program g.number) slots t) }
{}

/// At a turn of a call the procedure is there; of its arguments exactly the inputs have values. A call by a closure meets one
/// of the type that the checks note.
pub fn calls_hand_over()
    ensures named { (bytes : List ℕ) (program : Hlds) → Spells bytes program → mode_fault program ≡ None → (e : Env) (g : Numbered) (goals : List Numbered) (line site : ℕ) (name : PredName) (ys : List ℕ) → FitsAt program e g goals → g.goal ≡ At line (CallGoal site name ys) → HandsNamed program e name ys }
    ensures open_call { (bytes : List ℕ) (program : Hlds) → Spells bytes program → mode_fault program ≡ None → (e : Env) (g : Numbered) (goals : List Numbered) (line site x : ℕ) (ys : List ℕ) → FitsAt program e g goals → g.goal ≡ At line (HoCallGoal site x ys) → HandsOpen program e g.number x ys }
{}
