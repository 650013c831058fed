// Laws of simple goals by slots. Each is the contract of a function that does nothing.
ghost use Rattle.std.specs.Prelude.{◌≡◌, ℕ, Bool};
ghost use Rattle.md_hlds.specs.HldsGoal.{Simple};
ghost use Rattle.md_hlds.specs.Hlds.{Hlds};
ghost use Rattle.md_hlds.specs.Value.{Value, Env};
ghost use Rattle.md_hlds.specs.Simple.{simple};
ghost use Rattle.md_modes.specs.Goals.{simple_variables};
ghost use Rattle.law_safety.specs.Turns.{IsTidySimple};
ghost use Rattle.law_fits.specs.Fast.{outcome, Tells, fast_simple};

/// Where bits tell which of a simple goal's variables have values, and slots which these are, what the goal does is what
/// they say: the values that it writes, its weight, the words that it allocates, its output, its failure or its exception.
pub fn simple_goals_go_by_slots()
    ensures { (program : Hlds) (bits : ℕ → Bool) (slots : ℕ → Value) (g : Simple) (e : Env) → IsTidySimple g → Tells bits slots (simple_variables g) e → simple program e g ≡ outcome e (fast_simple program bits slots g) }
{}
