// Laws of all turns of a run. Each is the contract of a function that does nothing.
ghost use Rattle.std.specs.Prelude.{◌≡◌, ℕ, Bool, List, Some, None, slice_get};
ghost use Rattle.md_hlds.specs.HldsGoal.{HldsGoal};
ghost use Rattle.md_hlds.specs.Hlds.{Procedure, Hlds, procedure_called};
ghost use Rattle.md_hlds.specs.Trace.{Frame, trace};
ghost use Rattle.md_hlds.specs.Run.{main_name, run};
ghost use Rattle.md_inst.specs.Instantiation.{InstMap};
ghost use Rattle.md_modes.specs.Modes.{mode_fault};
ghost use Rattle.md_reader.specs.Grammar.{Spells};
ghost use Rattle.law_safety.specs.Known.{Begins, FitsFirst, FitsInRun, IsNoted};
ghost use Rattle.law_safety.specs.Unfolding.{Job, job, main_job, Comes, HasTurn, ComesToTurn};

/// At each turn of a run of an accepted program exactly those of the variables of the goal, of the goals that its frame
/// still has to do, and of its clause's head have values that the mode rules have as bound before the goal, and each value
/// is of its type; and a goal that begins an arm of a switch is the arm for the value of the switch's variable. So it is at
/// each turn that main's trace comes to, to whatever depth.
pub fn turns_fit()
    ensures of_a_run { (bytes : List ℕ) (program : Hlds) → Spells bytes program → mode_fault program ≡ None → (budget a n : ℕ) → HasTurn a n (run program budget) → FitsInRun program budget a n }
    ensures of_a_trace { (bytes : List ℕ) (program : Hlds) → Spells bytes program → mode_fault program ≡ None → (depth : ℕ) (main : ℕ × Procedure) → procedure_called program main_name ≡ Some main → (j : Job) → Comes program (main_job program depth main) j → FitsFirst program j.frame.env j.frame.goals }
{}

/// Each turn in the trace of a job is that of a job which it comes to: none is left out.
pub fn no_turn_is_left_out()
    ensures { (program : Hlds) (depth : ℕ) (f : Frame) (callers : List Frame) (next a n : ℕ) → HasTurn a n (trace program depth f callers next) → ComesToTurn program (job depth f callers next) a n }
{}

/// What the mode rules have as known before the goal of a number is one thing, and the role that the checks note at that
/// number is the one that this known has.
pub fn known_is_noted()
    ensures noted { (program : Hlds) (q : ℕ × Procedure) (strict : Bool) (n : ℕ) (p : HldsGoal) (known : InstMap) → slice_get program.procedures q.0 ≡ Some q.1 → Begins program q strict n p known → IsNoted program n p known }
    ensures one { (program : Hlds) (q r : ℕ × Procedure) (strict close : Bool) (n : ℕ) (p o : HldsGoal) (known other : InstMap) → slice_get program.procedures q.0 ≡ Some q.1 → slice_get program.procedures r.0 ≡ Some r.1 → Begins program q strict n p known → Begins program r close n o other → known ≡ other }
{}
