// Runs of accepted texts. Each law is the contract of a function that does nothing but cite others.
ghost use Rattle.std.specs.Prelude.{ℕ, ◌<◌, ◌^◌, List};
ghost use Rattle.md_hlds.specs.Run.{run};
ghost use Rattle.law_events.specs.Laws.{HasEnded};
ghost use Rattle.law_safety.specs.Answers.{AnswersAsDeclared};
ghost use Rattle.md_tool.specs.Accepted.{Accepted};
ghost use Rattle.law_files.specs.Runs.{GoesOn, IsLeft};

use law_events::{activations_of_runs_end, ended_runs_balance};
use law_safety::{answers_as_declared, comes_to_its_end, never_stuck};
use law_spelled::accepted_texts_are_within_bounds;

/// A run of an accepted text never gets stuck, and it is finished or has thrown unless the budget cuts it.
pub fn accepted_runs_go_on()
    ensures { (text : List ℕ) (accepted : Accepted text) (steps : ℕ) → GoesOn accepted.program steps }
{
    never_stuck();
    comes_to_its_end();
}

/// Each of its procedures has as many answers as its determinism says.
pub fn accepted_procedures_answer_as_declared()
    ensures { (text : List ℕ) (accepted : Accepted text) → AnswersAsDeclared accepted.program }
{
    answers_as_declared();
}

/// A run of an accepted text that is finished or has thrown balances: each link that isn't full was entered as often as it was left, and
/// each context none of whose links is full; each activation's last port is an exit, a fail or an exception, and that of one that was cut
/// is an exit.
pub fn accepted_runs_are_left()
    ensures { (text : List ℕ) (accepted : Accepted text) (steps : ℕ) → steps < 2 ^ 32 → HasEnded (run accepted.program steps) → IsLeft accepted.program steps }
{
    accepted_texts_are_within_bounds();
    ended_runs_balance();
    activations_of_runs_end();
}
