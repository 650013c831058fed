// The laws of the runs of the generated programs. Each is the contract of a function that does nothing.
ghost use Rattle.std.specs.Prelude.{ℕ, ◌≡◌, ◌≤◌, ◌<◌, ◌+◌, ◌*◌, ◌^◌, true, false, length};
ghost use Rattle.md_hlds.specs.Run.{run, is_finished, is_thrown};
ghost use Rattle.law_events.specs.Table.{site_table};
ghost use Rattle.law_generated.specs.Generated.{generated, most_steps};
ghost use Rattle.law_generated.specs.Runs.{generated_contexts};

/// The run of the program of n procedures below main is finished within a budget of 3 * 2 ^ n + 2 steps, and it has 2 ^ n
/// contexts. Procedures are told apart by the numbers in their names, of which 64 digits are written, so n has a bound.
pub fn generated_runs_are_finished()
    ensures finished { (n budget : ℕ) → 1 ≤ n → n < 2 ^ 64 → 3 * 2 ^ n + 2 ≤ budget → is_finished (run (generated n) budget) ≡ true }
    ensures contexts { (n budget : ℕ) → 1 ≤ n → n < 2 ^ 64 → 3 * 2 ^ n + 2 ≤ budget → length (generated_contexts n budget) ≡ 2 ^ n }
{}

/// Main, whose context is there from the start, is the first procedure of each of these programs.
pub fn main_is_first()
    ensures { (n : ℕ) → (site_table (generated n)).main ≡ 0 }
{}

/// Nothing is thrown, whatever the budget.
pub fn generated_runs_throw_nothing()
    ensures { (n budget : ℕ) → 1 ≤ n → n < 2 ^ 64 → is_thrown (run (generated n) budget) ≡ false }
{}

/// Within a smaller budget the run isn't finished.
pub fn no_smaller_budget_suffices()
    ensures { (n budget : ℕ) → 1 ≤ n → n < 2 ^ 64 → budget < 3 * 2 ^ n + 2 → is_finished (run (generated n) budget) ≡ false }
{}

/// The greatest budget that a run may be given suffices for up to 20 procedures.
pub fn greatest_budget_suffices()
    ensures finished { (n : ℕ) → 1 ≤ n → n ≤ 20 → is_finished (run (generated n) most_steps) ≡ true }
    ensures contexts { (n : ℕ) → 1 ≤ n → n ≤ 20 → length (generated_contexts n most_steps) ≡ 2 ^ n }
{}
