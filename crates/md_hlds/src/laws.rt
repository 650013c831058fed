// Laws over the definition of a run alone. Each is the contract of a function that does nothing.
ghost use Rattle.std.specs.Prelude.{ℕ, ◌≤◌};
ghost use Rattle.md_hlds.specs.Hlds.{Hlds};
ghost use Rattle.md_hlds.specs.Run.{run, HasNoDeep, IsFrontUpToItsEnd};

/// A depth as great as the budget suffices: no run has an item that says otherwise.
pub fn depths_suffice()
    ensures { (program : Hlds) (budget : ℕ) → HasNoDeep (run program budget) }
{}

/// A run within a budget is a front of the run within a greater one, and it is the same run where it is finished or has
/// thrown.
pub fn budgets_agree()
    ensures { (program : Hlds) (budget greater : ℕ) → budget ≤ greater → IsFrontUpToItsEnd (run program budget) (run program greater) }
{}
