// Laws of the turns of finished runs. Each is the contract of a function that does nothing.
ghost use Rattle.law_turns.specs.Laws.{TurnsOfRunsSolve, DerivedIsDetermined, DerivedEntriesAreTurns};

/// In a finished run of an accepted program, within a budget below 2 ^ 32, there are numbers of how often each goal was left
/// with a solution which, beside the turns that each goal has in the run, solve the equations of each procedure. The counts
/// in the equations are those of the run's ports: the own calls and exits of procedures and of call sites.
pub fn turns_solve_the_equations()
    ensures { TurnsOfRunsSolve }
{}

/// Whatever solves the equations agrees on each derived quantity.
pub fn derived_quantities_are_determined()
    ensures { DerivedIsDetermined }
{}

/// So counts of ports alone give the turns of a run: where the entries of a goal are derived, each solution of the equations of
/// its procedure has the goal's turns for them.
pub fn derived_entries_are_turns()
    ensures { DerivedEntriesAreTurns }
{}
