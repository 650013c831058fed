// The laws of a run's events. Each is the contract of a function that does nothing.
ghost use Rattle.law_events.specs.Laws.{ProgramsHaveTables, OwnersAgree, RunsAreHistories, FrontsAreHistories, NextEventsFollow, EndedRunsAreLeft, LinksOfRunsBalance, ContextsOfRunsBalance, ActivationsOfRunsEnd, CutOnesOfRunsHaveExited, CallsArePaid, CallsAreFew, EventsAreTold};

/// The site table of a program that declares a main is a site table: each procedure that it names is one of the
/// program's.
pub fn programs_have_tables()
    ensures { ProgramsHaveTables }
{}

/// The sites of the table have the owners that the call sites of the program have.
pub fn owners_agree()
    ensures { OwnersAgree }
{}

/// Of a program whose goals name its call sites in text order, run within a budget below 2 ^ 32, the events are a port
/// history over its site table.
pub fn runs_are_histories()
    ensures { RunsAreHistories }
{}

/// So are the events of each front of such a run, and they with those of the items that come next.
pub fn fronts_are_histories()
    ensures fronts { FrontsAreHistories }
    ensures next { NextEventsFollow }
{}

/// After such a run, where it is finished or thrown, nothing runs.
pub fn ended_runs_are_left()
    ensures { EndedRunsAreLeft }
{}

/// In such a run, where it is finished or thrown, each link that isn't full was entered as often as it was left, and so was
/// each context none of whose links is full.
pub fn ended_runs_balance()
    ensures links { LinksOfRunsBalance }
    ensures contexts { ContextsOfRunsBalance }
{}

/// The last port of each activation of it is an exit, a fail or an exception. One that was cut ends with an exit.
pub fn activations_of_runs_end()
    ensures ended { ActivationsOfRunsEnd }
    ensures cut { CutOnesOfRunsHaveExited }
{}

/// Whatever the program, a run has no more calls than its budget; and it has fewer than 4,294,967,295 within a budget below
/// 2 ^ 32.
pub fn calls_are_few()
    ensures paid { CallsArePaid }
    ensures few { CallsAreFew }
{}

/// What is unfolded and written doesn't count: the history of items is that of their events.
pub fn events_are_told()
    ensures { EventsAreTold }
{}
