// The laws of a text's program. Each is the contract of a function that does nothing.
ghost use Rattle.law_spelled.specs.Laws.{TextsHaveSites, TextsHaveLines, TextsHaveShortNames, TextsHaveNames, TextsHaveFewParts, MainIsCalled, AcceptedTextsHaveMains, AcceptedTextsAreWithinBounds, AcceptedRunsAreHistories};

/// The goals of the program that a text spells name its call sites, which are numbered from 0 in text order.
pub fn texts_have_sites()
    ensures { TextsHaveSites }
{}

/// Its declarations, clauses, goals and call sites have lines, which count from 1.
pub fn texts_have_lines()
    ensures { TextsHaveLines }
{}

/// Its names have at most 255 bytes and its lists of arguments at most 255 members.
pub fn texts_have_short_names()
    ensures { TextsHaveShortNames }
{}

/// The names of its module and of its predicates are names as the tables of a profile have them.
pub fn texts_have_names()
    ensures { TextsHaveNames }
{}

/// It has no more call sites, predicates and types together than the text has bytes.
pub fn texts_have_few_parts()
    ensures { TextsHaveFewParts }
{}

/// Where it has no fault of modes, the predicate that `main` names is the one with the io states, and its clause has a
/// variable.
pub fn accepted_texts_have_mains()
    ensures called { MainIsCalled }
    ensures variable { AcceptedTextsHaveMains }
{}

/// What the laws of a run's events ask of a program holds of it then.
pub fn accepted_texts_are_within_bounds()
    ensures { AcceptedTextsAreWithinBounds }
{}

/// So the events of its run, within a budget below 2 ^ 32, are a port history over its site table.
pub fn accepted_runs_are_histories()
    ensures { AcceptedRunsAreHistories }
{}
