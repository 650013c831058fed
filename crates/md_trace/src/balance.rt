// The balance of a finished run, as laws over the definitions.
ghost use Rattle.md_trace.specs.Balance.{LinksBalance, ContextsBalance, ActivationsEnd, CutOnesHaveExited};

/// After a history in which nothing runs any more, each link that is not full has as many calls and redos as exits,
/// fails and exceptions.
pub fn links_balance()
    ensures { LinksBalance }
{}

/// The same of each context none of whose links is full: by its own counts, it was entered as often as it was left.
pub fn contexts_balance()
    ensures { ContextsBalance }
{}

/// After such a history the last port of each activation is an exit, a fail or an exception. One that was cut ends with
/// an exit.
pub fn activations_end()
    ensures ended { ActivationsEnd }
    ensures cut { CutOnesHaveExited }
{}
