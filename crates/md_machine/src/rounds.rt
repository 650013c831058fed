// Rounds of a machine in a run. Each law is the contract of a function that does nothing.
ghost use Rattle.std.specs.Prelude.{List, ℕ};
ghost use Rattle.md_hlds.specs.Hlds.{Hlds};
ghost use Rattle.md_hlds.specs.Trace.{Items};
ghost use Rattle.md_trace.specs.PortHistory.{IsPortHistory};
ghost use Rattle.law_events.specs.History.{history};
ghost use Rattle.law_events.specs.Laws.{IsWithinBounds};
ghost use Rattle.law_events.specs.Table.{site_table};
ghost use Rattle.md_flat.specs.Meaning.{State};
ghost use Rattle.law_flat.specs.Flat.{Flat};
ghost use Rattle.law_flat.specs.Stays.{Stays};

/// What has been seen of a run, where the machine stands in it, is a port history.
pub fn what_is_seen_is_a_history<M>()
    ensures { (s : Hlds) (code : Flat) (marks : List (M × ℕ)) (b : ℕ) (seen : Items) (st : State M) → IsWithinBounds s b → Stays s code marks b seen st → IsPortHistory (site_table s) (history seen) }
{}
