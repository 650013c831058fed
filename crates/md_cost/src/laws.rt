// Laws over the definitions of views alone. Each is the contract of a function that does nothing.
ghost use Rattle.std.specs.Prelude.{ℕ, Bool, List, length};
ghost use Rattle.md_trace.specs.declared.event.Event.{Event};
ghost use Rattle.md_trace.specs.PortHistory.{SiteTable, IsPortHistory};
ghost use Rattle.md_static.specs.Tables.{Static};
ghost use Rattle.md_dynamic.specs.OfHistory.{IsProfileOf};
ghost use Rattle.md_dynamic.specs.Profile.{ProfileRows};
ghost use Rattle.md_cost.specs.Tree.{HasNoTree};

/// No clique of a run's profile is entered by two links, so `propagate` never says so of one.
pub fn no_clique_of_a_run_is_entered_twice()
    ensures { (t : SiteTable) (s : Static) (h : List Event) (finished : Bool) (f : ProfileRows) (k a b : ℕ) → IsPortHistory t h → IsProfileOf s t.main h finished f → HasNoTree (length f.nodes) f.links k a b → ⊥ }
{}
