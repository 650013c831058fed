// Laws over the definitions of tables alone. Each is the contract of a function that does nothing.
ghost use Rattle.std.specs.Prelude.{◌≡◌, ◌+◌, ℕ};
ghost use Rattle.std.specs.List.{sum_by};
ghost use Rattle.md_base.specs.declared.measure.Measure.{Measure};
ghost use Rattle.md_dynamic.specs.Profile.{ProfileRows};
ghost use Rattle.md_dynamic.specs.Valid.{IsValid};
ghost use Rattle.md_cost.specs.FileView.{IsFileView};
ghost use Rattle.md_cost.specs.View.{View, OfContext};
ghost use Rattle.md_people.specs.Counts.{own_counts, whole_of};
ghost use Rattle.md_people.specs.Flame.{burning};
ghost use Rattle.md_people.specs.Tree.{children, clique_own, clique_total};

/// In the tree of cliques the own counts of a clique's contexts and the totals of its children add up to its total.
pub fn cliques_add_up()
    ensures { (f : ProfileRows) (v : View) (by : Measure) (k : ℕ) → IsValid f → IsFileView f v → clique_total v by k ≡ clique_own v by k + sum_by (clique_total v by) (children v by k) }
{}

/// The numbers of a flame graph's lines add up to the whole.
pub fn flames_add_up()
    ensures { (f : ProfileRows) (v : View) (by : Measure) → IsValid f → IsFileView f v → sum_by (λ c. own_counts v (OfContext c) by) (burning v by) ≡ whole_of v by }
{}
