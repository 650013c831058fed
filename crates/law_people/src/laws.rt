// Laws over the definitions of tables.
ghost use Rattle.std.specs.Prelude.{◌≡◌, ℕ};
ghost use Rattle.std.specs.List.{sum_by};
ghost use Rattle.md_base.specs.declared.measure.Measure.{Measure};
ghost use Rattle.md_dynamic.specs.Profile.{ProfileRows};
ghost use Rattle.md_dynamic.specs.Valid.{IsValid};
ghost use Rattle.md_cost.specs.FileView.{IsFileView};
ghost use Rattle.md_cost.specs.SumOf.{sum_of};
ghost use Rattle.md_cost.specs.View.{View, OfProcedure};
ghost use Rattle.md_people.specs.Callers.{caller_rows, in_order};
ghost use Rattle.md_people.specs.Counts.{own_counts};
ghost use Rattle.md_people.specs.Ports.{PortsRow};

/// The own counts in the rows of a procedure's callers, by each measure, add up to the procedure's own: each link to it comes from the
/// root or from one call site.
pub fn callers_add_up()
    ensures { (f : ProfileRows) (v : View) (by m : Measure) (q : ℕ) → IsValid f → IsFileView f v → sum_by (λ (row : PortsRow). sum_of row.own m) (in_order (caller_rows v by q)) ≡ own_counts v (OfProcedure q) m }
{}
