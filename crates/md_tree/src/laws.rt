// Laws over the definitions of the tree and of its picture alone. Each is the contract of a function that does nothing.
ghost use Rattle.std.specs.Prelude.{ℕ, ◌≡◌, ◌<◌, ◌==◌, ◌||◌, if◌then◌else◌, All, AllPairs, count_by};
ghost use Rattle.md_base.specs.declared.measure.Measure.{Measure};
ghost use Rattle.md_dynamic.specs.Profile.{ProfileRows};
ghost use Rattle.md_dynamic.specs.Valid.{IsValid};
ghost use Rattle.md_clique.specs.Cliques.{clique_count};
ghost use Rattle.md_cost.specs.FileView.{IsFileView};
ghost use Rattle.md_cost.specs.View.{View};
ghost use Rattle.md_people.specs.Counts.{whole_of};
ghost use Rattle.md_people.specs.Tree.{is_shown, tree_table};
ghost use Rattle.md_tree.specs.Picture.{AreRowsOf, IsBeside, IsHeld, picture};

/// Each box but that of clique 0 lies within the box of its clique's parent, a level below it.
pub fn boxes_lie_within()
    ensures { (f : ProfileRows) (v : View) (by : Measure) (least : ℕ) → IsValid f → IsFileView f v → All (IsHeld v (picture v by least)) (picture v by least) }
{}

/// No two boxes of one level overlap: they stand from left to right.
pub fn boxes_stand_apart()
    ensures { (f : ProfileRows) (v : View) (by : Measure) (least : ℕ) → IsValid f → IsFileView f v → AllPairs IsBeside (picture v by least) }
{}

/// Where the whole isn't 0, the picture has a box for each row of a clique in the tree, in the same order and at the same level.
pub fn each_box_has_its_row()
    ensures { (v : View) (by : Measure) (least : ℕ) → 0 < whole_of v by → AreRowsOf v by (picture v by least) (tree_table v by least).rows }
{}

/// Where the whole isn't 0, clique 0 and each other clique of a total that is large enough have one box, and so one row, and no other
/// clique has any. The total of a clique's parent is no less than its own, so that none is left out with its parent.
pub fn each_clique_of_enough_has_one_box()
    ensures { (f : ProfileRows) (v : View) (by : Measure) (least k : ℕ) → IsValid f → IsFileView f v → 0 < whole_of v by → k < clique_count v.cliques → count_by (λ b. b.clique == k) (picture v by least) ≡ (if (k == 0) || is_shown v by least k then 1 else 0) }
{}
