// Laws of full names and of the table. Each is the contract of a function that does nothing.
ghost use Rattle.std.specs.Prelude.{ℕ, ◌≡◌, ◌≢◌, ◌&&◌, ◌||◌, List, ◌∷◌, [], AllPairs, IsTrue};
ghost use Rattle.std.specs.List.{list_any};
ghost use Rattle.md_base.specs.declared.measure.Measure.{Measure};
ghost use Rattle.md_cost.specs.View.{View};
ghost use Rattle.md_people.specs.Compare.{compare_table, is_told, names_of, precedes, same_name, told_names, whole_row};
ghost use Rattle.md_static.specs.Sound.{IsSound};

/// The full names of a program's procedures differ: no module's name has a point in it, and no procedure's name a slash. So procedures
/// that are joined by their full names are joined one by one.
pub fn full_names_differ()
    ensures { (v : View) → IsSound v.statics → AllPairs (λ name other. name ≢ other) (names_of v) }
{}

/// A name has a row exactly where a procedure of either profile has the name and its difference is told.
pub fn a_name_has_a_row_where_its_difference_is_told()
    ensures { (v w : View) (by : Measure) (least : ℕ) (name : List ℕ) → list_any (same_name name) (told_names v w by least)
        ≡ ((list_any (same_name name) (names_of v) || list_any (same_name name) (names_of w)) && is_told v w by least name) }
{}

/// No name has two rows.
pub fn a_name_has_one_row()
    ensures { (v w : View) (by : Measure) (least : ℕ) → IsSound v.statics → IsSound w.statics → AllPairs (λ name other. name ≢ other) (told_names v w by least) }
{}

/// Each row precedes all later ones: by the greater difference, and of equal ones by the name that is lower by its bytes.
pub fn rows_stand_in_order()
    ensures { (v w : View) (by : Measure) (least : ℕ) → IsSound v.statics → IsSound w.statics → AllPairs (λ name other. IsTrue (precedes v w by name other)) (told_names v w by least) }
{}

/// Of a profile and itself nothing is told but the whole.
pub fn a_profile_is_as_itself()
    ensures { (v : View) (by : Measure) (least : ℕ) → (compare_table v v by least).rows ≡ whole_row v v by ∷ [] }
{}
