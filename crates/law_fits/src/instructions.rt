// Laws of simple goals by the kind of goal and the role that the checks note, for instructions over slots. Each is the
// contract of a function that does nothing.
ghost use Rattle.std.specs.Prelude.{◌≡◌, ◌⊎◌, ℕ, ◌+◌, pos, ℤ, ◌&&◌, cond, nat_eq, List, [], ◌∷◌, length, map, Some, None};
ghost use Rattle.std.specs.Fmt.{signed_decimal};
ghost use Rattle.std.specs.Str.{bytes_eq};
ghost use Rattle.md_hlds.specs.declared.goal.Cmp.{Cmp};
ghost use Rattle.md_hlds.specs.declared.goal.Op.{Op};
ghost use Rattle.md_hlds.specs.declared.goal.PredName.{PredName};
ghost use Rattle.md_hlds.specs.declared.goal.Term.TheVariants.{Name, Var};
ghost use Rattle.md_hlds.specs.declared.goal.Term.{Term};
ghost use Rattle.md_hlds.specs.HldsGoal.{Unifies, Computes, Compares, WritesInt, WritesText, EndsLine, Raises, At, SimpleGoal, Numbered};
ghost use Rattle.md_hlds.specs.Hlds.{Procedure, Hlds, procedure_called};
ghost use Rattle.md_hlds.specs.Value.{Value, Values, Number, Literal, Built, Closure, listed_values, gathered_values, value_count, compared, Env};
ghost use Rattle.md_hlds.specs.Simple.{result_of, holds};
ghost use Rattle.md_modes.specs.Notes.{constructs, closes, takes_apart, assigns, tests, program_notes};
ghost use Rattle.md_modes.specs.Classes.{role_at};
ghost use Rattle.law_safety.specs.Known.{FitsAt};
ghost use Rattle.law_fits.specs.Fast.{Puts, Misses, Bursts, Hold, IsConstant, beside, tested, fast_same, fast_simple};
ghost use Rattle.law_fits.specs.Reads.{reads_at};

/// A unification with a name, by its role: a construction writes a term of the values in its arguments' slots, and a closing a
/// closure of them; a deconstruction finds a term in the slot of its variable, and goes on with its parts where the functor is
/// the same. Where its role names no argument, the parts are written into the arguments.
pub fn terms_by_role()
    ensures constructs { (program : Hlds) (slots : ℕ → Value) (e : Env) (g : Numbered) (goals : List Numbered) (line x : ℕ) (q : PredName) (ys : List ℕ) → FitsAt program e g goals → g.goal ≡ At line (SimpleGoal (Unifies x (Name q ys))) → role_at (program_notes program) g.number ≡ Some constructs → fast_simple program (reads_at program g.number) slots (Unifies x (Name q ys)) ≡ Puts ((x, Built q.name (gathered_values (map slots ys))) ∷ []) (length ys) (length ys) None }
    ensures closes { (program : Hlds) (slots : ℕ → Value) (e : Env) (g : Numbered) (goals : List Numbered) (line x : ℕ) (q : PredName) (ys : List ℕ) (p : ℕ × Procedure) → FitsAt program e g goals → g.goal ≡ At line (SimpleGoal (Unifies x (Name q ys))) → role_at (program_notes program) g.number ≡ Some closes → procedure_called program q ≡ Some p → fast_simple program (reads_at program g.number) slots (Unifies x (Name q ys)) ≡ Puts ((x, Closure p.0 (gathered_values (map slots ys))) ∷ []) (length ys + 3) (length ys + 3) None }
    ensures takes_apart { (program : Hlds) (slots : ℕ → Value) (e : Env) (g : Numbered) (goals : List Numbered) (line x : ℕ) (q : PredName) (ys bound : List ℕ) → FitsAt program e g goals → g.goal ≡ At line (SimpleGoal (Unifies x (Name q ys))) → role_at (program_notes program) g.number ≡ Some (takes_apart bound) → Hold slots (x ∷ ys) e → (f : List ℕ) × ((parts : Values) × (slots x ≡ Built f parts) × (fast_simple program (reads_at program g.number) slots (Unifies x (Name q ys)) ≡ fast_same (reads_at program g.number) slots ys (listed_values parts) (bytes_eq q.name f && nat_eq (length ys) (value_count parts)))) }
    ensures takes_all { (program : Hlds) (slots : ℕ → Value) (e : Env) (g : Numbered) (goals : List Numbered) (line x : ℕ) (q : PredName) (ys : List ℕ) → FitsAt program e g goals → g.goal ≡ At line (SimpleGoal (Unifies x (Name q ys))) → role_at (program_notes program) g.number ≡ Some (takes_apart []) → Hold slots (x ∷ ys) e → (f : List ℕ) × ((parts : Values) × (slots x ≡ Built f parts) × (fast_simple program (reads_at program g.number) slots (Unifies x (Name q ys)) ≡ cond (bytes_eq q.name f && nat_eq (length ys) (value_count parts)) (Puts (beside ys (listed_values parts)) 0 0 None) (Misses 0))) }
{}

/// A unification of two variables, and one with an integer or a literal, by its role: a slot is copied, two are compared, the
/// constant is written or it is compared.
pub fn variables_and_constants_by_role()
    ensures assigns { (program : Hlds) (slots : ℕ → Value) (e : Env) (g : Numbered) (goals : List Numbered) (line x y to : ℕ) → FitsAt program e g goals → g.goal ≡ At line (SimpleGoal (Unifies x (Var y))) → role_at (program_notes program) g.number ≡ Some (assigns to) → ((to ≡ y) × (fast_simple program (reads_at program g.number) slots (Unifies x (Var y)) ≡ Puts ((y, slots x) ∷ []) 0 0 None)) ⊎ ((to ≡ x) × (fast_simple program (reads_at program g.number) slots (Unifies x (Var y)) ≡ Puts ((x, slots y) ∷ []) 0 0 None)) }
    ensures tests { (program : Hlds) (slots : ℕ → Value) (e : Env) (g : Numbered) (goals : List Numbered) (line x y : ℕ) → FitsAt program e g goals → g.goal ≡ At line (SimpleGoal (Unifies x (Var y))) → role_at (program_notes program) g.number ≡ Some tests → fast_simple program (reads_at program g.number) slots (Unifies x (Var y)) ≡ tested (compared (slots x) (slots y)).pairs (compared (slots x) (slots y)).equal }
    ensures constant { (program : Hlds) (slots : ℕ → Value) (e : Env) (g : Numbered) (goals : List Numbered) (line x : ℕ) (t : Term) (v : Value) → FitsAt program e g goals → g.goal ≡ At line (SimpleGoal (Unifies x t)) → IsConstant t v → role_at (program_notes program) g.number ≡ Some constructs → fast_simple program (reads_at program g.number) slots (Unifies x t) ≡ Puts ((x, v) ∷ []) 0 0 None }
    ensures tests_constant { (program : Hlds) (slots : ℕ → Value) (e : Env) (g : Numbered) (goals : List Numbered) (line x : ℕ) (t : Term) (v : Value) (bound : List ℕ) → FitsAt program e g goals → g.goal ≡ At line (SimpleGoal (Unifies x t)) → IsConstant t v → role_at (program_notes program) g.number ≡ Some (takes_apart bound) → fast_simple program (reads_at program g.number) slots (Unifies x t) ≡ tested 0 (compared (slots x) v).equal }
{}

/// The other simple goals: the slots of their inputs hold integers or literals, and the result or the io state is written.
pub fn other_goals_by_slots()
    ensures computes { (program : Hlds) (slots : ℕ → Value) (e : Env) (g : Numbered) (goals : List Numbered) (line z a : ℕ) (op : Op) (b : ℕ) → FitsAt program e g goals → g.goal ≡ At line (SimpleGoal (Computes z a op b)) → Hold slots (z ∷ a ∷ b ∷ []) e → (i j : ℤ) × (slots a ≡ Number i) × (slots b ≡ Number j) × (fast_simple program (reads_at program g.number) slots (Computes z a op b) ≡ Puts ((z, Number (result_of op i j)) ∷ []) 0 0 None) }
    ensures compares { (program : Hlds) (slots : ℕ → Value) (e : Env) (g : Numbered) (goals : List Numbered) (line a : ℕ) (cmp : Cmp) (b : ℕ) → FitsAt program e g goals → g.goal ≡ At line (SimpleGoal (Compares a cmp b)) → Hold slots (a ∷ b ∷ []) e → (i j : ℤ) × (slots a ≡ Number i) × (slots b ≡ Number j) × (fast_simple program (reads_at program g.number) slots (Compares a cmp b) ≡ tested 0 (holds cmp i j)) }
    ensures writes_int { (program : Hlds) (slots : ℕ → Value) (e : Env) (g : Numbered) (goals : List Numbered) (line x before after : ℕ) → FitsAt program e g goals → g.goal ≡ At line (SimpleGoal (WritesInt x before after)) → Hold slots (x ∷ before ∷ after ∷ []) e → (n : ℤ) × (slots x ≡ Number n) × (fast_simple program (reads_at program g.number) slots (WritesInt x before after) ≡ Puts ((after, Number (pos 0)) ∷ []) (length (signed_decimal n)) 0 (Some (signed_decimal n))) }
    ensures writes_text { (program : Hlds) (slots : ℕ → Value) (e : Env) (g : Numbered) (goals : List Numbered) (line x before after : ℕ) → FitsAt program e g goals → g.goal ≡ At line (SimpleGoal (WritesText x before after)) → Hold slots (x ∷ before ∷ after ∷ []) e → (b : List ℕ) × (slots x ≡ Literal b) × (fast_simple program (reads_at program g.number) slots (WritesText x before after) ≡ Puts ((after, Number (pos 0)) ∷ []) (length b) 0 (Some b)) }
    ensures ends_line { (program : Hlds) (slots : ℕ → Value) (e : Env) (g : Numbered) (goals : List Numbered) (line before after : ℕ) → FitsAt program e g goals → g.goal ≡ At line (SimpleGoal (EndsLine before after)) → fast_simple program (reads_at program g.number) slots (EndsLine before after) ≡ Puts ((after, Number (pos 0)) ∷ []) 1 0 (Some (10 ∷ [])) }
    ensures throws { (program : Hlds) (slots : ℕ → Value) (e : Env) (g : Numbered) (goals : List Numbered) (line x : ℕ) → FitsAt program e g goals → g.goal ≡ At line (SimpleGoal (Raises x)) → Hold slots (x ∷ []) e → (b : List ℕ) × (slots x ≡ Literal b) × (fast_simple program (reads_at program g.number) slots (Raises x) ≡ Bursts b) }
{}
