// Laws of one goal's turn, for a machine that is compiled: in an environment that fits what is known before the goal.
// Each is the contract of a function that does nothing.
ghost use Rattle.std.specs.Prelude.{◌≡◌, ℕ, Bool, List, [], ◌∷◌, length, Some, Ok, slice_get};
ghost use Rattle.md_hlds.specs.declared.types.Mode.{Mode};
ghost use Rattle.md_hlds.specs.declared.goal.Term.{Term};
ghost use Rattle.md_hlds.specs.HldsGoal.{Simple, Unifies};
ghost use Rattle.md_hlds.specs.Hlds.{HldsType, Procedure, Hlds};
ghost use Rattle.md_hlds.specs.Value.{Values, listed_values, Env, value_at};
ghost use Rattle.md_hlds.specs.Simple.{simple};
ghost use Rattle.md_hlds.specs.Trace.{back, pairs_of, entered};
ghost use Rattle.md_inst.specs.Instantiation.{InstMap, known_at};
ghost use Rattle.md_inst.specs.Arguments.{arguments};
ghost use Rattle.md_inst.specs.Simple as rules;
ghost use Rattle.md_modes.specs.Goals.{simple_variables};
ghost use Rattle.md_modes.specs.Modes.{entry};
ghost use Rattle.md_modes.specs.Notes.{role_of_unification};
ghost use Rattle.md_reader.specs.Grammar.{Spells};
ghost use Rattle.law_safety.specs.Values.{AreHeld, Fits};
ghost use Rattle.law_safety.specs.Arguments.{AreArguments, taken, AreResults};
ghost use Rattle.law_safety.specs.Turns.{LeadsTo, AreDistinct, IsTidySimple, IsTidy};
ghost use Rattle.law_safety.specs.Roles.{AreVariablesOf, IsMet, IsClosureCalled};

/// A simple goal that the mode rules accept isn't stuck. Where it succeeds, the place after it is reachable, and the
/// environment after it fits what is known there.
pub fn simple_goals_fit()
    ensures { (program : Hlds) (vars : List ℕ) (strict : Bool) (line : ℕ) (g : Simple) (before after : InstMap) (e : Env) → IsTidySimple g → Fits program vars before e → AreVariablesOf (simple_variables g) vars → rules.simple program strict line g before ≡ Ok after → LeadsTo program vars (rules.goes_on g) after (simple program e g) }
{}

/// A unification that the mode rules accept meets what its class says: a construction no value, a deconstruction a value
/// of the term's type, with values of exactly the arguments that the class names, and so on.
pub fn unifications_meet_their_class()
    ensures { (program : Hlds) (vars : List ℕ) (strict : Bool) (line x : ℕ) (t : Term) (e : Env) (before after : InstMap) → Fits program vars before e → AreVariablesOf (simple_variables (Unifies x t)) vars → rules.unify program strict line x t before ≡ Ok after → IsMet program e x t (role_of_unification program x t before) }
{}

/// A call of a closure that the mode rules accept meets a closure of the type that its class names.
pub fn closures_meet_their_type()
    ensures { (program : Hlds) (vars : List ℕ) (strict : Bool) (line f : ℕ) (ys : List ℕ) (e : Env) (before after : InstMap) → Fits program vars before e → AreVariablesOf (f ∷ ys) vars → rules.apply strict line f ys before ≡ Ok after → IsClosureCalled program (known_at before f) (value_at e f) }
{}

/// Of a call that the mode rules accept each input has a value of its type and each output none; the environment in which
/// the body begins fits what is known there; and what comes back, where the outputs have values of their types, fits what
/// is known after the call.
pub fn calls_fit()
    ensures handed { (program : Hlds) (strict : Bool) (line : ℕ) (args : List (HldsType × Mode)) (ys : List ℕ) (before after : InstMap) (e : Env) → Fits program ys before e → AreDistinct ys → length ys ≡ length args → arguments strict line args ys before ≡ Ok after → AreArguments program args (taken e ys) }
    ensures begins { (program : Hlds) (vars : List ℕ) (p : Procedure) (held : Values) (others : List (HldsType × Mode)) (ys : List ℕ) (e : Env) → AreHeld program held p.args others → AreArguments program others (taken e ys) → Fits program vars (entry p) (entered p (listed_values held) ys e) }
    ensures returned { (program : Hlds) (vars : List ℕ) (strict : Bool) (line : ℕ) (args : List (HldsType × Mode)) (heads ys : List ℕ) (before after : InstMap) (callee caller : Env) → Fits program vars before caller → AreVariablesOf ys vars → length heads ≡ length args → length ys ≡ length args → arguments strict line args ys before ≡ Ok after → AreResults program args heads callee → Fits program vars after (back (pairs_of heads ys) callee caller) }
{}

/// In a program that a text spells the variables of each goal without parts differ as these laws ask, and each head has a
/// variable for each argument.
pub fn spelled_programs_are_tidy()
    ensures { (bytes : List ℕ) (program : Hlds) → Spells bytes program → (n : ℕ) (p : Procedure) → slice_get program.procedures n ≡ Some p → IsTidy p.body × (length p.head ≡ length p.args) }
{}
