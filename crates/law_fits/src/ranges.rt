// Laws of the numbers of variables. Each is the contract of a function that does nothing.
ghost use Rattle.std.specs.Prelude.{◌≡◌, ◌<◌, ℕ, List, length, Some, slice_get};
ghost use Rattle.md_hlds.specs.HldsGoal.{Numbered};
ghost use Rattle.md_hlds.specs.Hlds.{Procedure, Hlds};
ghost use Rattle.md_hlds.specs.Value.{Env};
ghost use Rattle.md_inst.specs.Instantiation.{times};
ghost use Rattle.md_modes.specs.Goals.{variables, clause_variables};
ghost use Rattle.md_reader.specs.Grammar.{Spells};
ghost use Rattle.law_safety.specs.Known.{FitsAt};

/// In a program that a text spells each variable of a clause, of its head and of its goals, is a number below how many
/// variables the clause has. At a turn that fits the environment has so many places.
pub fn variables_are_in_range()
    ensures in_a_clause { (bytes : List ℕ) (program : Hlds) → Spells bytes program → (n : ℕ) (p : Procedure) → slice_get program.procedures n ≡ Some p → (x : ℕ) → 0 < times x (clause_variables p) → x < length p.vars }
    ensures in_a_goal { (bytes : List ℕ) (program : Hlds) → Spells bytes program → (e : Env) (g : Numbered) (goals : List Numbered) (turn : FitsAt program e g goals) (y : ℕ) → 0 < times y (variables g.goal) → y < length turn.procedure.1.vars }
    ensures places { (program : Hlds) (e : Env) (g : Numbered) (goals : List Numbered) (turn : FitsAt program e g goals) → length e ≡ length turn.procedure.1.vars }
{}
