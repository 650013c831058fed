// Laws of the goals that may leave choices, by what the checks find. Each is the contract of a function that does nothing.
ghost use Rattle.std.specs.Prelude.{◌≡◌, ℕ, List, Some};
ghost use Rattle.md_hlds.specs.declared.goal.PredName.{PredName};
ghost use Rattle.md_hlds.specs.HldsGoal.{At, GoalExpr, CallGoal, HoCallGoal, DisjGoal, HldsGoals, Numbered};
ghost use Rattle.md_hlds.specs.Hlds.{Procedure, Hlds, procedure_called};
ghost use Rattle.md_hlds.specs.Value.{Env};
ghost use Rattle.md_det.specs.Findings.{program_findings, switch_at};
ghost use Rattle.law_safety.specs.Known.{FitsAt};
ghost use Rattle.law_fits.specs.Handing.{HandsOpen};
ghost use Rattle.md_code.specs.Leaves.{has_choices, expr_leaves, leaves_table};
ghost use Rattle.law_fits.specs.Leaves.{PartsInTable, MeetsSwitch};

/// The table of the goals that may leave choices has, for each goal that a run comes to, what the goal and its parts leave; a
/// call leaves a choice just where the procedure that is called has more than one answer.
pub fn choices_are_found()
    ensures in_table { (program : Hlds) (e : Env) (g : Numbered) (goals : List Numbered) (line : ℕ) (t : GoalExpr) → FitsAt program e g goals → g.goal ≡ At line t → (leaves_table program g.number ≡ expr_leaves program g.number t) × PartsInTable program g.number t }
    ensures named { (program : Hlds) (e : Env) (g : Numbered) (goals : List Numbered) (line site : ℕ) (name : PredName) (ys : List ℕ) (q : ℕ × Procedure) → FitsAt program e g goals → g.goal ≡ At line (CallGoal site name ys) → procedure_called program name ≡ Some q → leaves_table program g.number ≡ has_choices q.1.det }
    ensures open_call { (program : Hlds) (e : Env) (g : Numbered) (goals : List Numbered) (line site x : ℕ) (ys : List ℕ) → FitsAt program e g goals → g.goal ≡ At line (HoCallGoal site x ys) → (call : HandsOpen program e g.number x ys) → leaves_table program g.number ≡ has_choices call.procedure.det }
{}

/// A disjunction that is a switch by the checks meets a value of the switch's variable, and so takes one arm or none; where
/// it is none, its arms are tried.
pub fn switches_meet_a_value()
    ensures { (program : Hlds) (e : Env) (g : Numbered) (goals : List Numbered) (line : ℕ) (ps : HldsGoals) → FitsAt program e g goals → g.goal ≡ At line (DisjGoal ps) → MeetsSwitch program e ps (switch_at (program_findings program) g.number) }
{}
