// Where goals stand in the code of a program. Each law is the contract of a function that does nothing.
ghost use Rattle.std.specs.Prelude.{◌≡◌, ℕ, suc, ◌+◌, List, Some, slice_get};
ghost use Rattle.md_hlds.specs.HldsGoal.{HldsGoal, At, ConjGoal, DisjGoal, IfGoal, NotGoal, SomeGoal, HldsGoals, goal_size};
ghost use Rattle.md_hlds.specs.Hlds.{Procedure, Hlds, body_number};
ghost use Rattle.md_det.specs.Findings.{program_findings, switch_at};
ghost use Rattle.md_flat.specs.declared.code.Code.{Code};
ghost use Rattle.md_code.specs.Blocks.{Place, if_condition, then_place, else_place, negated_place, some_place, body_place};
ghost use Rattle.md_code.specs.Details.{IsCodeOf};
ghost use Rattle.law_flat.specs.Flat.{Flat, flat_told};
ghost use Rattle.law_flat.specs.Shapes.{Shape, shape_of};
ghost use Rattle.law_flat.specs.Calls.{IsShape};
ghost use Rattle.law_flat.specs.Laid.{Laid, PartsLaid, ArmsLaid, IsCommon};

/// In the code of a program each body stands where the number of its goal says, and what each program has at the first
/// addresses.
pub fn bodies_are_laid()
    ensures bodies { (s : Hlds) (code : Code) → IsCodeOf s code → (q : ℕ) (p : Procedure) → slice_get s.procedures q ≡ Some p → Laid s (flat_told code) (shape_of s q p) (body_number s q) p.body (body_place s q p) }
    ensures common { (s : Hlds) (code : Code) → IsCodeOf s code → IsCommon (flat_told code) }
{}

/// Where a goal stands, its parts stand where their numbers say.
pub fn parts_are_laid()
    ensures conjunction { (s : Hlds) (code : Flat) (f : Shape) (n l : ℕ) (ps : HldsGoals) (place : Place) → Laid s code f n (At l (ConjGoal ps)) place → PartsLaid s code f (suc n) ps place place.other (suc place.pending) place.height }
    ensures disjunction { (s : Hlds) (code : Flat) (f : Shape) (n l : ℕ) (ps : HldsGoals) (place : Place) → Laid s code f n (At l (DisjGoal ps)) place → ArmsLaid s code f n (suc n) ps place (switch_at (program_findings s) n) (suc place.pending) place.height }
    ensures condition { (s : Hlds) (code : Flat) (f : Shape) (n l : ℕ) (c t e : HldsGoal) (place : Place) → Laid s code f n (At l (IfGoal c t e)) place → Laid s code f (suc n) c (if_condition s n c t place) }
    ensures then { (s : Hlds) (code : Flat) (f : Shape) (n l : ℕ) (c t e : HldsGoal) (place : Place) → Laid s code f n (At l (IfGoal c t e)) place → Laid s code f (suc n + goal_size c) t (then_place s n c place) }
    ensures otherwise { (s : Hlds) (code : Flat) (f : Shape) (n l : ℕ) (c t e : HldsGoal) (place : Place) → Laid s code f n (At l (IfGoal c t e)) place → Laid s code f (suc n + goal_size c + goal_size t) e (else_place s n c t place) }
    ensures negation { (s : Hlds) (code : Flat) (f : Shape) (n l : ℕ) (c : HldsGoal) (place : Place) → Laid s code f n (At l (NotGoal c)) place → Laid s code f (suc n) c (negated_place s n place) }
    ensures quantified { (s : Hlds) (code : Flat) (f : Shape) (n l : ℕ) (vs : List ℕ) (c : HldsGoal) (place : Place) → Laid s code f n (At l (SomeGoal vs c)) place → Laid s code f (suc n) c (some_place s n place) }
{}

/// A frame's slots are enough for its variables and the heights that its goals keep, of which none is kept twice.
pub fn shapes_are_right()
    ensures { (s : Hlds) (q : ℕ) (p : Procedure) → IsShape (shape_of s q p) }
{}
