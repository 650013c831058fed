// The code of a program leads along the ways of its clauses. Each law is the contract of a function that does nothing.
ghost use Rattle.std.specs.Prelude.{◌≡◌, ℕ, true, false, List, Some, slice_get};
ghost use Rattle.md_hlds.specs.HldsGoal.{HldsGoal, numbered_goal};
ghost use Rattle.md_hlds.specs.Hlds.{Procedure, Hlds, body_number};
ghost use Rattle.md_modes.specs.Goals.{variables};
ghost use Rattle.md_reader.specs.Grammar.{Spells};
ghost use Rattle.md_flat.specs.declared.code.Code.{Code};
ghost use Rattle.law_frames.specs.Ways.{Address, Way, on, cut_body, whole_body};
ghost use Rattle.md_code.specs.Leaves.{leaves_table, has_choices};
ghost use Rattle.md_code.specs.Tables.{head_at, entry_at};
ghost use Rattle.md_code.specs.Blocks.{Place, pending_after};
ghost use Rattle.md_code.specs.Details.{IsCodeOf};
ghost use Rattle.law_flat.specs.Flat.{Flat, flat_told};
ghost use Rattle.law_flat.specs.Shapes.{Shape, InRange, shape_of};
ghost use Rattle.law_flat.specs.Laid.{Laid, IsCommon, IsArmed};
ghost use Rattle.law_flat.specs.Leads.{Leads, Enters, FailsOff, is_first};

/// The code of a program that a text spells leads along the body of each procedure, from the head of its goal on: one that is
/// cut at its first answer, or one that has all its answers. Where a call begins, the body is entered: a height to which it is
/// cut is kept before it.
pub fn bodies_lead()
    ensures cut { (bytes : List ℕ) (s : Hlds) → Spells bytes s → (code : Code) → IsCodeOf s code → (q : ℕ) (p : Procedure) → slice_get s.procedures q ≡ Some p → has_choices p.det ≡ false → Leads s (flat_told code) (shape_of s q p) (head_at (body_number s q)) 0 (cut_body (leaves_table s) (numbered_goal (body_number s q) p.body)) }
    ensures whole { (bytes : List ℕ) (s : Hlds) → Spells bytes s → (code : Code) → IsCodeOf s code → (q : ℕ) (p : Procedure) → slice_get s.procedures q ≡ Some p → has_choices p.det ≡ true → Leads s (flat_told code) (shape_of s q p) (head_at (body_number s q)) 0 (whole_body (leaves_table s) (numbered_goal (body_number s q) p.body)) }
    ensures cut_entered { (bytes : List ℕ) (s : Hlds) → Spells bytes s → (code : Code) → IsCodeOf s code → (q : ℕ) (p : Procedure) → slice_get s.procedures q ≡ Some p → has_choices p.det ≡ false → Enters s (flat_told code) (shape_of s q p) (entry_at s q p) (cut_body (leaves_table s) (numbered_goal (body_number s q) p.body)) }
    ensures whole_entered { (bytes : List ℕ) (s : Hlds) → Spells bytes s → (code : Code) → IsCodeOf s code → (q : ℕ) (p : Procedure) → slice_get s.procedures q ≡ Some p → has_choices p.det ≡ true → Enters s (flat_told code) (shape_of s q p) (entry_at s q p) (whole_body (leaves_table s) (numbered_goal (body_number s q) p.body)) }
{}

/// Where a goal stands, each of whose disjunctions has an arm and each of whose variables a slot, and what follows it and where it fails to stand where its place
/// says, the code leads along the goal and then what follows.
pub fn goals_lead()
    ensures { (s : Hlds) (code : Flat) (f : Shape) → IsCommon code → (n : ℕ) (g : HldsGoal) (place : Place) (a : Address) (w : Way) → Laid s code f n g place → IsArmed g → InRange f (variables g) → FailsOff s code f place.other a → is_first place.next ≡ false → Leads s code f place.next (pending_after s n place.pending g) w → Leads s code f (head_at n) place.pending (on a (numbered_goal n g) w) }
{}
