// Steps that write out over flat code. Each law is the contract of a function that does nothing.
ghost use Rattle.law_flat.specs.Flat.{Flat};
ghost use Rattle.law_flat.specs.Leads.{Leads};
ghost use Rattle.law_flat.specs.Shapes.{InRange};
ghost use Rattle.law_flat.specs.Shows.{Frames};
ghost use Rattle.law_flat.specs.Stays.{AfterSeeing, Here};
ghost use Rattle.law_frames.specs.Standing.{Runs};
ghost use Rattle.law_frames.specs.Stores.{Act, Choice, Store};
ghost use Rattle.law_frames.specs.Ways.{Address, Way, on};
ghost use Rattle.md_code.specs.Tables.{literals_of};
ghost use Rattle.md_flat.specs.Meaning.{State, slot};
ghost use Rattle.md_heap.specs.declared.value.Value.TheVariants.{Int, Lit};
ghost use Rattle.md_hlds.specs.Hlds.{Hlds};
ghost use Rattle.md_hlds.specs.HldsGoal.{At, EndsLine, SimpleGoal, WritesInt, WritesText, numbered_goal};
ghost use Rattle.md_hlds.specs.Trace.{Items, Out};
ghost use Rattle.md_modes.specs.Modes.{mode_fault};
ghost use Rattle.md_reader.specs.Grammar.{Spells};
ghost use Rattle.std.specs.Fmt.{signed_decimal};
ghost use Rattle.std.specs.Prelude.{List, None, Some, [], slice_get, suc, ℕ, ℤ, ◌++◌, ◌∷◌, ◌≡◌};
ghost use Rattle.md_flat.specs.Meaning as flat;

/// An integer or a literal that a slot has is written out, and so is the end of a line: what is pending, the goal's own weight and
/// each byte are charged together.
pub fn goals_that_write_out<M>()
    ensures integer { (spelled : List ℕ) → (s : Hlds) → (code : Flat) → (marks : List (M × ℕ)) → (b : ℕ) → (seen : Items) → (st : State M) → (F : Frames) → (p : ℕ) → (S : Store) → (n l y before after : ℕ) → (a : Address) → (w : Way) → (x : Act) → (c : List Act) → (cs : List Choice) → (next : ℕ) → Spells spelled s → mode_fault s ≡ None → InRange (F.shapes x.index) (y ∷ before ∷ after ∷ []) → Leads s code (F.shapes x.index) next 0 w → Here s code marks b seen st F p S (Runs (on a (numbered_goal n (At l (SimpleGoal (WritesInt y before after)))) w) x c) x cs cs → (i : ℤ) × (slot st y ≡ Int i) × AfterSeeing s code marks b seen (seen ++ Out (signed_decimal i) ∷ []) (flat.int_written y after (suc p) next st) }
    ensures literal { (spelled : List ℕ) → (s : Hlds) → (code : Flat) → (marks : List (M × ℕ)) → (b : ℕ) → (seen : Items) → (st : State M) → (F : Frames) → (p : ℕ) → (S : Store) → (n l y before after : ℕ) → (a : Address) → (w : Way) → (x : Act) → (c : List Act) → (cs : List Choice) → (next : ℕ) → Spells spelled s → mode_fault s ≡ None → InRange (F.shapes x.index) (y ∷ before ∷ after ∷ []) → Leads s code (F.shapes x.index) next 0 w → Here s code marks b seen st F p S (Runs (on a (numbered_goal n (At l (SimpleGoal (WritesText y before after)))) w) x c) x cs cs → (k : ℕ) × ((bytes : List ℕ) × (slot st y ≡ Lit k) × (slice_get (literals_of s) k ≡ Some bytes) × AfterSeeing s code marks b seen (seen ++ Out bytes ∷ []) (flat.text_written (literals_of s) y after (suc p) next st)) }
    ensures line { (spelled : List ℕ) → (s : Hlds) → (code : Flat) → (marks : List (M × ℕ)) → (b : ℕ) → (seen : Items) → (st : State M) → (F : Frames) → (p : ℕ) → (S : Store) → (n l before after : ℕ) → (a : Address) → (w : Way) → (x : Act) → (c : List Act) → (cs : List Choice) → (next : ℕ) → Spells spelled s → mode_fault s ≡ None → InRange (F.shapes x.index) (before ∷ after ∷ []) → Leads s code (F.shapes x.index) next 0 w → Here s code marks b seen st F p S (Runs (on a (numbered_goal n (At l (SimpleGoal (EndsLine before after)))) w) x c) x cs cs → AfterSeeing s code marks b seen (seen ++ Out (10 ∷ []) ∷ []) (flat.line_ended after (suc p) next st) }
{}
