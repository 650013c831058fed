// Turns of a machine in place. Each law is the contract of a function that does nothing.
ghost use Rattle.std.specs.Prelude.{◌≡◌, ◌≤◌, ℕ, suc, ◌+◌, Bool, true, false, List, [], ◌∷◌, ◌++◌, length, Option, Some, None, nat_eq};
ghost use Rattle.md_hlds.specs.HldsGoal.{Simple, HldsGoal, At, SimpleGoal, ConjGoal, DisjGoal, IfGoal, NotGoal, SomeGoal, HldsGoals, goal_size, Numbered, numbered_goal, numbered_from};
ghost use Rattle.md_hlds.specs.Hlds.{Hlds, Procedure};
ghost use Rattle.md_hlds.specs.Value.{Value, Env, value_at};
ghost use Rattle.md_hlds.specs.Simple.{Go, No, Stop, simple};
ghost use Rattle.md_hlds.specs.Simple.{Throws as Raised};
ghost use Rattle.md_hlds.specs.Switch.{Key, switch_shape, arm_for};
ghost use Rattle.md_hlds.specs.Trace.{Call, Throw, allocated, written, call_weight, entered, pairs_of, without};
ghost use Rattle.law_steps.specs.State.{State};
ghost use Rattle.law_steps.specs.Steps.{Sticks};
ghost use Rattle.law_frames.specs.Ways.{Leaves, Address, to, Way, on, part_way, parts_way, condition_way, negation_way, some_way, arms_address, cut_body, whole_body, Mentions, some_leaves};
ghost use Rattle.law_frames.specs.Stores.{Act, Choice, choice, choice_if, Store, with_values, with_height_if, bind_all, AreFresh, AreMentioned, top, HandsOver};
ghost use Rattle.law_frames.specs.Standing.{Runs, Misses, Raises, Stands};
ghost use Rattle.law_frames.specs.Moves.{Unfolds, TurnsTo, AnyTurn, env_of};
ghost use Rattle.law_frames.specs.Leaving.{has_many, LeavesRight, AreTried};
ghost use Rattle.law_frames.specs.Calls.{NewFrame, AgreeBelow, with_frame, body_of, callee, captured, PassesIn, frame_written, HandsRight, IsCallOf};

/// Simple goals. Each variable of a goal that has a value has it in its slot (`reads`). A goal that succeeds gives values to
/// variables of its own that had none, one after the other (`binds`), and it is enough to write them to their slots.
pub fn turns_of_simple_goals()
    ensures reads { (lv : Leaves) (S : Store) (a : Address) (p : Numbered) (w : Way) (x : Act) (c : List Act) (cs : List Choice) (k : ℕ) (st : State) → Stands lv S (Runs (on a p w) x c) cs k st → (y : ℕ) (v : Value) → Mentions p.goal y → value_at (env_of st) y ≡ Some v → S.values x.index y ≡ v }
    ensures binds { (s : Hlds) (l : ℕ) (g : Simple) (e d : Env) (extra words : ℕ) (out : Option (List ℕ)) → simple s e g ≡ Go d extra words out → (bs : List (ℕ × Value)) × (d ≡ bind_all bs e) × AreFresh bs e × AreMentioned bs (At l (SimpleGoal g)) }
    ensures goes { (s : Hlds) (lv : Leaves) (S : Store) (a : Address) (n l : ℕ) (g : Simple) (w : Way) (x : Act) (c : List Act) (cs : List Choice) (k : ℕ) (st : State) → Stands lv S (Runs (on a (numbered_goal n (At l (SimpleGoal g))) w) x c) cs k st → lv n ≡ false → (extra words : ℕ) (out : Option (List ℕ)) (bs : List (ℕ × Value)) → simple s (env_of st) g ≡ Go (bind_all bs (env_of st)) extra words out → AreFresh bs (env_of st) → AreMentioned bs (At l (SimpleGoal g)) → TurnsTo s lv st x.number n (suc extra) (allocated x.number words ++ written out) (with_values bs S x.index) (Runs w x c) cs k }
    ensures fails { (s : Hlds) (lv : Leaves) (S : Store) (a : Address) (n l : ℕ) (g : Simple) (w : Way) (x : Act) (c : List Act) (cs : List Choice) (k : ℕ) (st : State) → Stands lv S (Runs (on a (numbered_goal n (At l (SimpleGoal g))) w) x c) cs k st → (extra : ℕ) → simple s (env_of st) g ≡ No extra → TurnsTo s lv st x.number n (suc extra) [] S (Misses a x c) cs k }
    ensures throws { (s : Hlds) (lv : Leaves) (S : Store) (a : Address) (n l : ℕ) (g : Simple) (w : Way) (x : Act) (c : List Act) (cs : List Choice) (k : ℕ) (st : State) → Stands lv S (Runs (on a (numbered_goal n (At l (SimpleGoal g))) w) x c) cs k st → (bytes : List ℕ) → simple s (env_of st) g ≡ Raised bytes → TurnsTo s lv st x.number n 1 (Throw bytes ∷ []) S (Raises (x ∷ c)) cs k }
    ensures sticks { (s : Hlds) (lv : Leaves) (S : Store) (a : Address) (n l : ℕ) (g : Simple) (w : Way) (x : Act) (c : List Act) (cs : List Choice) (k : ℕ) (st : State) → Stands lv S (Runs (on a (numbered_goal n (At l (SimpleGoal g))) w) x c) cs k st → simple s (env_of st) g ≡ Stop → Unfolds s st x.number n (Sticks 1) }
{}

/// A conjunction's parts follow one another.
pub fn turns_of_conjunctions()
    ensures goes { (s : Hlds) (lv : Leaves) (S : Store) (a : Address) (n l : ℕ) (ps : HldsGoals) (w : Way) (x : Act) (c : List Act) (cs : List Choice) (k : ℕ) (st : State) → Stands lv S (Runs (on a (numbered_goal n (At l (ConjGoal ps))) w) x c) cs k st → lv n ≡ some_leaves lv (suc n) ps → TurnsTo s lv st x.number n 1 [] S (Runs (parts_way lv (suc n) ps a w) x c) cs k }
{}

/// If-then-elses, negations and quantified goals: the condition runs. Where it may leave choices the frame keeps the height
/// of the stack, and an if-then-else and a negation leave a choice that goes on where the condition fails; where it can't,
/// nothing is written, and the place itself says where the failure goes.
pub fn turns_of_conditions()
    ensures if_goes { (s : Hlds) (lv : Leaves) (S : Store) (a : Address) (n l : ℕ) (i t e : HldsGoal) (w : Way) (x : Act) (c : List Act) (cs : List Choice) (k : ℕ) (st : State) → Stands lv S (Runs (on a (numbered_goal n (At l (IfGoal i t e))) w) x c) cs k st → (lv (suc n + goal_size i) ≡ true → lv n ≡ true) → (lv (suc n + goal_size i + goal_size t) ≡ true → lv n ≡ true) → TurnsTo s lv st x.number n 1 [] (with_height_if (lv (suc n)) S x.index (suc n) (length cs)) (Runs (condition_way lv n (numbered_goal (suc n) i) (part_way lv n a (numbered_goal (suc n + goal_size i) t) w) (part_way lv n a (numbered_goal (suc n + goal_size i + goal_size t) e) w)) x c) (choice_if (lv (suc n)) (choice x c (to (part_way lv n a (numbered_goal (suc n + goal_size i + goal_size t) e) w))) cs) k }
    ensures not_goes { (s : Hlds) (lv : Leaves) (S : Store) (a : Address) (n l : ℕ) (i : HldsGoal) (w : Way) (x : Act) (c : List Act) (cs : List Choice) (k : ℕ) (st : State) → Stands lv S (Runs (on a (numbered_goal n (At l (NotGoal i))) w) x c) cs k st → lv n ≡ false → TurnsTo s lv st x.number n 1 [] (with_height_if (lv (suc n)) S x.index (suc n) (length cs)) (Runs (negation_way lv n a (numbered_goal (suc n) i) w) x c) (choice_if (lv (suc n)) (choice x c (to w)) cs) k }
    ensures some_goes { (s : Hlds) (lv : Leaves) (S : Store) (a : Address) (n l : ℕ) (vs : List ℕ) (i : HldsGoal) (w : Way) (x : Act) (c : List Act) (cs : List Choice) (k : ℕ) (st : State) → Stands lv S (Runs (on a (numbered_goal n (At l (SomeGoal vs i))) w) x c) cs k st → lv n ≡ false → TurnsTo s lv st x.number n 1 [] (with_height_if (lv (suc n)) S x.index (suc n) (length cs)) (Runs (some_way lv n a (numbered_goal (suc n) i) w) x c) cs k }
{}

/// Disjunctions: the arms are tried one after the other, or, where it is a switch on a variable that has a value, the one
/// arm for it runs, if there is one.
pub fn turns_of_disjunctions()
    ensures tries { (s : Hlds) (lv : Leaves) (S : Store) (a : Address) (n l : ℕ) (ps : HldsGoals) (w : Way) (x : Act) (c : List Act) (cs : List Choice) (k : ℕ) (st : State) → Stands lv S (Runs (on a (numbered_goal n (At l (DisjGoal ps))) w) x c) cs k st → lv n ≡ true → AreTried (env_of st) (switch_shape s ps) → TurnsTo s lv st x.number n 1 [] S (Misses (arms_address (numbered_from (suc n) ps) a w) x c) cs k }
    ensures arm { (s : Hlds) (lv : Leaves) (S : Store) (a : Address) (n l : ℕ) (ps : HldsGoals) (w : Way) (x : Act) (c : List Act) (cs : List Choice) (k : ℕ) (st : State) → Stands lv S (Runs (on a (numbered_goal n (At l (DisjGoal ps))) w) x c) cs k st → (some_leaves lv (suc n) ps ≡ true → lv n ≡ true) → (shape : ℕ × List Key) (v : Value) (q : Numbered) → switch_shape s ps ≡ Some shape → value_at (env_of st) shape.0 ≡ Some v → arm_for v shape.1 (numbered_from (suc n) ps) ≡ Some q → TurnsTo s lv st x.number n 1 [] S (Runs (part_way lv n a q w) x c) cs k }
    ensures no_arm { (s : Hlds) (lv : Leaves) (S : Store) (a : Address) (n l : ℕ) (ps : HldsGoals) (w : Way) (x : Act) (c : List Act) (cs : List Choice) (k : ℕ) (st : State) → Stands lv S (Runs (on a (numbered_goal n (At l (DisjGoal ps))) w) x c) cs k st → (shape : ℕ × List Key) (v : Value) → switch_shape s ps ≡ Some shape → value_at (env_of st) shape.0 ≡ Some v → arm_for v shape.1 (numbered_from (suc n) ps) ≡ None → TurnsTo s lv st x.number n 1 [] S (Misses a x c) cs k }
{}

/// Calls, of a predicate or by a closure: the body begins in the first frame that nothing reads any more, however that
/// frame was written (`frame` is one way). A procedure that has one answer at most is cut, and the others aren't.
pub fn turns_of_calls()
    ensures cut { (s : Hlds) (lv : Leaves) (S T : Store) (a : Address) (p : Numbered) (w : Way) (x : Act) (c : List Act) (cs : List Choice) (k : ℕ) (st : State) (site : ℕ) (q : ℕ × Procedure) (vs : List Value) (ys : List ℕ) (outs : List (ℕ × ℕ)) → Stands lv S (Runs (on a p w) x c) cs k st → IsCallOf s (env_of st) p.goal site q vs ys → nat_eq (length vs + length ys) (length q.1.head) ≡ true → has_many q.1.det ≡ false → lv p.number ≡ false → HandsOver (env_of st) (pairs_of (without vs q.1.head) ys) outs → NewFrame S T (top x cs) (callee (top x cs) k x q vs ys outs a p w) (entered q.1 vs ys (env_of st)) (length cs) → TurnsTo s lv st x.number p.number (call_weight q.1) (Call k (Some x.number) (Some site) q.0 ∷ []) T (Runs (cut_body lv (body_of s q)) (callee (top x cs) k x q vs ys outs a p w) (x ∷ c)) cs (suc k) }
    ensures whole { (s : Hlds) (lv : Leaves) (S T : Store) (a : Address) (p : Numbered) (w : Way) (x : Act) (c : List Act) (cs : List Choice) (k : ℕ) (st : State) (site : ℕ) (q : ℕ × Procedure) (vs : List Value) (ys : List ℕ) (outs : List (ℕ × ℕ)) (h : ℕ) → Stands lv S (Runs (on a p w) x c) cs k st → IsCallOf s (env_of st) p.goal site q vs ys → nat_eq (length vs + length ys) (length q.1.head) ≡ true → has_many q.1.det ≡ true → lv p.number ≡ true → HandsOver (env_of st) (pairs_of (without vs q.1.head) ys) outs → NewFrame S T (top x cs) (callee (top x cs) k x q vs ys outs a p w) (entered q.1 vs ys (env_of st)) h → TurnsTo s lv st x.number p.number (call_weight q.1) (Call k (Some x.number) (Some site) q.0 ∷ []) T (Runs (whole_body lv (body_of s q)) (callee (top x cs) k x q vs ys outs a p w) (x ∷ c)) cs (suc k) }
    ensures frame { (s : Hlds) (lv : Leaves) (S : Store) (a : Address) (p : Numbered) (w : Way) (x : Act) (c : List Act) (cs : List Choice) (k : ℕ) (st : State) (site : ℕ) (q : ℕ × Procedure) (vs : List Value) (ys : List ℕ) (outs ins : List (ℕ × ℕ)) → Stands lv S (Runs (on a p w) x c) cs k st → IsCallOf s (env_of st) p.goal site q vs ys → nat_eq (length vs + length ys) (length q.1.head) ≡ true → PassesIn (env_of st) (pairs_of (without vs q.1.head) ys) ins → NewFrame S (frame_written S x.index (top x cs) (callee (top x cs) k x q vs ys outs a p w) (length cs) (captured vs q.1.head) ins) (top x cs) (callee (top x cs) k x q vs ys outs a p w) (entered q.1 vs ys (env_of st)) (length cs) }
{}

/// Frames from the top on may hold anything, and be replaced: by any frame that has the values with which a body begins.
pub fn frames_above_the_top()
    ensures anything { (lv : Leaves) (S T : Store) (w : Way) (x : Act) (c : List Act) (cs : List Choice) (k : ℕ) (st : State) → AgreeBelow (top x cs) S T → Stands lv S (Runs w x c) cs k st → Stands lv T (Runs w x c) cs k st }
    ensures replaced { (S : Store) (i : ℕ) (slots : ℕ → Value) (heights : ℕ → ℕ) (x : Act) (n : ℕ) → n ≤ i → AgreeBelow n S (with_frame S i slots heights x) }
    ensures new { (S : Store) (i : ℕ) (slots : ℕ → Value) (heights : ℕ → ℕ) (x : Act) (e : Env) → x.index ≡ i → ((y : ℕ) (v : Value) → value_at e y ≡ Some v → slots y ≡ v) → NewFrame S (with_frame S i slots heights x) i x e (heights 0) }
{}

/// Where what is said of choices is right, and of what calls hand over, every turn leads to a state that the machine in
/// place stands at, or no rule applies.
pub fn every_turn()
    ensures leads { (s : Hlds) (lv : Leaves) (S : Store) (a : Address) (p : Numbered) (w : Way) (x : Act) (c : List Act) (cs : List Choice) (k : ℕ) (st : State) → Stands lv S (Runs (on a p w) x c) cs k st → LeavesRight s lv p.number (env_of st) p.goal → HandsRight s (env_of st) p.goal → AnyTurn s lv st x.number p.number }
{}
