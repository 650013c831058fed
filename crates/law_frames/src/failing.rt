// Failures, ends and exceptions of a machine in place. Each law is the contract of a function that does nothing.
ghost use Rattle.std.specs.Prelude.{◌≡◌, ◌≤◌, ◌<◌, ℕ, suc, Bool, true, List, [], ◌∷◌, ◌++◌, length};
ghost use Rattle.md_hlds.specs.HldsGoal.{Numbered};
ghost use Rattle.md_hlds.specs.Value.{Value};
ghost use Rattle.md_hlds.specs.Trace.{Exit, Fail, Answer, Frame};
ghost use Rattle.law_steps.specs.State.{Wait, State};
ghost use Rattle.law_frames.specs.Ways.{Leaves, Address, pop, port, to, tries, redoes, Way, joins, holds, denies, finds, exits, yields, halts, arm_way};
ghost use Rattle.law_frames.specs.Stores.{Act, Choice, choice, Store, Perm, Below, AlikeBelow, Same, arms_choices, trimmed, top, IsStacked, with_values, copy_all};
ghost use Rattle.law_frames.specs.Standing.{Failing, Going, Ending, Runs, Misses, Raises, Stands};
ghost use Rattle.law_frames.specs.Moves.{MovesTo, Stops, env_of};
ghost use Rattle.law_frames.specs.After.{AreCallers, PortsTo, RedoesTo, CutsTo, ExitsTo, YieldsTo, LeavesTo};

/// Whatever is written into open cells, what stands in frames and what waits there is kept; and so it is with less leave
/// than before, as far as what an end finds in the frames below it goes with the same.
pub fn frame_rule()
    ensures failing { (lv : Leaves) (S T : Store) (V W : Perm) (a : Address) (x : Act) (c : List Act) (cs : List Choice) (ws : List Wait) → Below W V → Same V S T → Failing lv S V a x c cs ws → Failing lv T W a x c cs ws }
    ensures going { (lv : Leaves) (S T : Store) (V : Perm) (place back : Way) (x : Act) (c : List Act) (cs : List Choice) (f : Frame) (js : List Frame) (ws : List Wait) → Same V S T → Going lv S V place back x c cs f js ws → Going lv T V place back x c cs f js ws }
    ensures ending { (lv : Leaves) (S T : Store) (V W : Perm) (end : Way) (x : Act) (c : List Act) (cs : List Choice) (pairs : List (ℕ × ℕ)) (js : List Frame) (ws : List Wait) → Below W V → AlikeBelow x.index W V → Same V S T → Ending lv S V end x c cs pairs js ws → Ending lv T W end x c cs pairs js ws }
{}

/// Failures: to the newest choice; on with an else part or with what follows a negation; to a fail port, of an activation
/// with a caller or of main; to the next arm of a disjunction, above a choice of those after it; and to a redo port.
pub fn failures()
    ensures pops { (lv : Leaves) (S : Store) (x : Act) (c : List Act) (ch : Choice) (cs : List Choice) (k : ℕ) (st : State) → Stands lv S (Misses pop x c) (ch ∷ cs) k st → MovesTo lv st [] S (Misses ch.address ch.act ch.callers) cs k }
    ensures none_left { (lv : Leaves) (S : Store) (x : Act) (c : List Act) (k : ℕ) (st : State) → Stands lv S (Misses pop x c) [] k st → ⊥ }
    ensures otherwise { (lv : Leaves) (S : Store) (w : Way) (x : Act) (c : List Act) (cs : List Choice) (k : ℕ) (st : State) → Stands lv S (Misses (to w) x c) cs k st → MovesTo lv st [] S (Runs w x c) cs k }
    ensures fails { (lv : Leaves) (S : Store) (x y : Act) (c : List Act) (cs : List Choice) (k : ℕ) (st : State) → Stands lv S (Misses port x (y ∷ c)) cs k st → PortsTo lv S k x y c cs st }
    ensures main_fails { (lv : Leaves) (S : Store) (x : Act) (cs : List Choice) (k : ℕ) (st : State) → Stands lv S (Misses port x []) cs k st → Stops st (Fail 0 ∷ []) }
    ensures at_port { (lv : Leaves) (S : Store) (x : Act) (c : List Act) (cs : List Choice) (k : ℕ) (st : State) → Stands lv S (Misses port x c) cs k st → AreCallers S x c }
    ensures tries { (lv : Leaves) (S : Store) (p : Numbered) (ps : List Numbered) (a : Address) (w : Way) (x : Act) (c : List Act) (cs : List Choice) (k : ℕ) (st : State) → Stands lv S (Misses (tries p ps a w) x c) cs k st → MovesTo lv st [] S (Runs (arm_way lv p ps a w) x c) (arms_choices x c ps a w cs) k }
    ensures redoes { (lv : Leaves) (S : Store) (a : Address) (x : Act) (c : List Act) (cs : List Choice) (k : ℕ) (st : State) → Stands lv S (Misses (redoes a) x c) cs k st → RedoesTo lv S k a x c cs st }
{}

/// The ends of conditions: it holds, and the then part follows; what is negated holds, and the negation fails; a quantified
/// goal has its first answer. Each drops the choices above a height that the frame keeps, where it cuts. And a choice that
/// is left so that what follows is reached with choices or without.
pub fn ends_of_conditions()
    ensures holds { (lv : Leaves) (S : Store) (a : Address) (cut : Bool) (n : ℕ) (t : Way) (x : Act) (c : List Act) (cs : List Choice) (k : ℕ) (st : State) → Stands lv S (Runs (holds a cut n t) x c) cs k st → CutsTo lv st [] S (Runs t x c) cut (S.heights x.index (suc n)) cs k }
    ensures denies { (lv : Leaves) (S : Store) (a : Address) (cut : Bool) (n : ℕ) (b : Address) (x : Act) (c : List Act) (cs : List Choice) (k : ℕ) (st : State) → Stands lv S (Runs (denies a cut n b) x c) cs k st → CutsTo lv st [] S (Misses b x c) cut (S.heights x.index (suc n)) cs k }
    ensures finds { (lv : Leaves) (S : Store) (a : Address) (cut : Bool) (n : ℕ) (w : Way) (x : Act) (c : List Act) (cs : List Choice) (k : ℕ) (st : State) → Stands lv S (Runs (finds a cut n w) x c) cs k st → CutsTo lv st [] S (Runs w x c) cut (S.heights x.index (suc n)) cs k }
    ensures joins { (lv : Leaves) (S : Store) (a : Address) (w : Way) (x : Act) (c : List Act) (cs : List Choice) (k : ℕ) (st : State) → Stands lv S (Runs (joins a w) x c) cs k st → MovesTo lv st [] S (Runs w x c) (choice x c a ∷ cs) k }
{}

/// The ends of bodies: an activation exits, its outputs are copied to the frame of its caller, and the caller goes on; what
/// is newer than a body that is cut is dropped, and one that may have more answers leaves a choice for its redo. Main's
/// exit ends the run.
pub fn ends_of_bodies()
    ensures exits { (lv : Leaves) (S : Store) (a : Address) (cut : Bool) (x y : Act) (c : List Act) (cs : List Choice) (k : ℕ) (st : State) → Stands lv S (Runs (exits a cut) x (y ∷ c)) cs k st → ExitsTo lv S st x y c cut cs k }
    ensures yields { (lv : Leaves) (S : Store) (a : Address) (x y : Act) (c : List Act) (cs : List Choice) (k : ℕ) (st : State) → Stands lv S (Runs (yields a) x (y ∷ c)) cs k st → YieldsTo lv S st a x y c cs k }
    ensures main_exits { (lv : Leaves) (S : Store) (a : Address) (cut : Bool) (x : Act) (cs : List Choice) (k : ℕ) (st : State) → Stands lv S (Runs (exits a cut) x []) cs k st → Stops st (Exit 0 ∷ Answer (env_of st) ∷ []) }
    ensures main_yields { (lv : Leaves) (S : Store) (a : Address) (x : Act) (cs : List Choice) (k : ℕ) (st : State) → Stands lv S (Runs (yields a) x []) cs k st → Stops st (Exit 0 ∷ Answer (env_of st) ∷ []) }
    ensures main_halts { (lv : Leaves) (S : Store) (a : Address) (x : Act) (c : List Act) (cs : List Choice) (k : ℕ) (st : State) → Stands lv S (Runs (halts a) x c) cs k st → Stops st (Exit 0 ∷ Answer (env_of st) ∷ []) }
{}

/// An exception leaves one activation after the other, along their callers, and when it has left all of them the run ends.
pub fn exceptions()
    ensures leaves { (lv : Leaves) (S : Store) (x : Act) (c : List Act) (cs : List Choice) (k : ℕ) (st : State) → Stands lv S (Raises (x ∷ c)) cs k st → LeavesTo lv S st x c cs k }
    ensures ends { (lv : Leaves) (S : Store) (cs : List Choice) (k : ℕ) (st : State) → Stands lv S (Raises []) cs k st → Stops st [] }
{}

/// A stack of choices that is cut to a height has so many, its oldest. And what is read lies in frames below a top, which only a call
/// raises: not a choice, nor what comes back to one, nor an exit, nor a cut.
pub fn tops_fall()
    ensures so_many { (h : ℕ) (cs : List Choice) → h ≤ length cs → length (trimmed h cs) ≡ h }
    ensures the_oldest { (h : ℕ) (cs : List Choice) → (dropped : List Choice) × (cs ≡ dropped ++ trimmed h cs) }
    ensures above { (x : Act) (cs : List Choice) → x.index < top x cs }
    ensures choices { (x : Act) (c : List Act) (a : Address) (cs : List Choice) → top x (choice x c a ∷ cs) ≡ top x cs }
    ensures redos { (x y : Act) (c : List Act) (a : Address) (cs : List Choice) → y.index < x.index → top y (choice x c a ∷ cs) ≡ top x cs }
    ensures pops { (x : Act) (ch : Choice) (cs : List Choice) → top ch.act cs ≤ top x (ch ∷ cs) }
    ensures exits { (x y : Act) (cs : List Choice) → y.index < x.index → top y cs ≤ top x cs }
    ensures cuts { (h : ℕ) (x : Act) (cs : List Choice) → top x (trimmed h cs) ≤ top x cs }
{}

/// An activation in the first frame has no callers, and each other has one, in the frame that its head names, below it.
pub fn callers_are_below()
    ensures none { (x : Act) (c : List Act) → IsStacked x c → x.index ≡ 0 → c ≡ [] }
    ensures some { (x : Act) (c : List Act) → IsStacked x c → (x.index ≡ 0 → ⊥) → (y : Act) × (rest : List Act) × (c ≡ y ∷ rest) × (x.caller ≡ y.index) × (y.index < x.index) × IsStacked y rest }
{}

/// Values that are written to slots of one frame, and an exit's copies, change slots of that frame alone.
pub fn writes_keep_the_rest()
    ensures written { (bs : List (ℕ × Value)) (S : Store) (i j y : ℕ) → (j ≡ i → ⊥) → (with_values bs S i).values j y ≡ S.values j y }
    ensures written_heights { (bs : List (ℕ × Value)) (S : Store) (i j n : ℕ) → (with_values bs S i).heights j n ≡ S.heights j n }
    ensures written_acts { (bs : List (ℕ × Value)) (S : Store) (i j : ℕ) → (with_values bs S i).acts j ≡ S.acts j }
    ensures copied { (outs : List (ℕ × ℕ)) (S : Store) (from into j y : ℕ) → (j ≡ into → ⊥) → (copy_all outs S from into).values j y ≡ S.values j y }
    ensures copied_heights { (outs : List (ℕ × ℕ)) (S : Store) (from into j n : ℕ) → (copy_all outs S from into).heights j n ≡ S.heights j n }
    ensures copied_acts { (outs : List (ℕ × ℕ)) (S : Store) (from into j : ℕ) → (copy_all outs S from into).acts j ≡ S.acts j }
{}
