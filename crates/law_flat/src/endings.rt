// How runs end over flat code. Each law is the contract of a function that does nothing.
ghost use Rattle.law_flat.specs.Flat.{Flat};
ghost use Rattle.law_flat.specs.Shows.{Frames};
ghost use Rattle.law_flat.specs.Stays.{AfterSeeing, Here, MainHere};
ghost use Rattle.law_frames.specs.Standing.{Misses, Raises, Runs};
ghost use Rattle.law_frames.specs.Stores.{Act, Choice, Store, trimmed};
ghost use Rattle.law_frames.specs.Ways.{Address, exits, port, yields};
ghost use Rattle.md_code.specs.Tables.{halt_address, over_address, unwind_address};
ghost use Rattle.md_flat.specs.Meaning.{Ended, On, State, if_charged};
ghost use Rattle.md_flat.specs.declared.state.Frame.{Frame};
ghost use Rattle.md_hlds.specs.Hlds.{Hlds};
ghost use Rattle.md_hlds.specs.Trace.{Excp, Exit, Fail, Items};
ghost use Rattle.std.specs.Prelude.{List, Some, [], false, length, slice_get, true, ℕ, ◌++◌, ◌<◌, ◌∷◌, ◌≡◌};

/// Main has no caller: at its exit, and where it fails, its frame is the first and its call has no detail. At whatever state the
/// machine then halts, the run has only its answer left; or, where main has failed, nothing.
pub fn ends_of_main<M>()
    ensures exits { (s : Hlds) → (code : Flat) → (marks : List (M × ℕ)) → (b : ℕ) → (seen : Items) → (st : State M) → (F : Frames) → (p : ℕ) → (S : Store) → (a : Address) → (x : Act) → (cs : List Choice) → Here s code marks b seen st F p S (Runs (exits a false) x []) x cs cs → MainHere code st × ((there : State M) → there.address ≡ halt_address → AfterSeeing s code marks b seen (seen ++ Exit x.number ∷ []) (if_charged p st (On there))) }
    ensures exits_cut { (s : Hlds) → (code : Flat) → (marks : List (M × ℕ)) → (b : ℕ) → (seen : Items) → (st : State M) → (F : Frames) → (p : ℕ) → (S : Store) → (a : Address) → (x : Act) → (cs : List Choice) → Here s code marks b seen st F p S (Runs (exits a true) x []) x (trimmed (S.heights x.index 0) cs) cs → MainHere code st × ((there : State M) → there.address ≡ halt_address → AfterSeeing s code marks b seen (seen ++ Exit x.number ∷ []) (if_charged p st (On there))) }
    ensures leaves { (s : Hlds) → (code : Flat) → (marks : List (M × ℕ)) → (b : ℕ) → (seen : Items) → (st : State M) → (F : Frames) → (p : ℕ) → (S : Store) → (a : Address) → (x : Act) → (cs : List Choice) → Here s code marks b seen st F p S (Runs (yields a) x []) x cs cs → MainHere code st × ((there : State M) → there.address ≡ halt_address → AfterSeeing s code marks b seen (seen ++ Exit x.number ∷ []) (if_charged p st (On there))) }
    ensures fails { (s : Hlds) → (code : Flat) → (marks : List (M × ℕ)) → (b : ℕ) → (seen : Items) → (st : State M) → (F : Frames) → (S : Store) → (x : Act) → (cs : List Choice) → Here s code marks b seen st F 0 S (Misses port x []) x cs cs → MainHere code st × ((there : State M) → there.address ≡ over_address → AfterSeeing s code marks b seen (seen ++ Fail x.number ∷ []) (On there)) }
{}

/// An exception leaves one activation after the other, by their frames: one that has a caller, which is the next; and main, where
/// the run ends.
pub fn exceptions_leave<M>()
    ensures callers { (s : Hlds) → (code : Flat) → (marks : List (M × ℕ)) → (b : ℕ) → (seen : Items) → (st : State M) → (F : Frames) → (base : ℕ) → (S : Store) → (x y : Act) → (c : List Act) → (cs : List Choice) → st.address ≡ unwind_address → Here s code marks b seen (record st { base = base }) F 0 S (Raises (x ∷ y ∷ c)) x cs cs → (f : Frame M) × (slice_get st.frames st.frame ≡ Some f) × (f.caller < length st.frames) × (0 < st.frame) × AfterSeeing s code marks b seen (seen ++ Excp x.number ∷ []) (On (record st { frame = f.caller })) }
    ensures main { (s : Hlds) → (code : Flat) → (marks : List (M × ℕ)) → (b : ℕ) → (seen : Items) → (st : State M) → (F : Frames) → (base : ℕ) → (S : Store) → (x : Act) → (cs : List Choice) → Here s code marks b seen (record st { base = base }) F 0 S (Raises (x ∷ [])) x cs cs → (f : Frame M) × (slice_get st.frames st.frame ≡ Some f) × (f.caller < length st.frames) × (st.frame ≡ 0) × AfterSeeing {M = M} s code marks b seen (seen ++ Excp x.number ∷ []) Ended }
{}
