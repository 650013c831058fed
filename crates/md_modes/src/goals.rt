// The goals of a clause.
ghost use Rattle.std.specs.Prelude.{◌≡◌, ◌≢◌, ◌++◌, ◌&&◌, ℕ, List, [], ◌∷◌, true, None, Ok, Err, IfOk, MatchResult};
ghost use Rattle.md_hlds.specs.HldsGoal.{DisjGoal, SomeGoal, goal_of, goals_of, expr_of, gathered};
ghost use Rattle.md_modes.specs.Goals.{parts_variables};
ghost use Rattle.md_modes.specs.Goals as spec;
ghost use Rattle.md_modes.specs.Notes as noted;
ghost use Rattle.md_modes.specs.Classes.{notes_told};
ghost use Rattle.md_modes.specs.Joins.{Reaches, Ends, occurs};
ghost use Rattle.md_modes.specs.Inside.{IsViewOf, IsChoice, AreAmong, inside};
ghost use Rattle.md_modes.specs.Clauses.{scope_at};
ghost use Rattle.md_inst.specs.Kinds.{inst_map_of};
ghost use Rattle.md_inst.specs.declared.fault.ModeFault.TheVariants as faults;
ghost use Rattle.md_inst.specs.Verdict.{Verdict};
ghost use Rattle.md_inst.specs.declared.fault.ModeFault.{ModeFault};
ghost use Rattle.md_modes.specs.Branches.{After, after};
ghost use Rattle.md_modes.specs.Branches as branches;
ghost use Rattle.md_modes.specs.Tally.{IsLocal};
ghost use Rattle.md_modes.specs.Views.{seen, seen_ends, AllLeave};

use crate::arms::{Arm, add_checked, add_part, end_arms, let_go, no_arms};
use crate::class::Note;
use crate::clause::Clause;
use crate::joined::Joined;
use crate::nonlocals::{View, binds_outside};
use crate::noting::{add_note, end_note};
use crate::start::Start;
use crate::view::put_all;
use md_hlds::{Goal, GoalKind};
use md_inst::{Inst, ModeFault, Spot, atomic};
use std::alloc::Global;

impl<'a, 'b> Clause<'a, 'b> {
    /// Checks a goal of the clause: what is known after it, and whether the place after it is reachable. Notes what is found
    /// at it and at the goals within it, outer before inner.
    #[cycle(goals)]
    pub fn check(
        &self,
        alloc: Global,
        insts: &mut Vec<Inst<'a>>,
        strict: bool,
        goal: &Goal,
        notes: &mut Vec<Note>,
    ) -> Result<bool, ModeFault>
        ensures reaches { Reaches result (inst_map_of insts.new.items) (spec.goal (scope_at self.now strict) (goal_of goal.now) (inst_map_of insts.old.items)) }
        ensures notes { IfOk result (λ reach. notes_told notes.new.items
            ≡ notes_told notes.old.items ++ noted.notes (scope_at self.now strict) (goal_of goal.now) (inst_map_of insts.old.items)) }
    {
        let start = Start::new(alloc, &goal.kind, insts)?;
        let view = start.view(alloc, &self.counts)?;
        let reach = self.check_viewed(alloc, insts, &view, strict, goal, notes);
        drop(view);
        drop(start);
        reach
    }

    /// Checks a goal of whose variables this is known, and notes what is found.
    #[cycle(goals)]
    fn check_viewed(
        &self,
        alloc: Global,
        insts: &mut Vec<Inst<'a>>,
        view: &View<'a, '_>,
        strict: bool,
        goal: &Goal,
        notes: &mut Vec<Note>,
    ) -> Result<bool, ModeFault>
        requires view { IsViewOf self.now view.now (spec.expr_variables (expr_of goal.now.kind)) (inst_map_of insts.now.items) }
        ensures reaches { Reaches result (inst_map_of insts.new.items) (spec.goal (scope_at self.now strict) (goal_of goal.now) (inst_map_of insts.old.items)) }
        ensures notes { IfOk result (λ reach. notes_told notes.new.items
            ≡ notes_told notes.old.items ++ noted.notes (scope_at self.now strict) (goal_of goal.now) (inst_map_of insts.old.items)) }
    {
        let number = notes.len();
        add_note(alloc, self.names, &goal.kind, insts, notes)?;
        let reach = self.check_kind(alloc, insts, view, strict, goal, notes)?;
        let size = notes.len() - number;
        end_note(
            alloc,
            view,
            &goal.kind,
            insts,
            reach,
            size,
            &mut notes[number],
        )?;
        Ok(reach)
    }

    /// Checks what a goal consists of, where this is known of its variables.
    #[cycle(goals)]
    fn check_kind(
        &self,
        alloc: Global,
        insts: &mut Vec<Inst<'a>>,
        view: &View<'a, '_>,
        strict: bool,
        goal: &Goal,
        notes: &mut Vec<Note>,
    ) -> Result<bool, ModeFault>
        requires view { IsViewOf self.now view.now (spec.expr_variables (expr_of goal.now.kind)) (inst_map_of insts.now.items) }
        ensures reaches { Reaches result (inst_map_of insts.new.items) (spec.expr (scope_at self.now strict) goal.now.line (expr_of goal.now.kind) (inst_map_of insts.old.items)) }
        ensures notes { IfOk result (λ reach. notes_told notes.new.items
            ≡ notes_told notes.old.items ++ noted.inner_notes (scope_at self.now strict) (expr_of goal.now.kind) (inst_map_of insts.old.items)) }
    {
        let at = Spot {
            line: goal.line,
            strict,
        };
        match &goal.kind {
            GoalKind::Conj(goals) => self.check_each(alloc, insts, strict, goals.as_slice(), notes),
            GoalKind::Disj(arms) => {
                self.check_disjunction(alloc, insts, view, at, arms.as_slice(), notes)
            }
            GoalKind::If(..) => self.check_choice(alloc, insts, view, strict, goal, notes),
            GoalKind::Not(inner) => self.check_inside(alloc, insts, view, at, &[], inner, notes),
            GoalKind::Some(quantified, inner) => {
                self.check_inside(alloc, insts, view, at, quantified.as_slice(), inner, notes)
            }
            _ => self.check_atomic(insts, at, &goal.kind),
        }
    }

    /// Checks an if-then-else.
    #[cycle(goals)]
    #[inline(never)]
    fn check_choice(
        &self,
        alloc: Global,
        insts: &mut Vec<Inst<'a>>,
        view: &View<'a, '_>,
        strict: bool,
        goal: &Goal,
        notes: &mut Vec<Note>,
    ) -> Result<bool, ModeFault>
        requires choice { IsChoice (expr_of goal.now.kind) }
        requires view { IsViewOf self.now view.now (spec.expr_variables (expr_of goal.now.kind)) (inst_map_of insts.now.items) }
        ensures reaches { Reaches result (inst_map_of insts.new.items) (spec.expr (scope_at self.now strict) goal.now.line (expr_of goal.now.kind) (inst_map_of insts.old.items)) }
        ensures notes { IfOk result (λ reach. notes_told notes.new.items
            ≡ notes_told notes.old.items ++ noted.inner_notes (scope_at self.now strict) (expr_of goal.now.kind) (inst_map_of insts.old.items)) }
    {
        let mut joined = no_arms(alloc)?;
        let reach = self.check_parts(alloc, insts, view, strict, goal, &mut joined, notes);
        let_go(joined);
        reach
    }

    /// Checks the parts of an if-then-else, where no arm was checked so far.
    #[cycle(goals)]
    fn check_parts(
        &self,
        alloc: Global,
        insts: &mut Vec<Inst<'a>>,
        view: &View<'a, '_>,
        strict: bool,
        goal: &Goal,
        joined: &mut Option<Joined<'a>>,
        notes: &mut Vec<Note>,
    ) -> Result<bool, ModeFault>
        requires choice { IsChoice (expr_of goal.now.kind) }
        requires view { IsViewOf self.now view.now (spec.expr_variables (expr_of goal.now.kind)) (inst_map_of insts.now.items) }
        requires none { joined.now ≡ None }
        ensures reaches { Reaches result (inst_map_of insts.new.items) (spec.expr (scope_at self.now strict) goal.now.line (expr_of goal.now.kind) (inst_map_of insts.old.items)) }
        ensures notes { IfOk result (λ reach. notes_told notes.new.items
            ≡ notes_told notes.old.items ++ noted.inner_notes (scope_at self.now strict) (expr_of goal.now.kind) (inst_map_of insts.old.items)) }
    {
        let at = Spot {
            line: goal.line,
            strict,
        };
        match &goal.kind {
            GoalKind::If(condition, then, otherwise) => {
                self.check_condition(alloc, insts, view, goal.line, condition, notes)?;
                let reach = self.check(alloc, insts, strict, then, notes)?;
                add_part(alloc, view, joined, insts, reach)?;
                self.check_last_arm(alloc, insts, view, at, otherwise, joined, notes)
            }
            _ => unreachable!(),
        }
    }

    /// Checks one goal after the other.
    #[cycle(goals)]
    fn check_each(
        &self,
        alloc: Global,
        insts: &mut Vec<Inst<'a>>,
        strict: bool,
        goals: &[Goal],
        notes: &mut Vec<Note>,
    ) -> Result<bool, ModeFault>
        ensures reaches { Reaches result (inst_map_of insts.new.items) (spec.each (scope_at self.now strict) (gathered (goals_of goals.now)) (inst_map_of insts.old.items)) }
        ensures notes { IfOk result (λ reach. notes_told notes.new.items
            ≡ notes_told notes.old.items ++ noted.each_notes (scope_at self.now strict) (gathered (goals_of goals.now)) (inst_map_of insts.old.items)) }
    {
        let mut reach = true;
        for goal in goals {
            let goes_on = self.check(alloc, insts, strict, goal, notes)?;
            reach = both(reach, goes_on);
        }
        Ok(reach)
    }

    /// Checks a disjunction.
    #[cycle(goals)]
    #[inline(never)]
    fn check_disjunction(
        &self,
        alloc: Global,
        insts: &mut Vec<Inst<'a>>,
        view: &View<'a, '_>,
        at: Spot,
        goals: &[Goal],
        notes: &mut Vec<Note>,
    ) -> Result<bool, ModeFault>
        ensures reaches { IsViewOf self.now view.now (parts_variables (gathered (goals_of goals.now))) (inst_map_of insts.old.items)
            → Reaches result (inst_map_of insts.new.items) (spec.expr (scope_at self.now at.strict) at.line (DisjGoal (gathered (goals_of goals.now))) (inst_map_of insts.old.items)) }
        ensures notes { IsViewOf self.now view.now (parts_variables (gathered (goals_of goals.now))) (inst_map_of insts.old.items)
            → IfOk result (λ reach. notes_told notes.new.items
            ≡ notes_told notes.old.items ++ noted.arm_notes (scope_at self.now at.strict) (gathered (goals_of goals.now)) (inst_map_of insts.old.items)) }
    {
        let mut joined = no_arms(alloc)?;
        let reach = self.check_arms(alloc, insts, view, at, goals, &mut joined, notes);
        let_go(joined);
        reach
    }

    /// Checks the arms of a disjunction, each from what is known before it, where none was checked so far.
    #[cycle(goals)]
    fn check_arms(
        &self,
        alloc: Global,
        insts: &mut Vec<Inst<'a>>,
        view: &View<'a, '_>,
        at: Spot,
        goals: &[Goal],
        joined: &mut Option<Joined<'a>>,
        notes: &mut Vec<Note>,
    ) -> Result<bool, ModeFault>
        requires none { joined.now ≡ None }
        ensures reaches { IsViewOf self.now view.now (parts_variables (gathered (goals_of goals.now))) (inst_map_of insts.old.items)
            → Reaches result (inst_map_of insts.new.items) (spec.expr (scope_at self.now at.strict) at.line (DisjGoal (gathered (goals_of goals.now))) (inst_map_of insts.old.items)) }
        ensures notes { IsViewOf self.now view.now (parts_variables (gathered (goals_of goals.now))) (inst_map_of insts.old.items)
            → IfOk result (λ reach. notes_told notes.new.items
            ≡ notes_told notes.old.items ++ noted.arm_notes (scope_at self.now at.strict) (gathered (goals_of goals.now)) (inst_map_of insts.old.items)) }
    {
        for goal in goals {
            let arm = self.check_arm(alloc, insts, at.strict, goal, notes)?;
            add_checked(alloc, view, arm, joined, insts)?;
        }
        end_arms(view, joined, insts, at.line)
    }

    /// Checks an arm of a disjunction, and gives what was known of its variables before it.
    #[cycle(goals)]
    fn check_arm(
        &self,
        alloc: Global,
        insts: &mut Vec<Inst<'a>>,
        strict: bool,
        goal: &Goal,
        notes: &mut Vec<Note>,
    ) -> Result<Arm<'a>, ModeFault>
        ensures local { IfOk result (λ arm. IsLocal arm.start.value.local.places.items arm.start.value.local.counts.items (spec.variables (goal_of goal.now))) }
        ensures before { IfOk result (λ arm. inst_map_of arm.start.value.before.items ≡ seen arm.start.value.local.places.items (inst_map_of insts.old.items)) }
        ensures reaches { MatchResult result (λ arm. spec.goal (scope_at self.now strict) (goal_of goal.now) (inst_map_of insts.old.items) ≡ Ok (after (inst_map_of insts.new.items) arm.reach))
            (λ fault. fault ≢ faults.NoMemory → spec.goal (scope_at self.now strict) (goal_of goal.now) (inst_map_of insts.old.items) ≡ Err fault) }
        ensures notes { IfOk result (λ arm. notes_told notes.new.items
            ≡ notes_told notes.old.items ++ noted.notes (scope_at self.now strict) (goal_of goal.now) (inst_map_of insts.old.items)) }
    {
        let start = Start::new(alloc, &goal.kind, insts)?;
        let reach = self.check(alloc, insts, strict, goal, notes)?;
        Ok(Arm { start, reach })
    }

    /// Checks the last arm of a branch, whose arms before it have this in common, and ends the branch.
    #[cycle(goals)]
    fn check_last_arm(
        &self,
        alloc: Global,
        insts: &mut Vec<Inst<'a>>,
        view: &View<'a, '_>,
        at: Spot,
        goal: &Goal,
        joined: &mut Option<Joined<'a>>,
        notes: &mut Vec<Note>,
    ) -> Result<bool, ModeFault>
        ensures reaches { (vars : List ℕ) → (ends : List After) → IsViewOf self.now view.now vars (inst_map_of insts.old.items) → AreAmong (spec.variables (goal_of goal.now)) vars
            → AllLeave view.now.outside.local.now.places.items (inst_map_of insts.old.items) ends
            → Ends (occurs view.now.outside) (inst_map_of view.now.before.now) joined.old (seen_ends view.now.outside.local.now.places.items ends)
            → (v : Verdict After)
            → ((last : After) → spec.goal (scope_at self.now at.strict) (goal_of goal.now) (inst_map_of insts.old.items) ≡ Ok last
            → v ≡ branches.joined at.line (branches.outside (scope_at self.now at.strict).all vars) (inst_map_of insts.old.items) (ends ++ last ∷ []))
            → ((fault : ModeFault) → spec.goal (scope_at self.now at.strict) (goal_of goal.now) (inst_map_of insts.old.items) ≡ Err fault → v ≡ Err fault)
            → Reaches result (inst_map_of insts.new.items) v }
        ensures notes { IfOk result (λ reach. notes_told notes.new.items
            ≡ notes_told notes.old.items ++ noted.notes (scope_at self.now at.strict) (goal_of goal.now) (inst_map_of insts.old.items)) }
    {
        let reach = self.check(alloc, insts, at.strict, goal, notes)?;
        add_part(alloc, view, joined, insts, reach)?;
        end_arms(view, joined, insts, at.line)
    }

    /// Checks a goal that may bind nothing that occurs outside, and neither may these variables occur there. Afterwards what
    /// is known is what was known before.
    #[cycle(goals)]
    #[inline(never)]
    fn check_inside(
        &self,
        alloc: Global,
        insts: &mut Vec<Inst<'a>>,
        view: &View<'a, '_>,
        at: Spot,
        quantified: &[u32],
        inner: &Goal,
        notes: &mut Vec<Note>,
    ) -> Result<bool, ModeFault>
        requires view { IsViewOf self.now view.now (quantified.now ++ spec.variables (goal_of inner.now)) (inst_map_of insts.now.items) }
        ensures reaches { Reaches result (inst_map_of insts.new.items) (spec.expr (scope_at self.now at.strict) at.line (SomeGoal quantified.now (goal_of inner.now)) (inst_map_of insts.old.items)) }
        ensures notes { IfOk result (λ reach. notes_told notes.new.items
            ≡ notes_told notes.old.items ++ noted.notes (scope_at self.now true) (goal_of inner.now) (inst_map_of insts.old.items)) }
    {
        self.check_condition(alloc, insts, view, at.line, inner, notes)?;
        if view.outside.has_some(quantified) {
            return Err(ModeFault::BranchBinds(at.line));
        }
        put_all(insts, &view.outside.local.places, view.before);
        Ok(true)
    }

    /// Checks a goal within a branch, where it may bind nothing that occurs outside the branch.
    #[cycle(goals)]
    fn check_condition(
        &self,
        alloc: Global,
        insts: &mut Vec<Inst<'a>>,
        view: &View<'a, '_>,
        line: u32,
        goal: &Goal,
        notes: &mut Vec<Note>,
    ) -> Result<bool, ModeFault>
        ensures reaches { (vars : List ℕ) → IsViewOf self.now view.now vars (inst_map_of insts.old.items) → AreAmong (spec.variables (goal_of goal.now)) vars
            → Reaches result (inst_map_of insts.new.items) (inside (scope_at self.now true) line vars (goal_of goal.now) (inst_map_of insts.old.items)) }
        ensures notes { IfOk result (λ reach. notes_told notes.new.items
            ≡ notes_told notes.old.items ++ noted.notes (scope_at self.now true) (goal_of goal.now) (inst_map_of insts.old.items)) }
    {
        let reach = self.check(alloc, insts, true, goal, notes)?;
        let binds = binds_outside(alloc, view, insts)?;
        if binds {
            return Err(ModeFault::BranchBinds(line));
        }
        Ok(reach)
    }

    /// Checks a goal that is no conjunction and no branch.
    #[inline(never)]
    fn check_atomic(
        &self,
        insts: &mut Vec<Inst<'a>>,
        at: Spot,
        goal: &GoalKind,
    ) -> Result<bool, ModeFault>
        ensures { Reaches result (inst_map_of insts.new.items) (spec.atomic_expr (scope_at self.now at.strict) at.line (expr_of goal.now) (inst_map_of insts.old.items)) }
    {
        atomic(self.names, insts, at, goal)?;
        Ok(goes_on_after(goal))
    }
}

fn both(first: bool, second: bool) -> bool
    ensures { result ≡ (first && second) }
{
    first && second
}

/// Whether the place after a goal is reachable; it isn't after `fail` and `require.error`.
fn goes_on_after(goal: &GoalKind) -> bool
    ensures { result ≡ spec.goes_on_after (expr_of goal.now) }
{
    match goal {
        GoalKind::Fail | GoalKind::Error(_) => false,
        GoalKind::True
        | GoalKind::Unify(..)
        | GoalKind::Arith(..)
        | GoalKind::Compare(..)
        | GoalKind::WriteInt(..)
        | GoalKind::WriteStr(..)
        | GoalKind::Nl(..)
        | GoalKind::Call(..)
        | GoalKind::HoCall(..)
        | GoalKind::Conj(_)
        | GoalKind::Disj(_)
        | GoalKind::If(..)
        | GoalKind::Not(_)
        | GoalKind::Some(..) => true,
    }
}
