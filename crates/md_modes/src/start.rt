// What is known before a goal.
ghost use Rattle.std.specs.Prelude.{◌≡◌, IfOk};
ghost use Rattle.md_hlds.specs.HldsGoal.{expr_of};
ghost use Rattle.md_inst.specs.Kinds.{inst_map_of};
ghost use Rattle.md_modes.specs.Goals.{expr_variables};
ghost use Rattle.md_modes.specs.Tally.{IsLocal};
ghost use Rattle.md_modes.specs.Views.{seen};

use crate::local::Local;
use crate::nonlocals::{Nonlocals, View};
use crate::view::seen;
use md_base::NoMemory;
use md_hlds::GoalKind;
use md_inst::Inst;
use std::alloc::Global;

/// The variables of a goal, and what is known of them before it.
#[derive(Drop)]
pub struct Start<'a> {
    pub local: Local,
    pub before: Vec<Inst<'a>>,
}

impl<'a> Start<'a> {
    /// The variables of a goal of this kind, with what is known of them. It is boxed and not inlined, since the recursion over
    /// goals keeps one at each level.
    #[inline(never)]
    pub fn new(
        alloc: Global,
        goal: &GoalKind,
        insts: &[Inst<'a>],
    ) -> Result<Box<Start<'a>>, NoMemory>
        ensures local { IfOk result (λ start. IsLocal start.value.local.places.items start.value.local.counts.items (expr_variables (expr_of goal.now))) }
        ensures before { IfOk result (λ start. inst_map_of start.value.before.items ≡ seen start.value.local.places.items (inst_map_of insts.now)) }
    {
        let local = Local::new(alloc, goal)?;
        let before = seen(alloc, &local.places, insts)?;
        Ok(Box::new(alloc, Start { local, before })?)
    }

    /// The view of the goal, in a clause whose variables occur so often. It is boxed and not inlined either.
    #[inline(never)]
    pub fn view<'b>(&'b self, alloc: Global, all: &'b [u64]) -> Result<Box<View<'a, 'b>>, NoMemory>
        ensures local { IfOk result (λ view. view.value.outside.local.now ≡ self.now.local) }
        ensures all { IfOk result (λ view. view.value.outside.all.now ≡ all.now) }
        ensures before { IfOk result (λ view. inst_map_of view.value.before.now ≡ inst_map_of self.now.before.items) }
    {
        let outside = Nonlocals {
            all,
            local: &self.local,
        };
        let before = self.before.as_slice();
        Ok(Box::new(alloc, View { outside, before })?)
    }
}
