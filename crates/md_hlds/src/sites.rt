// The call sites of a goal, in text order.
ghost use Rattle.md_hlds.specs.HldsGoal.{goal_of, goals_of, goals_lines, gathered, site_lines};
ghost use Rattle.md_hlds.specs.Sites.{FindsSite};

use crate::{Goal, GoalKind};

/// The line of the call site with so many of the goal's sites before it. Where the goal has no more than that, there is
/// none, and as many are left to pass by in what follows.
#[cycle(sites)]
pub fn find_site(goal: &Goal, before: &mut u32) -> Option<u32>
    ensures { FindsSite (site_lines (goal_of goal.now)) before.old before.new result }
{
    match &goal.kind {
        GoalKind::Call(..) | GoalKind::HoCall(..) => {
            if *before == 0 {
                return Some(goal.line);
            }
            *before -= 1;
            None
        }
        GoalKind::Conj(goals) => find_in_all(goals.as_slice(), before),
        GoalKind::Disj(goals) => find_in_all(goals.as_slice(), before),
        GoalKind::If(condition, then, otherwise) => {
            if let Some(line) = find_site(condition, before) {
                return Some(line);
            }
            if let Some(line) = find_site(then, before) {
                return Some(line);
            }
            find_site(otherwise, before)
        }
        GoalKind::Not(inner) | GoalKind::Some(_, inner) => find_site(inner, before),
        _ => None,
    }
}

#[cycle(sites)]
fn find_in_all(goals: &[Goal], before: &mut u32) -> Option<u32>
    ensures { FindsSite (goals_lines (gathered (goals_of goals.now))) before.old before.new result }
{
    for goal in goals {
        if let Some(line) = find_site(goal, before) {
            return Some(line);
        }
    }
    None
}
