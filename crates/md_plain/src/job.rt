// Frames, and jobs.
ghost use Rattle.std.specs.Prelude.{◌≡◌, ◌∷◌, [], IfOk};
ghost use Rattle.md_hlds.specs.HldsGoal.{goal_of, numbered_goal};
ghost use Rattle.md_hlds.specs.Trace.{doing, knowing, alone, cut_off, back};
ghost use Rattle.md_plain.specs.Values.{env_of};
ghost use Rattle.md_plain.specs.Goals.{numbereds_of};
ghost use Rattle.md_plain.specs.Told.{in_job, front, innermost};
ghost use Rattle.md_plain.specs.Runs.{frame_of, frames_of, job_of, option_front, option_job};

use crate::arena::cons;
use crate::env::back;
use crate::goal::Numbered;
use crate::value::{Env, Value};
use bumpalo::Bump;
use md_base::NoMemory;
use md_hlds::Goal;

/// An activation with its environment, the goals that it still has to do, and the pairs of a variable of its head and a
/// variable of its caller.
#[derive(Clone, Copy)]
pub struct Frame<'a> {
    pub act: u64,
    pub env: Env<'a>,
    pub goals: &'a [Numbered<'a>],
    pub pairs: &'a [(u32, u32)],
}

/// A frame with its callers, innermost first.
#[derive(Clone, Copy)]
pub struct Job<'a> {
    pub frame: Frame<'a>,
    pub callers: &'a [Frame<'a>],
}

/// A goal that is unfolded: the frame that it is the first goal of, its number, the goals after it, and the callers.
#[derive(Clone, Copy)]
pub struct Place<'a> {
    pub frame: Frame<'a>,
    pub number: u64,
    pub goals: &'a [Numbered<'a>],
    pub callers: &'a [Frame<'a>],
}

/// The first goal of a job, with its place; `None` where its frame has no goal left.
pub fn next_goal<'a>(job: &Job<'a>) -> Option<(Place<'a>, &'a Goal)>
    ensures { option_front result ≡ front (job_of job.now) }
{
    match job.frame.goals {
        [] => None,
        [first, goals @ ..] => {
            let place = Place {
                frame: job.frame,
                number: first.number,
                goals,
                callers: job.callers,
            };
            Some((place, first.goal))
        }
    }
}

/// The innermost of these frames, with those behind it as its callers.
pub fn innermost<'a>(frames: &'a [Frame<'a>]) -> Option<Job<'a>>
    ensures { option_job result ≡ innermost (frames_of frames.now) }
{
    match frames {
        [] => None,
        [first, callers @ ..] => Some(Job {
            frame: *first,
            callers,
        }),
    }
}

/// The job at a place with these goals to do.
pub fn doing<'a>(place: &Place<'a>, goals: &'a [Numbered<'a>]) -> Job<'a>
    ensures { job_of result ≡ in_job (doing (frame_of place.now.frame) (numbereds_of goals.now)) (frames_of place.now.callers.now) }
{
    knowing(place, place.frame.env, goals)
}

/// The job at a place with this environment and these goals to do.
pub fn knowing<'a>(place: &Place<'a>, env: Env<'a>, goals: &'a [Numbered<'a>]) -> Job<'a>
    ensures { job_of result ≡ in_job (knowing (frame_of place.now.frame) (env_of env.now) (numbereds_of goals.now)) (frames_of place.now.callers.now) }
{
    Job {
        frame: Frame {
            env,
            goals,
            ..place.frame
        },
        callers: place.callers,
    }
}

/// One goal by itself, as a condition is run.
pub fn alone<'a>(
    bump: &'a Bump,
    frame: &Frame<'a>,
    number: u64,
    goal: &'a Goal,
) -> Result<Job<'a>, NoMemory>
    ensures { IfOk result (λ j. job_of j ≡ in_job (alone (frame_of frame.now) (numbered_goal number (goal_of goal.now))) []) }
{
    let goals = cons(bump, Numbered { number, goal }, &[])?;
    Ok(Job {
        frame: Frame {
            goals,
            pairs: &[],
            ..*frame
        },
        callers: &[],
    })
}

/// A frame by itself.
pub fn cut_off<'a>(frame: &Frame<'a>) -> Job<'a>
    ensures { job_of result ≡ in_job (cut_off (frame_of frame.now)) [] }
{
    Job {
        frame: Frame {
            pairs: &[],
            ..*frame
        },
        callers: &[],
    }
}

/// A caller to which these values come back.
pub fn returned<'a>(
    bump: &'a Bump,
    pairs: &[(u32, u32)],
    values: &[Option<Value<'a>>],
    caller: &Job<'a>,
) -> Result<Job<'a>, NoMemory>
    ensures { IfOk result (λ j. job_of j ≡ in_job (knowing (frame_of caller.now.frame) (back pairs.now (env_of values.now) (frame_of caller.now.frame).env) (frame_of caller.now.frame).goals) (frames_of caller.now.callers.now)) }
{
    let env = back(bump, pairs, values, caller.frame.env)?;
    Ok(Job {
        frame: Frame {
            env,
            ..caller.frame
        },
        callers: caller.callers,
    })
}
