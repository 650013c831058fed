// The equations of a trace. Each function tells what that equation makes, up to the first answer and within the budget.
ghost use Rattle.std.specs.Prelude.{[], ◌≡◌, suc, None, IfOk};
ghost use Rattle.md_hlds.specs.declared.types.Det.TheVariants.{Multi, Semidet};
ghost use Rattle.md_hlds.specs.HldsGoal.{NotGoal, SomeGoal, IfGoal, ConjGoal, DisjGoal, goal_of, goals_of, gathered, expr_of};
ghost use Rattle.md_hlds.specs.Hlds.{hlds_of};
ghost use Rattle.md_plain.specs.Calls.{called_of};
ghost use Rattle.md_plain.specs.Goals.{numbereds_of};
ghost use Rattle.md_plain.specs.Outcomes.{outcome_of};
ghost use Rattle.md_plain.specs.Told.{front, traces, unfolds, asks, tries, invokes, simply_goes, with_body};
ghost use Rattle.md_plain.specs.Runs.{frame_of, job_of, place_of, run_of, told_of};

use crate::arena::cons;
use crate::call::{Called, body, called_by, fits, plain_call};
use crate::env::value_at;
use crate::goal::{Numbered, after, before, call_weight, numbered_from};
use crate::job::{
    Frame, Job, Place, alone, cut_off, doing, innermost, knowing, next_goal, returned,
};
use crate::names::procedure_called;
use crate::simple::{Outcome, simple, weight_of};
use crate::switch::arms_of;
use crate::told::{
    End, Item, Run, Told, call, ended, leave, make, put, then_fail, then_redo, turn,
};
use crate::value::next;
use bumpalo::Bump;
use md_base::NoMemory;
use md_hlds::{Det, Goal, GoalKind, Program};

/// What has been told, unless memory runs out.
type Telling<'a> = Result<Told<'a>, NoMemory>;

/// A program, and the arena in which its run is made.
#[derive(Clone, Copy)]
pub struct Maker<'a> {
    pub bump: &'a Bump,
    pub program: &'a Program,
}

/// The trace of a job to this depth. A frame with no goal left exits, its caller goes on, and then comes its redo; with no
/// caller it is an answer.
#[cycle(trace)]
pub fn trace<'a>(maker: &Maker<'a>, depth: u64, job: &Job<'a>, run: Run<'a>) -> Telling<'a>
    ensures { IfOk result (λ t. told_of t ≡ traces (hlds_of maker.now.program.now) depth (job_of job.now) (run_of run.entry)) }
{
    match next_goal(job) {
        None => returns(maker, depth, job, run),
        Some((place, goal)) => {
            if depth == 0 {
                return Ok(ended(put(maker.bump, run, Item::Deep)?, End::Over));
            }
            unfold(maker, depth - 1, &place, &goal.kind, run)
        }
    }
}

/// A job whose frame has no goal left.
#[cycle(trace)]
fn returns<'a>(maker: &Maker<'a>, depth: u64, job: &Job<'a>, run: Run<'a>) -> Telling<'a>
    requires { None ≡ front (job_of job.now) }
    ensures { IfOk result (λ t. told_of t ≡ traces (hlds_of maker.now.program.now) depth (job_of job.now) (run_of run.entry)) }
{
    let frame = &job.frame;
    match innermost(job.callers) {
        None => Ok(ended(run, End::Answered(frame.env))),
        Some(caller) => {
            let exited = put(maker.bump, run, Item::Exit(frame.act))?;
            let resumed = returned(maker.bump, frame.pairs, frame.env, &caller)?;
            let told = trace(maker, depth, &resumed, exited)?;
            then_redo(maker.bump, told, frame.act)
        }
    }
}

/// The goal at a place is unfolded. What follows has this depth.
#[cycle(trace)]
fn unfold<'a>(
    maker: &Maker<'a>,
    depth: u64,
    place: &Place<'a>,
    kind: &'a GoalKind,
    run: Run<'a>,
) -> Telling<'a>
    ensures { IfOk result (λ t. told_of t ≡ unfolds (hlds_of maker.now.program.now) depth (place_of place.now) (expr_of kind.now) (run_of run.entry)) }
{
    match kind {
        GoalKind::Call(site, name, arguments) => {
            let procedure = procedure_called(maker.program, name)?;
            let called = plain_call(maker.bump, site.number(), procedure, arguments.as_slice())?;
            invoke(maker, depth, place, &called, run)
        }
        GoalKind::HoCall(site, closure, arguments) => {
            let value = value_at(place.frame.env, *closure);
            let (site, arguments) = (site.number(), arguments.as_slice());
            let called = called_by(maker.bump, maker.program, site, value, arguments)?;
            invoke(maker, depth, place, &called, run)
        }
        GoalKind::Conj(parts) => conjunction(maker, depth, place, parts.as_slice(), run),
        GoalKind::Disj(arms) => disjunction(maker, depth, place, arms.as_slice(), run),
        GoalKind::If(condition, then, otherwise) => conditional(
            maker, depth, place, condition, then, otherwise, run,
        ),
        GoalKind::Not(inner) => negation(maker, depth, place, inner, run),
        GoalKind::Some(_, inner) => quantified(maker, depth, place, inner, run),
        GoalKind::True
        | GoalKind::Fail
        | GoalKind::Unify(..)
        | GoalKind::Arith(..)
        | GoalKind::Compare(..)
        | GoalKind::WriteInt(..)
        | GoalKind::WriteStr(..)
        | GoalKind::Nl(..)
        | GoalKind::Error(_) => {
            let outcome = simple(maker.bump, maker.program, place.frame.env, kind)?;
            after_simple(maker, depth, place, outcome, run)
        }
    }
}

/// What a simple goal leads to.
#[cycle(trace)]
fn after_simple<'a>(
    maker: &Maker<'a>,
    depth: u64,
    place: &Place<'a>,
    outcome: Outcome<'a>,
    run: Run<'a>,
) -> Telling<'a>
    ensures { IfOk result (λ t. told_of t ≡ simply_goes (hlds_of maker.now.program.now) depth (place_of place.now) (outcome_of outcome.entry) (run_of run.entry)) }
{
    let act = place.frame.act;
    let weight = weight_of(&outcome)?;
    let Some(run) = turn(maker.bump, run, act, Some(place.number), weight)? else {
        return Ok(ended(run, End::Over));
    };
    match outcome {
        Outcome::Go(env, _, words, out) => {
            let run = make(maker.bump, act, words, out, run)?;
            trace(maker, depth, &knowing(place, env, place.goals), run)
        }
        Outcome::No(_) => Ok(ended(run, End::Missed)),
        Outcome::Throws(bytes) => {
            let run = put(maker.bump, run, Item::Throw(bytes))?;
            let run = put(maker.bump, run, Item::Excp(act))?;
            leave(maker.bump, place.callers, run)
        }
        Outcome::Stop => Ok(ended(put(maker.bump, run, Item::Stuck)?, End::Over)),
    }
}

/// A conjunction's parts are done before what comes after it.
#[cycle(trace)]
fn conjunction<'a>(
    maker: &Maker<'a>,
    depth: u64,
    place: &Place<'a>,
    parts: &'a [Goal],
    run: Run<'a>,
) -> Telling<'a>
    ensures { IfOk result (λ t. told_of t ≡ unfolds (hlds_of maker.now.program.now) depth (place_of place.now) (ConjGoal (gathered (goals_of parts.now))) (run_of run.entry)) }
{
    let Some(run) = turn(maker.bump, run, place.frame.act, Some(place.number), 1)? else {
        return Ok(ended(run, End::Over));
    };
    let goals = numbered_from(maker.bump, next(place.number)?, parts, place.goals)?;
    trace(maker, depth, &doing(place, goals), run)
}

/// A disjunction: a switch on a variable that has a value takes one arm at most, any other tries all of them.
#[cycle(trace)]
fn disjunction<'a>(
    maker: &Maker<'a>,
    depth: u64,
    place: &Place<'a>,
    arms: &'a [Goal],
    run: Run<'a>,
) -> Telling<'a>
    ensures { IfOk result (λ t. told_of t ≡ unfolds (hlds_of maker.now.program.now) depth (place_of place.now) (DisjGoal (gathered (goals_of arms.now))) (run_of run.entry)) }
{
    let Some(turned) = turn(maker.bump, run, place.frame.act, Some(place.number), 1)? else {
        return Ok(ended(run, End::Over));
    };
    let first = next(place.number)?;
    let chosen = arms_of(maker.bump, maker.program, place.frame.env, first, arms)?;
    tries(maker, depth, place, chosen, turned)
}

/// These arms one after the other, as alternatives.
#[cycle(trace)]
fn tries<'a>(
    maker: &Maker<'a>,
    depth: u64,
    place: &Place<'a>,
    arms: &[Numbered<'a>],
    run: Run<'a>,
) -> Telling<'a>
    ensures { IfOk result (λ t. told_of t ≡ tries (hlds_of maker.now.program.now) depth (place_of place.now) (numbereds_of arms.now) (run_of run.entry)) }
{
    let mut run = run;
    for arm in arms {
        let goals = cons(maker.bump, *arm, place.goals)?;
        let told = trace(maker, depth, &doing(place, goals), run)?;
        match told.end {
            End::Missed => run = told.run,
            End::Answered(_) => return Ok(told),
            End::Thrown => return Ok(told),
            End::Over => return Ok(told),
        }
    }
    Ok(ended(run, End::Missed))
}

/// A goal that is asked for its first answer, after a turn.
#[cycle(trace)]
fn asks<'a>(
    maker: &Maker<'a>,
    depth: u64,
    place: &Place<'a>,
    goal: &'a Goal,
    run: Run<'a>,
) -> Telling<'a>
    ensures { IfOk result (λ t. told_of t ≡ asks (hlds_of maker.now.program.now) depth (place_of place.now) (goal_of goal.now) (run_of run.entry)) }
{
    let Some(run) = turn(maker.bump, run, place.frame.act, Some(place.number), 1)? else {
        return Ok(ended(run, End::Over));
    };
    let asked = alone(maker.bump, &place.frame, next(place.number)?, goal)?;
    trace(maker, depth, &asked, run)
}

/// An if-then-else.
#[cycle(trace)]
fn conditional<'a>(
    maker: &Maker<'a>,
    depth: u64,
    place: &Place<'a>,
    condition: &'a Goal,
    then: &'a Goal,
    otherwise: &'a Goal,
    run: Run<'a>,
) -> Telling<'a>
    ensures { IfOk result (λ t. told_of t ≡ unfolds (hlds_of maker.now.program.now) depth (place_of place.now) (IfGoal (goal_of condition.now) (goal_of then.now) (goal_of otherwise.now)) (run_of run.entry)) }
{
    let first = next(place.number)?;
    let second = after(first, condition)?;
    let third = after(second, then)?;
    let told = asks(maker, depth, place, condition, run)?;
    match told.end {
        End::Answered(env) => {
            let goals = before(maker.bump, second, then, place.goals)?;
            trace(maker, depth, &knowing(place, env, goals), told.run)
        }
        End::Missed => {
            let goals = before(maker.bump, third, otherwise, place.goals)?;
            trace(maker, depth, &doing(place, goals), told.run)
        }
        End::Thrown => leave(maker.bump, place.callers, told.run),
        End::Over => Ok(told),
    }
}

#[cycle(trace)]
fn negation<'a>(
    maker: &Maker<'a>,
    depth: u64,
    place: &Place<'a>,
    goal: &'a Goal,
    run: Run<'a>,
) -> Telling<'a>
    ensures { IfOk result (λ t. told_of t ≡ unfolds (hlds_of maker.now.program.now) depth (place_of place.now) (NotGoal (goal_of goal.now)) (run_of run.entry)) }
{
    let told = asks(maker, depth, place, goal, run)?;
    match told.end {
        End::Answered(_) => Ok(ended(told.run, End::Missed)),
        End::Missed => trace(maker, depth, &doing(place, place.goals), told.run),
        End::Thrown => leave(maker.bump, place.callers, told.run),
        End::Over => Ok(told),
    }
}

/// A quantified goal, which is cut at its first answer.
#[cycle(trace)]
fn quantified<'a>(
    maker: &Maker<'a>,
    depth: u64,
    place: &Place<'a>,
    goal: &'a Goal,
    run: Run<'a>,
) -> Telling<'a>
    ensures { IfOk result (λ t. told_of t ≡ unfolds (hlds_of maker.now.program.now) depth (place_of place.now) (SomeGoal [] (goal_of goal.now)) (run_of run.entry)) }
{
    let told = asks(maker, depth, place, goal, run)?;
    match told.end {
        End::Answered(_) => trace(maker, depth, &doing(place, place.goals), told.run),
        End::Missed => Ok(told),
        End::Thrown => leave(maker.bump, place.callers, told.run),
        End::Over => Ok(told),
    }
}

/// A call. Where there is no such procedure, or it has not so many arguments, no rule applies.
#[cycle(trace)]
fn invoke<'a>(
    maker: &Maker<'a>,
    depth: u64,
    place: &Place<'a>,
    called: &Called<'a>,
    run: Run<'a>,
) -> Telling<'a>
    ensures { IfOk result (λ t. told_of t ≡ invokes (hlds_of maker.now.program.now) depth (place_of place.now) (called_of called.now) (run_of run.entry)) }
{
    let Some((procedure, pred)) = called.procedure else {
        return after_simple(maker, depth, place, Outcome::Stop, run);
    };
    if !fits(pred, called)? {
        return after_simple(maker, depth, place, Outcome::Stop, run);
    }
    let act = place.frame.act;
    let Some(run) = turn(maker.bump, run, act, Some(place.number), call_weight(pred)?)? else {
        return Ok(ended(run, End::Over));
    };
    let callee = body(
        maker.bump,
        maker.program,
        place.frame.env,
        run.next,
        procedure,
        pred,
        called,
    )?;
    let run = call(maker.bump, run, Some(act), Some(called.site), procedure)?;
    let caller = doing(place, place.goals);
    match pred.det {
        Det::Multi | Det::Nondet => with_all(maker, depth, &callee, &caller, run),
        Det::Det | Det::Semidet | Det::Failure => with_first(maker, depth, &callee, &caller, run),
    }
}

/// The body of a call, with all its answers for this caller.
#[cycle(trace)]
fn with_all<'a>(
    maker: &Maker<'a>,
    depth: u64,
    callee: &Frame<'a>,
    job: &Job<'a>,
    run: Run<'a>,
) -> Telling<'a>
    requires { run.next ≡ suc callee.now.act }
    ensures { IfOk result (λ t. told_of t ≡ with_body (hlds_of maker.now.program.now) depth Multi (frame_of callee.now) (job_of job.now) (run_of run.entry)) }
{
    let callers = cons(maker.bump, job.frame, job.callers)?;
    let body = Job {
        frame: *callee,
        callers,
    };
    let told = trace(maker, depth, &body, run)?;
    then_fail(maker.bump, told, callee.act)
}

/// The body of a call, cut at its first answer for this caller.
#[cycle(trace)]
fn with_first<'a>(
    maker: &Maker<'a>,
    depth: u64,
    callee: &Frame<'a>,
    job: &Job<'a>,
    run: Run<'a>,
) -> Telling<'a>
    requires { run.next ≡ suc callee.now.act }
    ensures { IfOk result (λ t. told_of t ≡ with_body (hlds_of maker.now.program.now) depth Semidet (frame_of callee.now) (job_of job.now) (run_of run.entry)) }
{
    let (bump, act) = (maker.bump, callee.act);
    let told = trace(maker, depth, &cut_off(callee), run)?;
    match told.end {
        End::Answered(env) => {
            let exited = put(bump, told.run, Item::Exit(act))?;
            let caller = returned(bump, callee.pairs, env, job)?;
            trace(maker, depth, &caller, exited)
        }
        End::Missed => {
            let failed = put(bump, told.run, Item::Fail(act))?;
            Ok(ended(failed, End::Missed))
        }
        End::Thrown => {
            let left = put(bump, told.run, Item::Excp(job.frame.act))?;
            leave(bump, job.callers, left)
        }
        End::Over => Ok(told),
    }
}
