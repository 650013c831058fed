// Goals. They nest, and within each other at most so many are open.
ghost use Rattle.std.specs.Prelude.{◌≡◌, ◌<◌, ◌++◌, ◌∷◌, [], ℕ, cond, Ok, OnOk};
ghost use Rattle.md_hlds.specs.HldsGoal.{At, SimpleGoal, Succeeds, Fails, DisjGoal, IfGoal, NotGoal, SomeGoal, expr_of, gathered, goal_of, goals_of};
ghost use Rattle.md_reader.specs.Input.{input_of, Reads};
ghost use Rattle.md_reader.specs.Input as reading;
ghost use Rattle.md_reader.specs.Rules as spec;

use crate::call::{call, closure_call, relation};
use crate::input::Input;
use crate::refused::Refusal;
use crate::variables::quantified;
use md_hlds::{Goal, GoalKind, Variables};
use md_token::Kind;
use std::alloc::{AllocError, Global};

/// Takes a conjunction within which so many goals may be open.
#[cycle(goals)]
pub(crate) fn conjunction(input: &mut Input<'_>, room: u32) -> Result<Box<Goal>, Refusal>
    ensures { Reads (λ goal. goal_of goal.value) (spec.conjunction room (input_of input.old)) result (input_of input.new) }
{
    let mut found = Vec::new(input.alloc);
    match units(input, room, &mut found) {
        Ok(()) => conjoined(input.alloc, found),
        Err(refusal) => {
            let_go_all(found);
            Err(refusal)
        }
    }
}

/// Takes units with commas between them, of which none was found so far.
#[tactic(auto, unfolding(crate::specs::Rules::units))]
#[cycle(goals)]
fn units(input: &mut Input<'_>, room: u32, found: &mut Vec<Goal>) -> Result<(), Refusal>
    requires { found.now.items ≡ [] }
    ensures { Reads (λ done. goals_of found.new.items) (spec.units room (spec.within room) (input_of input.old)) result (input_of input.new) }
{
    for _turn in 0..input.left() {
        add_goal(found, unit(input, room)?)?;
        if !input.eat(Kind::Comma) {
            return Ok(());
        }
    }
    Err(input.refuse())
}

/// Adds a goal. This and the functions below that make a goal aren't inlined, so that the recursion over goals has no room for
/// one at each level.
#[inline(never)]
fn add_goal(goals: &mut Vec<Goal>, goal: Box<Goal>) -> Result<(), AllocError>
    ensures { OnOk result (goals.new.items ≡ goals.old.items ++ goal.value ∷ []) }
{
    goals.push(Box::into_inner(goal))?;
    Ok(())
}

/// The conjunction of these units, in a box.
#[inline(never)]
fn conjoined(alloc: Global, units: Vec<Goal>) -> Result<Box<Goal>, Refusal>
    ensures { (i : reading.Input) → Reads (λ goal. goal_of goal.value) (Ok (spec.joined (goals_of units.items), i)) result i }
{
    Ok(Box::new(alloc, joined(units))?)
}

/// The goal of this line that always succeeds, or the one that always fails, in a box.
#[inline(never)]
fn settled(alloc: Global, line: u32, succeeds: bool) -> Result<Box<Goal>, Refusal>
    ensures { (i : reading.Input) → Reads (λ goal. goal_of goal.value) (Ok (At line (SimpleGoal (cond succeeds Succeeds Fails)), i)) result i }
{
    if succeeds {
        boxed(alloc, line, GoalKind::True)
    } else {
        boxed(alloc, line, GoalKind::Fail)
    }
}

/// The negation of a goal, in a box.
#[inline(never)]
fn negated(alloc: Global, line: u32, goal: Box<Goal>) -> Result<Box<Goal>, Refusal>
    ensures { (i : reading.Input) → Reads (λ negation. goal_of negation.value) (Ok (At line (NotGoal (goal_of goal.value)), i)) result i }
{
    boxed(alloc, line, GoalKind::Not(goal))
}

/// A goal with quantified variables, in a box.
#[inline(never)]
fn quantified_goal(
    alloc: Global,
    line: u32,
    variables: Variables,
    goal: Box<Goal>,
) -> Result<Box<Goal>, Refusal>
    ensures { (i : reading.Input) → Reads (λ all. goal_of all.value) (Ok (At line (SomeGoal variables (goal_of goal.value)), i)) result i }
{
    boxed(alloc, line, GoalKind::Some(variables, goal))
}

/// The disjunction of these arms, in a box.
#[inline(never)]
fn disjoined(alloc: Global, line: u32, arms: Vec<Goal>) -> Result<Box<Goal>, Refusal>
    ensures { (i : reading.Input) → Reads (λ all. goal_of all.value) (Ok (At line (DisjGoal (gathered (goals_of arms.items))), i)) result i }
{
    boxed(alloc, line, GoalKind::Disj(arms))
}

/// Takes the `)` after the parts of an if-then-else, and gives that in a box.
#[inline(never)]
fn chosen(
    input: &mut Input<'_>,
    line: u32,
    condition: Box<Goal>,
    then_part: Box<Goal>,
    else_part: Box<Goal>,
) -> Result<Box<Goal>, Refusal>
    ensures { Reads (λ goal. goal_of goal.value)
        (spec.before Kind.Close (At line (IfGoal (goal_of condition.value) (goal_of then_part.value) (goal_of else_part.value))) (input_of input.old))
        result (input_of input.new) }
{
    input.expect(Kind::Close)?;
    boxed(
        input.alloc,
        line,
        GoalKind::If(condition, then_part, else_part),
    )
}

/// Lets go of a goal.
#[inline(never)]
fn let_go(goal: Box<Goal>) {
    drop(goal);
}

/// Lets go of goals.
#[inline(never)]
fn let_go_all(goals: Vec<Goal>) {
    drop(goals);
}

/// Takes a token of this kind after a goal, and gives the goal.
#[inline(never)]
fn before(input: &mut Input<'_>, kind: Kind, goal: Box<Goal>) -> Result<Box<Goal>, Refusal>
    ensures { Reads (λ goal. goal_of goal.value) (spec.before kind (goal_of goal.value) (input_of input.old)) result (input_of input.new) }
{
    input.expect(kind)?;
    Ok(goal)
}

/// The goal of this line and kind, in a box.
fn boxed(alloc: Global, line: u32, kind: GoalKind) -> Result<Box<Goal>, Refusal>
    ensures { (i : reading.Input) → Reads (λ goal. goal_of goal.value) (Ok (At line (expr_of kind), i)) result i }
{
    Ok(Box::new(alloc, Goal { line, kind })?)
}

/// The conjunction of these units; one alone is itself.
fn joined(mut units: Vec<Goal>) -> Goal
    ensures { goal_of result ≡ spec.joined (goals_of units.items) }
{
    if units.len() == 1 {
        return units.remove(0);
    }
    let line = first_line(&units);
    Goal {
        line,
        kind: GoalKind::Conj(units),
    }
}

/// The line of the first of these goals, or 0 where there is none.
fn first_line(goals: &[Goal]) -> u32
    ensures { result ≡ spec.first_line (goals_of goals.now) }
{
    match goals {
        [] => 0,
        [goal, ..] => goal.line,
    }
}

/// Takes a unit of a conjunction.
#[tactic(auto, unfolding(crate::specs::Rules::unit))]
#[cycle(goals)]
fn unit(input: &mut Input<'_>, room: u32) -> Result<Box<Goal>, Refusal>
    ensures { Reads (λ goal. goal_of goal.value) (spec.unit room (spec.within room) (input_of input.old)) result (input_of input.new) }
{
    let line = input.token().line;
    match input.kind() {
        Kind::Open => group(input, room),
        Kind::Not => negation(input, room),
        Kind::Some => quantification(input, room),
        Kind::True => {
            input.advance();
            settled(input.alloc, line, true)
        }
        Kind::Fail => {
            input.advance();
            settled(input.alloc, line, false)
        }
        Kind::Variable => relation_at(input, line),
        Kind::Call => closure_call_at(input, line),
        Kind::Name | Kind::Qualified => call_at(input, line),
        _ => Err(input.refuse()),
    }
}

/// Takes a relation of variables, as the goal of this line.
#[inline(never)]
fn relation_at(input: &mut Input<'_>, line: u32) -> Result<Box<Goal>, Refusal>
    ensures { Reads (λ goal. goal_of goal.value) (spec.goal_at line spec.relation (input_of input.old)) result (input_of input.new) }
{
    let kind = relation(input)?;
    boxed(input.alloc, line, kind)
}

/// Takes the call of a closure, as the goal of this line.
#[inline(never)]
fn closure_call_at(input: &mut Input<'_>, line: u32) -> Result<Box<Goal>, Refusal>
    ensures { Reads (λ goal. goal_of goal.value) (spec.goal_at line spec.closure_call (input_of input.old)) result (input_of input.new) }
{
    let kind = closure_call(input)?;
    boxed(input.alloc, line, kind)
}

/// Takes a call of a predicate, as the goal of this line.
#[inline(never)]
fn call_at(input: &mut Input<'_>, line: u32) -> Result<Box<Goal>, Refusal>
    ensures { Reads (λ goal. goal_of goal.value) (spec.goal_at line spec.call (input_of input.old)) result (input_of input.new) }
{
    let kind = call(input)?;
    boxed(input.alloc, line, kind)
}

/// Takes a conjunction, a disjunction or an if-then-else in parentheses.
#[tactic(auto, unfolding(crate::specs::Rules::group))]
#[cycle(goals)]
fn group(input: &mut Input<'_>, room: u32) -> Result<Box<Goal>, Refusal>
    ensures { Reads (λ goal. goal_of goal.value) (spec.group room (spec.within room) (input_of input.old)) result (input_of input.new) }
{
    let line = open_goal(input, room)?;
    let first = part(input, room)?;
    match input.kind() {
        Kind::Close => {
            input.advance();
            Ok(first)
        }
        Kind::Semicolon => disjunction(input, room, line, first),
        Kind::Then => choice(input, room, line, first),
        _ => {
            let_go(first);
            Err(input.refuse())
        }
    }
}

/// Takes the other arms of a disjunction, whose parenthesis stands on this line.
#[tactic(auto, unfolding(crate::specs::Rules::disjunction))]
#[cycle(goals)]
#[inline(never)]
fn disjunction(
    input: &mut Input<'_>,
    room: u32,
    line: u32,
    first: Box<Goal>,
) -> Result<Box<Goal>, Refusal>
    requires { 0 < room }
    ensures { Reads (λ goal. goal_of goal.value) (spec.disjunction (spec.within room) line (goal_of first.value) (input_of input.old)) result (input_of input.new) }
{
    let first = before(input, Kind::Semicolon, first)?;
    let mut found = Vec::new(input.alloc);
    match arms(input, room, first, &mut found) {
        Ok(()) => disjoined(input.alloc, line, found),
        Err(refusal) => {
            let_go_all(found);
            Err(refusal)
        }
    }
}

#[tactic(auto, unfolding(crate::specs::Rules::arms))]
#[cycle(goals)]
fn arms(
    input: &mut Input<'_>,
    room: u32,
    first: Box<Goal>,
    found: &mut Vec<Goal>,
) -> Result<(), Refusal>
    requires room { 0 < room }
    requires none { found.now.items ≡ [] }
    ensures { Reads (λ done. goals_of found.new.items) (spec.arms (spec.within room) (goal_of first.value) (input_of input.old)) result (input_of input.new) }
{
    add_goal(found, first)?;
    for _turn in 0..input.left() {
        add_goal(found, part(input, room)?)?;
        if !input.eat(Kind::Semicolon) {
            input.expect(Kind::Close)?;
            return Ok(());
        }
    }
    Err(input.refuse())
}

/// Takes the then and the else part of an if-then-else, whose parenthesis stands on this line.
#[tactic(auto, unfolding(crate::specs::Rules::choice))]
#[cycle(goals)]
#[inline(never)]
fn choice(
    input: &mut Input<'_>,
    room: u32,
    line: u32,
    condition: Box<Goal>,
) -> Result<Box<Goal>, Refusal>
    requires { 0 < room }
    ensures { Reads (λ goal. goal_of goal.value) (spec.choice (spec.within room) line (goal_of condition.value) (input_of input.old)) result (input_of input.new) }
{
    match branches(input, room) {
        Ok((then_part, else_part)) => chosen(input, line, condition, then_part, else_part),
        Err(refusal) => {
            let_go(condition);
            Err(refusal)
        }
    }
}

#[tactic(auto, unfolding(crate::specs::Rules::branches))]
#[cycle(goals)]
fn branches(input: &mut Input<'_>, room: u32) -> Result<(Box<Goal>, Box<Goal>), Refusal>
    requires { 0 < room }
    ensures { Reads (λ b. (goal_of b.0.value, goal_of b.1.value)) (spec.branches (spec.within room) (input_of input.old)) result (input_of input.new) }
{
    input.expect(Kind::Then)?;
    let then_part = part(input, room)?;
    let then_part = before(input, Kind::Semicolon, then_part)?;
    match part(input, room) {
        Ok(else_part) => Ok((then_part, else_part)),
        Err(refusal) => {
            let_go(then_part);
            Err(refusal)
        }
    }
}

/// Takes a negation.
#[tactic(auto, unfolding(crate::specs::Rules::negation))]
#[cycle(goals)]
#[inline(never)]
fn negation(input: &mut Input<'_>, room: u32) -> Result<Box<Goal>, Refusal>
    ensures { Reads (λ goal. goal_of goal.value) (spec.negation room (spec.within room) (input_of input.old)) result (input_of input.new) }
{
    let line = input.expect(Kind::Not)?;
    open_goal(input, room)?;
    let goal = part(input, room)?;
    let goal = before(input, Kind::Close, goal)?;
    negated(input.alloc, line, goal)
}

/// Takes a quantified goal.
#[tactic(auto, unfolding(crate::specs::Rules::quantification))]
#[cycle(goals)]
#[inline(never)]
fn quantification(input: &mut Input<'_>, room: u32) -> Result<Box<Goal>, Refusal>
    ensures { Reads (λ goal. goal_of goal.value) (spec.quantification room (spec.within room) (input_of input.old)) result (input_of input.new) }
{
    let line = input.expect(Kind::Some)?;
    input.expect(Kind::OpenList)?;
    let variables = quantified(input)?;
    open_goal(input, room)?;
    let goal = part(input, room)?;
    let goal = before(input, Kind::Close, goal)?;
    quantified_goal(input.alloc, line, variables, goal)
}

/// Takes the conjunction inside a goal that was opened, as a part of it.
#[cycle(goals)]
fn part(input: &mut Input<'_>, room: u32) -> Result<Box<Goal>, Refusal>
    requires { 0 < room }
    ensures { Reads (λ goal. goal_of goal.value) (spec.within room (input_of input.old)) result (input_of input.new) }
{
    conjunction(input, room - 1)
}

/// Takes a `(` that opens a goal, and gives its line.
fn open_goal(input: &mut Input<'_>, room: u32) -> Result<u32, Refusal>
    ensures read { Reads (λ line. line) (spec.open_goal room (input_of input.old)) result (input_of input.new) }
    ensures room { OnOk result (0 < room) }
{
    if room > 0 {
        return input.expect(Kind::Open);
    }
    if input.sees(Kind::Open) {
        Err(input.limit())
    } else {
        Err(input.refuse())
    }
}
