// Predicates: a declaration, and the one clause after it.
ghost use Rattle.std.specs.Prelude.{◌≡◌, [], ◌∷◌, ◌++◌, length, Ok};
ghost use Rattle.md_hlds.specs.Hlds.{args_of, procedure_of};
ghost use Rattle.md_hlds.specs.HldsGoal.{goal_of};
ghost use Rattle.md_reader.specs.Input as parsing;
ghost use Rattle.md_reader.specs.Input.{input_of, Reads};
ghost use Rattle.md_reader.specs.Rules as spec;
ghost use Rattle.md_reader.specs.Views.{declaration_of, clause_of};

use crate::argument::{declared_arguments, determinism};
use crate::goal::conjunction;
use crate::input::Input;
use crate::names::{declared_name, this_name};
use crate::refused::Refusal;
use md_base::Name;
use md_hlds::{Det, Goal, Mode, Pred, PredName, Ty, Variables};
use md_token::Kind;

/// How many goals may be open at a place.
const MOST_OPEN: u32 = 200;

/// What a predicate's declaration says.
#[derive(Drop)]
pub(crate) struct Declaration {
    pub name: PredName,
    pub args: Vec<(Ty, Mode)>,
    pub det: Det,
}

/// What a predicate's clause says.
#[derive(Drop)]
pub(crate) struct Clause {
    pub line: u32,
    pub head: Variables,
    pub body: Goal,
    pub vars: Vec<Name>,
}

/// Takes the declaration of a predicate from `pred` on, and its clause. Its line is that of its `:-`.
#[tactic(auto, unfolding(crate::specs::Rules::procedure))]
pub(crate) fn procedure(input: &mut Input<'_>, line: u32) -> Result<Pred, Refusal>
    ensures { Reads procedure_of (spec.procedure line (input_of input.old)) result (input_of input.new) }
{
    let declaration = take_declaration(input)?;
    let clause = take_clause(input, &declaration.name, arity(&declaration.args))?;
    Ok(joined(line, declaration, clause))
}

#[tactic(auto, using(crate::proofs::Lists::length_args_of))]
fn arity(args: &[(Ty, Mode)]) -> usize
    ensures { result ≡ length (args_of args.now) }
{
    args.len()
}

#[tactic(auto, unfolding(crate::specs::Rules::procedure_from))]
fn joined(line: u32, declaration: Declaration, clause: Clause) -> Pred
    ensures { procedure_of result ≡ spec.procedure_from line (declaration_of declaration) (clause_of clause) }
{
    let Declaration { name, args, det } = declaration;
    let PredName { qualifier, name } = name;
    Pred {
        qualifier,
        name,
        line,
        clause_line: clause.line,
        args,
        det,
        vars: clause.vars,
        head: clause.head,
        body: clause.body,
    }
}

#[tactic(auto, unfolding(crate::specs::Rules::declaration))]
fn take_declaration(input: &mut Input<'_>) -> Result<Declaration, Refusal>
    ensures { Reads declaration_of (spec.declaration (input_of input.old)) result (input_of input.new) }
{
    input.expect(Kind::Pred)?;
    let name = declared_name(input)?;
    let args = declared_arguments(input)?;
    let det = declared_determinism(input)?;
    Ok(Declaration { name, args, det })
}

/// Takes `is`, a determinism and the end sign.
#[tactic(auto, unfolding(crate::specs::Rules::declared_determinism))]
fn declared_determinism(input: &mut Input<'_>) -> Result<Det, Refusal>
    ensures { Reads (λ det. det) (spec.declared_determinism (input_of input.old)) result (input_of input.new) }
{
    input.expect(Kind::Is)?;
    let det = determinism(input)?;
    input.expect(Kind::End)?;
    Ok(det)
}

/// Takes the clause of the predicate of this name, with so many arguments.
#[tactic(auto, unfolding(crate::specs::Rules::clause))]
fn take_clause(input: &mut Input<'_>, name: &PredName, arity: usize) -> Result<Clause, Refusal>
    ensures { Reads clause_of (spec.clause name.now arity (input_of input.old)) result (input_of input.new) }
{
    let line = input.token().line;
    this_name(input, name)?;
    let head = head(input, arity)?;
    let body = body(input)?;
    let vars = input.end_clause()?;
    Ok(Clause {
        line,
        head,
        body: Box::into_inner(body),
        vars,
    })
}

/// Takes `:-`, a conjunction and the end sign.
#[tactic(auto, unfolding(crate::specs::Rules::body, crate::specs::Input::input_of))]
fn body(input: &mut Input<'_>) -> Result<Box<Goal>, Refusal>
    ensures { Reads (λ goal. goal_of goal.value) (spec.body (input_of input.old)) result (input_of input.new) }
{
    input.expect(Kind::Declare)?;
    let body = conjunction(input, MOST_OPEN)?;
    input.expect(Kind::End)?;
    Ok(body)
}

/// Takes the variables of a clause's head, in parentheses where there are any.
#[tactic(auto, unfolding(crate::specs::Rules::head))]
fn head(input: &mut Input<'_>, arity: usize) -> Result<Variables, Refusal>
    ensures { Reads (λ found. found) (spec.head arity (input_of input.old)) result (input_of input.new) }
{
    if arity == 0 {
        return Ok(Variables::new(input.alloc));
    }
    input.expect(Kind::Open)?;
    head_variables(input, arity - 1)
}

/// Takes so many variables after the first one, which all differ, and `)`.
fn head_variables(input: &mut Input<'_>, more: usize) -> Result<Variables, Refusal>
    ensures { Reads (λ found. found) (spec.head_from more [] (input_of input.old)) result (input_of input.new) }
{
    let mut seen = Vec::new(input.alloc);
    for _turn in 0..more {
        next_variable(input, &mut seen, Kind::Comma)?;
    }
    next_variable(input, &mut seen, Kind::Close)?;
    Ok(Variables::from_vec(seen))
}

/// Takes a variable that is none of those seen, which it joins, and the sign after it.
fn next_variable(input: &mut Input<'_>, seen: &mut Vec<u32>, after: Kind) -> Result<(), Refusal>
    ensures { Reads (λ _. seen.new.items) (parsing.and_then (parsing.variable seen.old.items (input_of input.old)) (λ x j. parsing.and_then (parsing.expect after j) (λ _ k. Ok (seen.old.items ++ x ∷ [], k)))) result (input_of input.new) }
{
    let variable = input.variable(seen)?;
    seen.push(variable)?;
    input.expect(after)?;
    Ok(())
}
