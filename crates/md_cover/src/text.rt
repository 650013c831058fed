// A coverage as a text.
ghost use Rattle.std.specs.Prelude.{◌≡◌, ◌++◌, codes, OnOk, IfOk};
ghost use Rattle.md_cover.specs.Text.{title_words, kind_word, indent, turns_word, goal_words, goal_line, goal_lines, cover_text};

use crate::name::add_full_name;
use crate::number::{add, add_number};
use crate::{Coverage, GoalCount, KindName};
use md_base::{NoMemory, ProcId};
use md_cost::Loaded;
use md_static::Statics;
use std::alloc::{AllocError, Global};

/// The coverage as a text: a title with the procedure's number and full name, and a line for each goal, with two spaces for
/// each goal that it stands in; each line is ended by a line feed. Turns that aren't known are told as `-`. A number that
/// isn't in the profile stands for no name.
pub fn cover_text(alloc: Global, loaded: &Loaded, coverage: &Coverage) -> Result<Vec<u8>, NoMemory>
    ensures { IfOk result (λ text. text.items ≡ cover_text loaded.now.profile.statics coverage.now) }
{
    let mut out = Vec::new(alloc);
    add_coverage(&mut out, loaded, coverage)?;
    Ok(out)
}

fn add_coverage(out: &mut Vec<u8>, loaded: &Loaded, coverage: &Coverage) -> Result<(), AllocError>
    ensures { OnOk result (out.new.items ≡ out.old.items ++ cover_text loaded.now.profile.statics coverage.now) }
{
    add_title(out, loaded.profile().statics(), coverage.id())?;
    add_goals(out, coverage.goals())
}

fn add_title(out: &mut Vec<u8>, statics: &Statics, id: ProcId) -> Result<(), AllocError>
    ensures { OnOk result (out.new.items ≡ out.old.items ++ title_words statics.now id) }
{
    add_number(out, b"mdprof cover ", id.number() as u64)?;
    add(out, b" ")?;
    add_full_name(out, statics, id.number())?;
    add(out, b"\n")
}

fn add_goals(out: &mut Vec<u8>, goals: &[GoalCount]) -> Result<(), AllocError>
    ensures { OnOk result (out.new.items ≡ out.old.items ++ goal_lines goals.now) }
{
    for goal in goals {
        add_goal(out, *goal)?;
    }
    Ok(())
}

fn add_goal(out: &mut Vec<u8>, goal: GoalCount) -> Result<(), AllocError>
    ensures { OnOk result (out.new.items ≡ out.old.items ++ goal_line goal) }
{
    add_indent(out, goal.depth)?;
    add_goal_words(out, goal)
}

/// Adds two spaces for each depth.
fn add_indent(out: &mut Vec<u8>, depth: u32) -> Result<(), AllocError>
    ensures { OnOk result (out.new.items ≡ out.old.items ++ indent depth) }
{
    for _level in 0..depth {
        add(out, b"  ")?;
    }
    Ok(())
}

fn add_goal_words(out: &mut Vec<u8>, goal: GoalCount) -> Result<(), AllocError>
    ensures { OnOk result (out.new.items ≡ out.old.items ++ goal_words goal) }
{
    add_number(out, b"goal ", goal.place as u64)?;
    add_number(out, b" line ", goal.line as u64)?;
    add(out, b" ")?;
    add(out, kind_word(goal.kind))?;
    add_turns(out, goal.turns)
}

/// Adds the turns, or that they aren't known, and ends the line.
fn add_turns(out: &mut Vec<u8>, turns: Option<u64>) -> Result<(), AllocError>
    ensures { OnOk result (out.new.items ≡ out.old.items ++ (codes " turns " ++ (turns_word turns ++ codes "\n"))) }
{
    match turns {
        Some(turns) => add_number(out, b" turns ", turns)?,
        None => add(out, b" turns -")?,
    }
    add(out, b"\n")
}

fn kind_word(kind: KindName) -> &'static [u8]
    ensures { result.now ≡ kind_word kind }
{
    match kind {
        KindName::True => b"true",
        KindName::Fail => b"fail",
        KindName::Unify => b"unify",
        KindName::Arith => b"arith",
        KindName::Compare => b"compare",
        KindName::Write => b"write",
        KindName::Call => b"call",
        KindName::ClosureCall => b"closure-call",
        KindName::Conj => b"conj",
        KindName::Disj => b"disj",
        KindName::If => b"if",
        KindName::Not => b"not",
        KindName::Some => b"some",
        KindName::Error => b"error",
    }
}
