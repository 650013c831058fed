// The command line as clap reads it.
ghost use Rattle.std.specs.Prelude.{◌≡◌, IfOk, [], ◌∷◌, option_map, slice_get, unwrap_or};
ghost use Rattle.clap.specs.Simple.{App, new_app, with_rule};
ghost use Rattle.md_commands.specs.Tools.{name_of, usage_of, tools};
ghost use Rattle.md_commands.specs.Lines.{IsApp, bare_line, flag_arg, line_of, options_of, subcommand_of, valued_arg, with_rules};

use crate::tool::{Tool, name_of};
use clap::{Arg, ArgAction, Command};
use std::alloc::{AllocError, Global};

/// The id of the words that are no options.
pub const WORDS: &str = "words";

/// The commands with their options and words, as clap is to read them: no name of the program stands in front, and there is no
/// help and no version. `AllocError` where memory runs out.
pub fn command_line<'a>(alloc: Global) -> Result<Command<'a>, AllocError>
    ensures { IfOk result (IsApp (line_of tools)) }
{
    let tools = [
        Tool::Check,
        Tool::Run,
        Tool::Report,
        Tool::Page,
        Tool::Serve,
        Tool::Gen,
        Tool::Migrate,
        Tool::Feedback,
        Tool::Dump,
        Tool::Undump,
        Tool::Cover,
        Tool::Sum,
        Tool::Compare,
    ];
    let mut line = bare_line(alloc);
    for tool in &tools {
        line = line.subcommand(subcommand_of(alloc, *tool)?)?;
    }
    Ok(line)
}

/// The command line before it has commands.
fn bare_line<'a>(alloc: Global) -> Command<'a>
    ensures { IsApp bare_line result }
{
    Command::new(alloc, "mdprof")
        .no_binary_name(true)
        .disable_help_flag(true)
        .disable_help_subcommand(true)
        .subcommand_required(true)
}

/// A command with its options and words.
fn subcommand_of<'a>(alloc: Global, tool: Tool) -> Result<Command<'a>, AllocError>
    ensures { IfOk result (IsApp (record { top = subcommand_of tool; subs = [] })) }
{
    let command = with_options(alloc, tool, Command::new(alloc, name_of(tool)))?;
    let words = Arg::new(alloc, WORDS).action(ArgAction::Append);
    command.arg(words)
}

/// A command with the options of this one more.
fn with_options<'a>(
    alloc: Global,
    tool: Tool,
    command: Command<'a>,
) -> Result<Command<'a>, AllocError>
    ensures { (app : App) → IsApp app command.entry → IfOk result (IsApp (with_rules app (options_of (usage_of tool)))) }
{
    let first = with_value(alloc, command, first_value(tool))?;
    let second = with_value(alloc, first, second_value(tool))?;
    with_flag(alloc, second, flag(tool))
}

/// The first option of a command that takes a value.
fn first_value<'a>(tool: Tool) -> Option<&'a str>
    ensures { option_map (λ name. name.now) result ≡ slice_get (usage_of tool).valued 0 }
{
    match tool {
        Tool::Run | Tool::Report | Tool::Feedback | Tool::Cover => Some("steps"),
        Tool::Serve => Some("port"),
        Tool::Compare => Some("by"),
        Tool::Check
        | Tool::Gen
        | Tool::Page
        | Tool::Migrate
        | Tool::Dump
        | Tool::Undump
        | Tool::Sum => None,
    }
}

/// The second option of a command that takes a value.
fn second_value<'a>(tool: Tool) -> Option<&'a str>
    ensures { option_map (λ name. name.now) result ≡ slice_get (usage_of tool).valued 1 }
{
    match tool {
        Tool::Run => Some("profile"),
        Tool::Feedback | Tool::Compare => Some("least"),
        Tool::Serve => Some("requests"),
        Tool::Check
        | Tool::Report
        | Tool::Page
        | Tool::Gen
        | Tool::Migrate
        | Tool::Dump
        | Tool::Undump
        | Tool::Cover
        | Tool::Sum => None,
    }
}

/// The option of a command that takes no value.
fn flag<'a>(tool: Tool) -> Option<&'a str>
    ensures { option_map (λ name. name.now) result ≡ slice_get (usage_of tool).flags 0 }
{
    match tool {
        Tool::Check => Some("print"),
        Tool::Gen => Some("summary"),
        Tool::Run
        | Tool::Report
        | Tool::Page
        | Tool::Serve
        | Tool::Migrate
        | Tool::Feedback
        | Tool::Dump
        | Tool::Undump
        | Tool::Cover
        | Tool::Sum
        | Tool::Compare => None,
    }
}

/// A command with an option more that takes a value, if there is one.
fn with_value<'a>(
    alloc: Global,
    command: Command<'a>,
    name: Option<&'a str>,
) -> Result<Command<'a>, AllocError>
    ensures { (app : App) → IsApp app command.entry → IfOk result (IsApp (unwrap_or (option_map (λ n. with_rule app (valued_arg n)) (option_map (λ n. n.now) name.entry)) app)) }
{
    match name {
        None => Ok(command),
        Some(name) => command.arg(Arg::new(alloc, name).long(name)),
    }
}

/// A command with an option more that takes none, if there is one.
fn with_flag<'a>(
    alloc: Global,
    command: Command<'a>,
    name: Option<&'a str>,
) -> Result<Command<'a>, AllocError>
    ensures { (app : App) → IsApp app command.entry → IfOk result (IsApp (unwrap_or (option_map (λ n. with_rule app (flag_arg n)) (option_map (λ n. n.now) name.entry)) app)) }
{
    match name {
        None => Ok(command),
        Some(name) => command.arg(Arg::new(alloc, name).long(name).action(ArgAction::SetTrue)),
    }
}
