// The words of a command line as clap reads them.
ghost use Rattle.std.specs.Prelude.{◌≡◌, IfOk, List, true};
ghost use Rattle.clap.specs.Matches.{found_of};
ghost use Rattle.clap.specs.Walk.{rows_of};
ghost use Rattle.md_commands.specs.declared.tool.Tool.{Tool};
ghost use Rattle.md_commands.specs.Parts.{Part, Usage, is_flag, is_given, others, takes_value, value_of};
ghost use Rattle.md_commands.specs.Tools.{usage_of};
ghost use Rattle.md_commands.specs.Reading.{IsReading, Tells};
ghost use Rattle.md_commands.specs.Form.{parts_of, words_of};
ghost use Rattle.md_commands.specs.Told.{text_told, words_told};

use crate::tool::{Tool, tool_named};
use crate::usage::{WORDS, command_line};
use clap::ArgMatches;
use clap::error::ErrorKind;
use md_base::NoMemory;
use std::alloc::Global;

/// What clap makes of the words, or `None` exactly where they name no command, or have other options than its own, each at most
/// once. How many other words there are, and what a value spells, is left to the caller. `NoMemory` where memory runs out.
pub fn matches_of<'a>(
    alloc: Global,
    words: &'a [String],
) -> Result<Option<ArgMatches<'a>>, NoMemory>
    ensures { IfOk result (IsReading (parts_of (words_of words.now))) }
{
    let line = command_line(alloc)?;
    match line.try_get_matches_from(words) {
        Ok(matches) => Ok(Some(matches)),
        Err(error) => {
            if error.kind() == ErrorKind::OutOfMemory {
                return Err(NoMemory);
            }
            Ok(None)
        }
    }
}

/// The value of an option, where it comes.
pub fn value_of<'a>(values: &ArgMatches<'a>, name: &str) -> Option<&'a str>
    ensures { (usage : Usage) (parts : List Part) → Tells usage parts (rows_of (found_of values.now)) → takes_value usage name.now ≡ true → text_told result ≡ value_of name.now parts }
{
    values.get_str(name)
}

/// Whether a flag comes.
pub fn is_given(values: &ArgMatches<'_>, name: &str) -> bool
    ensures { (usage : Usage) (parts : List Part) → Tells usage parts (rows_of (found_of values.now)) → is_flag usage name.now ≡ true → result ≡ is_given name.now parts }
{
    values.get_flag(name)
}

/// The words that are no options, where there are any.
pub fn others<'m, 'a>(values: &'m ArgMatches<'a>) -> Option<&'m [&'a str]>
    ensures { (usage : Usage) (parts : List Part) → Tells usage parts (rows_of (found_of values.now)) → words_told result ≡ others parts }
{
    values.get_strs(WORDS)
}
