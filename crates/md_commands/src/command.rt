// Which words are a command.
ghost use Rattle.std.specs.Prelude.{◌≡◌, ◌==◌, IfOk, IfSome, List, Some};
ghost use Rattle.std.specs.List.{before_first, after_first};
ghost use Rattle.clap.specs.Matches.{found_of};
ghost use Rattle.clap.specs.Walk.{rows_of};
ghost use Rattle.md_query.specs.Told.{asked_told};
ghost use Rattle.md_commands.specs.Parts.{Part};
ghost use Rattle.md_commands.specs.Tools.{usage_of};
ghost use Rattle.md_commands.specs.Form.{words_of, HasBounds, form, form_at, form_by, feedback_of, dump_of, undump_of, cover_of, sum_of, compare_of, are_few, check_of, run_of, report_of, page_of, serve_of, gen_of, migrate_of, query_in, query_at, without_slash, only, two};
ghost use Rattle.md_commands.specs.Told.{told, command_told, texts, text_told, pair_told, words_told};
ghost use Rattle.md_commands.specs.Reading.{IsReading, Tells};

use crate::procedure::{ProcWord, proc_word};
use crate::reading::{is_given, matches_of, others};
use crate::tool::{Tool, tool_named};
use crate::values::{by, least, port, profile, requests, steps, thousandths};
use clap::ArgMatches;
use md_base::{Measure, NoMemory};
use md_query::{Query, QueryFault, number_within, read_query};
use std::alloc::Global;

/// The greatest number of a generated program.
const MOST_GENERATED: u32 = 20;

/// The most profiles that are added up.
const MOST_PROFILES: usize = 16;

/// What the words of a command line ask for.
#[derive(Debug, Drop)]
pub enum Command<'a> {
    /// `check FILE [--print]`.
    Check {
        file: &'a str,
        print: bool,
    },
    /// `run FILE [--steps N] [--profile NAME]`.
    Run {
        file: &'a str,
        steps: u32,
        profile: &'a str,
    },
    /// `report FILE QUERY [--steps N]`.
    Report {
        file: &'a str,
        query: Query,
        steps: u32,
    },
    /// `page NAME QUERY`.
    Page {
        name: &'a str,
        query: Query,
    },
    /// `serve NAME --port P --requests N`.
    Serve {
        name: &'a str,
        port: u16,
        requests: u32,
    },
    /// `gen N [--summary]`.
    Gen {
        n: u32,
        summary: bool,
    },
    /// `migrate NAME NEW`.
    Migrate {
        name: &'a str,
        new: &'a str,
    },
    /// `feedback FILE NEW [--steps N] [--least K]`.
    Feedback {
        file: &'a str,
        new: &'a str,
        steps: u32,
        least: u32,
    },
    /// `dump NAME`.
    Dump {
        name: &'a str,
    },
    /// `undump TEXT NEW`.
    Undump {
        text: &'a str,
        new: &'a str,
    },
    /// `cover FILE PROC [--steps N]`.
    Cover {
        file: &'a str,
        proc: ProcWord<'a>,
        steps: u32,
    },
    /// `sum NAME { NAME }`.
    Sum {
        names: Vec<&'a str>,
    },
    /// `compare OLD NEW [--by M] [--least L]`.
    Compare {
        old: &'a str,
        new: &'a str,
        by: Measure,
        least: u32,
    },
}

/// The command that the words are, or `None` exactly where they are none. Options and other words come in any order; the
/// word `--` ends the options.
#[tactic(auto, unfolding(crate::specs::Form::form))]
pub fn command_of<'a>(alloc: Global, words: &'a [String]) -> Result<Option<Command<'a>>, NoMemory>
    ensures form { IfOk result (λ found. command_told found ≡ form (words_of words.now)) }
    ensures bounds { IfOk result (λ found. IfSome found (λ command. HasBounds (told command))) }
{
    match matches_of(alloc, words)? {
        Some(matches) => command_in(alloc, &matches),
        None => Ok(None),
    }
}

/// The command that matches enter, by its name.
fn command_in<'a>(alloc: Global, matches: &ArgMatches<'a>) -> Result<Option<Command<'a>>, NoMemory>
    ensures { (tool : Tool) (parts : List Part) → IsReading (Some (tool, parts)) (Some matches.now) → IfOk result (λ found. command_told found ≡ form_by tool parts) }
{
    let Some((name, values)) = matches.subcommand() else {
        return Ok(None);
    };
    match tool_named(name) {
        Some(tool) => command_by(alloc, tool, values),
        None => Ok(None),
    }
}

/// A command, by the values of its options and its other words.
fn command_by<'a>(
    alloc: Global,
    tool: Tool,
    values: &ArgMatches<'a>,
) -> Result<Option<Command<'a>>, NoMemory>
    ensures { (parts : List Part) → Tells (usage_of tool) parts (rows_of (found_of values.now)) → IfOk result (λ found. command_told found ≡ form_by tool parts) }
{
    let words = others(values);
    match tool {
        Tool::Check => Ok(check_command(is_given(values, "print"), only(words))),
        Tool::Run => Ok(run_command(steps(values), profile(values), only(words))),
        Tool::Report => report_command(alloc, steps(values), two(words)),
        Tool::Page => page_command(alloc, two(words)),
        Tool::Serve => Ok(serve_command(port(values), requests(values), only(words))),
        Tool::Gen => Ok(gen_command(is_given(values, "summary"), only(words))),
        Tool::Migrate => Ok(migrate_command(two(words))),
        Tool::Feedback => Ok(feedback_command(steps(values), least(values), two(words))),
        Tool::Dump => Ok(dump_command(only(words))),
        Tool::Undump => Ok(undump_command(two(words))),
        Tool::Cover => Ok(cover_command(steps(values), two(words))),
        Tool::Sum => sum_command(alloc, words),
        Tool::Compare => Ok(compare_command(by(values), thousandths(values), two(words))),
    }
}

/// `check FILE [--print]`.
fn check_command<'a>(print: bool, file: Option<&'a str>) -> Option<Command<'a>>
    ensures { command_told result ≡ check_of print (text_told file.entry) }
{
    let file = file?;
    Some(Command::Check { file, print })
}

/// `run FILE [--steps N] [--profile NAME]`, where the profile isn't written over the program.
fn run_command<'a>(
    steps: Option<u32>,
    profile: &'a str,
    file: Option<&'a str>,
) -> Option<Command<'a>>
    ensures { command_told result ≡ run_of steps profile.entry.now (text_told file.entry) }
{
    let steps = steps?;
    let file = file?;
    if profile == file {
        return None;
    }
    Some(Command::Run {
        file,
        steps,
        profile,
    })
}

/// `report FILE QUERY [--steps N]`.
fn report_command<'a>(
    alloc: Global,
    steps: Option<u32>,
    words: Option<(&'a str, &'a str)>,
) -> Result<Option<Command<'a>>, NoMemory>
    ensures { IfOk result (λ found. command_told found ≡ report_of steps (pair_told words.entry)) }
{
    let Some(steps) = steps else {
        return Ok(None);
    };
    let Some((file, query)) = words else {
        return Ok(None);
    };
    match query_in(alloc, query)? {
        Some(query) => Ok(Some(Command::Report { file, query, steps })),
        None => Ok(None),
    }
}

/// `page NAME QUERY`.
fn page_command<'a>(
    alloc: Global,
    words: Option<(&'a str, &'a str)>,
) -> Result<Option<Command<'a>>, NoMemory>
    ensures { IfOk result (λ found. command_told found ≡ page_of (pair_told words.entry)) }
{
    let Some((name, query)) = words else {
        return Ok(None);
    };
    match query_in(alloc, query)? {
        Some(query) => Ok(Some(Command::Page { name, query })),
        None => Ok(None),
    }
}

/// `serve NAME --port P --requests N`.
fn serve_command<'a>(
    port: Option<u16>,
    requests: Option<u32>,
    name: Option<&'a str>,
) -> Option<Command<'a>>
    ensures { command_told result ≡ serve_of port requests (text_told name.entry) }
{
    let port = port?;
    let requests = requests?;
    let name = name?;
    Some(Command::Serve {
        name,
        port,
        requests,
    })
}

/// `gen N [--summary]`.
fn gen_command<'a>(summary: bool, word: Option<&str>) -> Option<Command<'a>>
    ensures { command_told result ≡ gen_of summary (text_told word.entry) }
{
    let word = word?;
    let n = number_within(1, MOST_GENERATED, word.as_bytes())?;
    Some(Command::Gen { n, summary })
}

/// `migrate NAME NEW`, where a file isn't written over itself.
fn migrate_command<'a>(words: Option<(&'a str, &'a str)>) -> Option<Command<'a>>
    ensures { command_told result ≡ migrate_of (pair_told words.entry) }
{
    let (name, new) = words?;
    if name == new {
        return None;
    }
    Some(Command::Migrate { name, new })
}

/// `feedback FILE NEW [--steps N] [--least K]`, where the program isn't written over.
fn feedback_command<'a>(
    steps: Option<u32>,
    least: Option<u32>,
    words: Option<(&'a str, &'a str)>,
) -> Option<Command<'a>>
    ensures { command_told result ≡ feedback_of steps least (pair_told words.entry) }
{
    let steps = steps?;
    let least = least?;
    let (file, new) = words?;
    if file == new {
        return None;
    }
    Some(Command::Feedback {
        file,
        new,
        steps,
        least,
    })
}

/// `dump NAME`.
fn dump_command<'a>(name: Option<&'a str>) -> Option<Command<'a>>
    ensures { command_told result ≡ dump_of (text_told name.entry) }
{
    let name = name?;
    Some(Command::Dump { name })
}

/// `undump TEXT NEW`, where a file isn't written over itself.
fn undump_command<'a>(words: Option<(&'a str, &'a str)>) -> Option<Command<'a>>
    ensures { command_told result ≡ undump_of (pair_told words.entry) }
{
    let (text, new) = words?;
    if text == new {
        return None;
    }
    Some(Command::Undump { text, new })
}

/// `cover FILE PROC [--steps N]`.
fn cover_command<'a>(steps: Option<u32>, words: Option<(&'a str, &'a str)>) -> Option<Command<'a>>
    ensures { command_told result ≡ cover_of steps (pair_told words.entry) }
{
    let steps = steps?;
    let (file, word) = words?;
    let proc = proc_word(word)?;
    Some(Command::Cover { file, proc, steps })
}

/// `sum NAME { NAME }`, of 1 to 16 profiles. There may be any number of words in clap's view, so they are counted here.
fn sum_command<'a>(
    alloc: Global,
    names: Option<&[&'a str]>,
) -> Result<Option<Command<'a>>, NoMemory>
    ensures { IfOk result (λ found. command_told found ≡ sum_of (words_told names.entry)) }
{
    let Some(names) = names else {
        return Ok(None);
    };
    if !are_few(names) {
        return Ok(None);
    }
    let names = copies(alloc, names)?;
    Ok(Some(Command::Sum { names }))
}

/// `compare OLD NEW [--by M] [--least L]`. Nothing is written, so both names may be of one file.
fn compare_command<'a>(
    by: Option<Measure>,
    least: Option<u32>,
    words: Option<(&'a str, &'a str)>,
) -> Option<Command<'a>>
    ensures { command_told result ≡ compare_of by least (pair_told words.entry) }
{
    let by = by?;
    let least = least?;
    let (old, new) = words?;
    Some(Command::Compare {
        old,
        new,
        by,
        least,
    })
}

/// Whether there are 1 to 16 words.
fn are_few(words: &[&str]) -> bool
    ensures { result ≡ are_few (texts words.now) }
{
    1 <= words.len() && words.len() <= MOST_PROFILES
}

/// The same words.
fn copies<'a>(alloc: Global, words: &[&'a str]) -> Result<Vec<&'a str>, NoMemory>
    ensures { IfOk result (λ copies. texts copies.items ≡ texts words.now) }
{
    let mut copies = Vec::new(alloc);
    for word in words {
        copies.push(*word)?;
    }
    Ok(copies)
}

/// The one word, where there is one.
fn only<'a>(words: Option<&[&'a str]>) -> Option<&'a str>
    ensures { text_told result ≡ only (words_told words.entry) }
{
    let words = words?;
    if words.len() == 1 {
        Some(words[0])
    } else {
        None
    }
}

/// The two words, where there are two.
fn two<'a>(words: Option<&[&'a str]>) -> Option<(&'a str, &'a str)>
    ensures { pair_told result ≡ two (words_told words.entry) }
{
    let words = words?;
    if words.len() == 2 {
        Some((words[0], words[1]))
    } else {
        None
    }
}

/// The query that a word is: a path, and behind the first `?` the pairs; one `/` in front is dropped.
fn query_in(alloc: Global, word: &str) -> Result<Option<Query>, NoMemory>
    ensures { IfOk result (λ found. asked_told found ≡ query_in word.now) }
{
    query_at(alloc, without_slash(word))
}

/// A word without one `/` in front.
fn without_slash(word: &str) -> &str
    ensures { result.now ≡ without_slash word.now }
{
    match word.strip_prefix('/') {
        Some(rest) => rest,
        None => word,
    }
}

/// The query that an address is.
fn query_at(alloc: Global, address: &str) -> Result<Option<Query>, NoMemory>
    ensures { IfOk result (λ found. asked_told found ≡ query_at address.now) }
{
    let (path, pairs) = around_mark(address);
    match read_query(alloc, path.as_bytes(), pairs.as_bytes()) {
        Ok(query) => Ok(Some(query)),
        Err(QueryFault::BadQuery) => Ok(None),
        Err(QueryFault::NoMemory) => Err(NoMemory),
    }
}

/// What stands on the two sides of the first `?`.
fn around_mark(address: &str) -> (&str, &str)
    ensures path { result.0.now ≡ before_first (λ b. b == 63) address.now }
    ensures pairs { result.1.now ≡ after_first (λ b. b == 63) address.now }
{
    match address.split_once('?') {
        Some((path, pairs)) => (path, pairs),
        None => (address, ""),
    }
}
