// The values of options: numbers, names and measures.
ghost use Rattle.std.specs.Prelude.{◌≡◌, ◌≤◌, IfSome, List, codes, true};
ghost use Rattle.clap.specs.Matches.{found_of};
ghost use Rattle.clap.specs.Walk.{rows_of};
ghost use Rattle.md_query.specs.Pair.{number_from};
ghost use Rattle.md_commands.specs.Parts.{Part, Usage, takes_value};
ghost use Rattle.md_commands.specs.Form.{number_or, steps_of, profile_of, least_of, by_of, thousandths_of, port_of, requests_of};
ghost use Rattle.md_commands.specs.Told.{text_told};
ghost use Rattle.md_commands.specs.Reading.{Tells};

use crate::reading::value_of;
use clap::ArgMatches;
use md_base::Measure;
use md_query::{measure_named, number_within};

/// The steps of a run to which the words give none.
const USUAL_STEPS: u32 = 1_000_000;

/// Where a run's profile goes where the words don't say it.
const USUAL_PROFILE: &str = "mdprof.data";

/// The most steps that a run may be given.
const MOST_STEPS: u32 = 16_777_216;

/// The greatest number of a port.
const LAST_PORT: u32 = 65_535;

/// The most connections that are served.
const MOST_REQUESTS: u32 = 1_000_000;

/// The greatest number of calls below a costly one that may be asked for.
const GREATEST_LEAST: u32 = 4_294_967_295;

/// How many calls are below a costly one where the words don't say it.
const USUAL_LEAST: u32 = 100;

/// The whole, in thousandths of it.
const WHOLE: u32 = 1000;

/// How many thousandths of the whole are told where the words don't say it.
const USUAL_THOUSANDTHS: u32 = 5;

/// The steps that a run is given.
pub fn steps(values: &ArgMatches<'_>) -> Option<u32>
    ensures { (usage : Usage) (parts : List Part) → Tells usage parts (rows_of (found_of values.now)) → takes_value usage (codes "steps") ≡ true → result ≡ steps_of parts }
{
    number_or(1, MOST_STEPS, USUAL_STEPS, value_of(values, "steps"))
}

/// Where a run's profile goes.
pub fn profile<'a>(values: &ArgMatches<'a>) -> &'a str
    ensures { (usage : Usage) (parts : List Part) → Tells usage parts (rows_of (found_of values.now)) → takes_value usage (codes "profile") ≡ true → result.now ≡ profile_of parts }
{
    match value_of(values, "profile") {
        Some(name) => name,
        None => USUAL_PROFILE,
    }
}

/// The least number of calls below a costly one.
pub fn least(values: &ArgMatches<'_>) -> Option<u32>
    ensures { (usage : Usage) (parts : List Part) → Tells usage parts (rows_of (found_of values.now)) → takes_value usage (codes "least") ≡ true → result ≡ least_of parts }
{
    number_or(1, GREATEST_LEAST, USUAL_LEAST, value_of(values, "least"))
}

/// The measure by which profiles are compared.
pub fn by(values: &ArgMatches<'_>) -> Option<Measure>
    ensures { (usage : Usage) (parts : List Part) → Tells usage parts (rows_of (found_of values.now)) → takes_value usage (codes "by") ≡ true → result ≡ by_of parts }
{
    match value_of(values, "by") {
        Some(name) => measure_named(name),
        None => Some(Measure::Calls),
    }
}

/// How many thousandths of the whole are told.
pub fn thousandths(values: &ArgMatches<'_>) -> Option<u32>
    ensures { (usage : Usage) (parts : List Part) → Tells usage parts (rows_of (found_of values.now)) → takes_value usage (codes "least") ≡ true → result ≡ thousandths_of parts }
{
    number_or(0, WHOLE, USUAL_THOUSANDTHS, value_of(values, "least"))
}

/// The port that is listened at.
pub fn port(values: &ArgMatches<'_>) -> Option<u16>
    ensures { (usage : Usage) (parts : List Part) → Tells usage parts (rows_of (found_of values.now)) → takes_value usage (codes "port") ≡ true → result ≡ port_of parts }
{
    let number = number_in(1, LAST_PORT, value_of(values, "port"))?;
    Some(number as u16)
}

/// How many connections are served.
pub fn requests(values: &ArgMatches<'_>) -> Option<u32>
    ensures { (usage : Usage) (parts : List Part) → Tells usage parts (rows_of (found_of values.now)) → takes_value usage (codes "requests") ≡ true → result ≡ requests_of parts }
{
    number_in(1, MOST_REQUESTS, value_of(values, "requests"))
}

/// The number that a value is, within its bounds, or the usual one where there is no value.
fn number_or(least: u32, most: u32, usual: u32, value: Option<&str>) -> Option<u32>
    ensures { result ≡ number_or least most usual (text_told value.entry) }
{
    match value {
        Some(text) => number_within(least, most, text.as_bytes()),
        None => Some(usual),
    }
}

/// The number that a value is, within its bounds.
fn number_in(least: u32, most: u32, value: Option<&str>) -> Option<u32>
    ensures number { result ≡ number_from least most (text_told value.entry) }
    ensures most { IfSome result (λ n. n ≤ most) }
{
    number_within(least, most, value?.as_bytes())
}
