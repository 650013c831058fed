// The values of pairs: texts, numbers and measures.
ghost use Rattle.std.specs.Prelude.{◌≡◌, ℕ, true, is_some, IfOk, IfErr, IsOk};
ghost use Rattle.std.specs.List.{list_all};
ghost use Rattle.std.specs.Char.{is_ascii_digit};
ghost use Rattle.md_query.specs.Pair.{ArePlain, value_of, number_in, number_within, within, is_number, measure_in, measure_named, measure_asked, count_asked, sort_asked, sort_named, least_asked};
ghost use Rattle.md_query.specs.Told.{text_told};

use form_urlencoded::{decode, raw_pairs};
use md_base::{Measure, NoMemory, Text};
use md_people::Sort;
use md_token::number_of;
use std::alloc::Global;
use std::borrow::CowStr;

/// The value of the first pair with this name. Memory is asked for only where something is to be decoded.
pub(crate) fn value_of<'a>(
    alloc: Global,
    name: &str,
    pairs: &'a [u8],
) -> Result<Option<CowStr<'a>>, NoMemory>
    ensures value { IfOk result (λ found. text_told found ≡ value_of name.now pairs.now) }
    ensures plain { ArePlain pairs.now → IsOk result }
{
    for (key, value) in raw_pairs(pairs) {
        let key = decode(alloc, key)?;
        if key.as_str() == name {
            let value = decode(alloc, value)?;
            return Ok(Some(value));
        }
    }
    Ok(None)
}

/// A copy of the value of the first pair with this name.
pub(crate) fn text_in(alloc: Global, name: &str, pairs: &[u8]) -> Result<Option<Text>, NoMemory>
    ensures text { IfOk result (λ found. found ≡ value_of name.now pairs.now) }
    ensures plain { ArePlain pairs.now → IfErr result (λ _. is_some (value_of name.now pairs.now) ≡ true) }
{
    match value_of(alloc, name, pairs)? {
        Some(text) => Ok(Some(Text::from_bytes(alloc, text.as_bytes())?)),
        None => Ok(None),
    }
}

/// The number of the first pair with this name, where it is one from `least` to `most`.
pub(crate) fn number_in(
    alloc: Global,
    name: &str,
    least: u32,
    most: u32,
    pairs: &[u8],
) -> Result<Option<u32>, NoMemory>
    ensures number { IfOk result (λ found. found ≡ number_in name.now least most pairs.now) }
    ensures plain { ArePlain pairs.now → IsOk result }
{
    match value_of(alloc, name, pairs)? {
        Some(text) => Ok(number_within(least, most, text.as_bytes())),
        None => Ok(None),
    }
}

/// The number that a text is, where it is one from `least` to `most`.
pub fn number_within(least: u32, most: u32, text: &[u8]) -> Option<u32>
    ensures { result ≡ number_within least most text.now }
{
    if !is_number(text) {
        return None;
    }
    match number_of(text) {
        Some(number) => within(least, most, number),
        None => None,
    }
}

/// The measure that the first pair `by` names.
pub(crate) fn measure_in(alloc: Global, pairs: &[u8]) -> Result<Option<Measure>, NoMemory>
    ensures measure { IfOk result (λ found. found ≡ measure_in pairs.now) }
    ensures plain { ArePlain pairs.now → IsOk result }
{
    match value_of(alloc, "by", pairs)? {
        Some(name) => Ok(measure_named(name.as_str())),
        None => Ok(None),
    }
}

/// The measure that the first pair `by` names, or calls where there is no such pair.
pub(crate) fn measure_asked(alloc: Global, pairs: &[u8]) -> Result<Option<Measure>, NoMemory>
    ensures measure { IfOk result (λ found. found ≡ measure_asked pairs.now) }
    ensures plain { ArePlain pairs.now → IsOk result }
{
    match value_of(alloc, "by", pairs)? {
        Some(name) => Ok(measure_named(name.as_str())),
        None => Ok(Some(Measure::Calls)),
    }
}

/// How many rows the first pair `n` asks for, or 30 where there is no such pair.
pub(crate) fn count_asked(alloc: Global, pairs: &[u8]) -> Result<Option<u32>, NoMemory>
    ensures count { IfOk result (λ found. found ≡ count_asked pairs.now) }
    ensures plain { ArePlain pairs.now → IsOk result }
{
    match value_of(alloc, "n", pairs)? {
        Some(text) => Ok(number_within(1, 1000, text.as_bytes())),
        None => Ok(Some(30)),
    }
}

/// How many thousandths of the whole are enough by the first pair `least`, or the default where there is no such pair.
pub(crate) fn least_asked(
    alloc: Global,
    default: u32,
    pairs: &[u8],
) -> Result<Option<u32>, NoMemory>
    ensures least { IfOk result (λ found. found ≡ least_asked default pairs.now) }
    ensures plain { ArePlain pairs.now → IsOk result }
{
    match value_of(alloc, "least", pairs)? {
        Some(text) => Ok(number_within(0, 1000, text.as_bytes())),
        None => Ok(Some(default)),
    }
}

/// What the first pair `sort` names, or totals where there is no such pair.
pub(crate) fn sort_asked(alloc: Global, pairs: &[u8]) -> Result<Option<Sort>, NoMemory>
    ensures sort { IfOk result (λ found. found ≡ sort_asked pairs.now) }
    ensures plain { ArePlain pairs.now → IsOk result }
{
    match value_of(alloc, "sort", pairs)? {
        Some(name) => Ok(sort_named(name.as_str())),
        None => Ok(Some(Sort::Total)),
    }
}

/// A number, where it is from `least` to `most`.
fn within(least: u32, most: u32, number: u64) -> Option<u32>
    ensures { result ≡ within least most number }
{
    if u64::from(least) <= number && number <= u64::from(most) {
        Some(number as u32)
    } else {
        None
    }
}

/// Whether a text is one or more digits.
fn is_number(text: &[u8]) -> bool
    ensures { result ≡ is_number text.now }
{
    !text.is_empty() && are_digits(text)
}

/// Whether all of these bytes are digits.
fn are_digits(bytes: &[u8]) -> bool
    ensures { result ≡ list_all is_ascii_digit bytes.now }
{
    bytes.iter().all(|byte| byte.is_ascii_digit())
}

/// The measure of this name, if it is one's.
pub fn measure_named(name: &str) -> Option<Measure>
    ensures { result ≡ measure_named name.now }
{
    if name == "calls" {
        Some(Measure::Calls)
    } else if name == "exits" {
        Some(Measure::Exits)
    } else if name == "fails" {
        Some(Measure::Fails)
    } else if name == "redos" {
        Some(Measure::Redos)
    } else if name == "allocs" {
        Some(Measure::Allocs)
    } else if name == "words" {
        Some(Measure::Words)
    } else if name == "excps" {
        Some(Measure::Excps)
    } else {
        None
    }
}

/// What is sorted by, by its name.
fn sort_named(name: &str) -> Option<Sort>
    ensures { result ≡ sort_named name.now }
{
    if name == "total" {
        Some(Sort::Total)
    } else if name == "own" {
        Some(Sort::Own)
    } else {
        None
    }
}
