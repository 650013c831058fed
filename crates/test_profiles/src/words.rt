// What words ask for: commands and queries.
use crate::lines::{add_debug, add_line, add_shown};
use md_commands::command_of;
use md_query::{QueryFault, read_query};
use std::alloc::{AllocError, Global};
use test_cases::Case;

/// The command that the words of each line `words` are, one space between two of them.
pub fn commands(alloc: Global, case: &Case, out: &mut String) -> Result<(), AllocError> {
    for field in case
        .fields()
        .iter()
        .filter(|field| field.key.as_str() == "words")
    {
        let words = given(alloc, field.text.as_str())?;
        add_command(alloc, words.as_slice(), out)?;
    }
    Ok(())
}

/// The words of a line, as the program gets them.
fn given(alloc: Global, line: &str) -> Result<Vec<String>, AllocError> {
    let mut words = Vec::new(alloc);
    for word in line.split(' ') {
        words.push(String::from_str(alloc, word)?)?;
    }
    Ok(words)
}

fn add_command(alloc: Global, words: &[String], out: &mut String) -> Result<(), AllocError> {
    match command_of(alloc, words) {
        Ok(Some(command)) => add_debug(alloc, &command, out),
        Ok(None) => add_line(out, "none"),
        Err(fault) => add_shown(alloc, &fault, out),
    }
}

/// What each line `query` asks for: a path, a space and pairs.
pub fn queries(alloc: Global, case: &Case, out: &mut String) -> Result<(), AllocError> {
    for field in case
        .fields()
        .iter()
        .filter(|field| field.key.as_str() == "query")
    {
        add_query(alloc, field.text.as_str(), out)?;
    }
    Ok(())
}

fn add_query(alloc: Global, text: &str, out: &mut String) -> Result<(), AllocError> {
    let (path, pairs) = path_and_pairs(text);
    match read_query(alloc, path.as_bytes(), pairs.as_bytes()) {
        Ok(query) => add_debug(alloc, &query, out),
        Err(QueryFault::BadQuery) => add_line(out, "none"),
        Err(QueryFault::NoMemory) => add_line(out, "want of memory"),
    }
}

/// What stands on the two sides of the first space.
pub fn path_and_pairs(text: &str) -> (&str, &str) {
    match text.split_once(' ') {
        Some(sides) => sides,
        None => (text, ""),
    }
}
