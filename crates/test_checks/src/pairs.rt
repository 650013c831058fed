// Determinisms as pairs.
use crate::fault::Fault;
use crate::words::halves;
use md_det::Pair;
use md_hlds::Det;
use md_inst::same_det;
use test_cases::{Case, Field};

/// Adds the words of a determinism, its pair and how many solutions that allows, and the determinism of the pair.
pub fn determinism(case: &Case, found: &mut String) -> Result<(), Fault> {
    let det = det_of(case.text("word"))?;
    let word = det.word();
    let pair = Pair::of(det);
    let number = pair.bound.number();
    let back = pair.det();
    Ok(writeln!(found, "{det:?} {word} {det}: {pair:?} {number} {back:?}")?)
}

/// Adds what is made of the determinisms in each line of the case.
pub fn pairs(case: &Case, found: &mut String) -> Result<(), Fault> {
    for field in case.fields() {
        made(field, found)?;
    }
    Ok(())
}

/// Adds what a line makes of its one or two determinisms.
fn made(field: &Field, found: &mut String) -> Result<(), Fault> {
    let (first, second) = halves(field.text.as_str());
    match field.key.as_str() {
        "then" => tell(pair_of(first)?.then(pair_of(second)?), found),
        "or-else" => tell(pair_of(first)?.or_else(pair_of(second)?), found),
        "or" => tell(pair_of(first)?.or(pair_of(second)?), found),
        "cut" => {
            let pair = pair_of(first)?;
            let bound = pair.bound.cut();
            tell(pair.cut(), found)?;
            Ok(writeln!(found, "{bound:?}")?)
        }
        "allows" => {
            let allowed = pair_of(first)?.allows(pair_of(second)?);
            Ok(writeln!(found, "{allowed}")?)
        }
        "same" => {
            let same = same_det(det_of(first)?, det_of(second)?);
            Ok(writeln!(found, "{same}")?)
        }
        _ => Ok(()),
    }
}

/// Adds a pair.
fn tell(pair: Pair, found: &mut String) -> Result<(), Fault> {
    Ok(writeln!(found, "{pair:?}")?)
}

/// The pair of the determinism of this word.
fn pair_of(word: &str) -> Result<Pair, Fault> {
    match det_of(word)? {
        Det::Det => Ok(Pair::SURE),
        Det::Semidet => Ok(Pair::UNSURE),
        Det::Failure => Ok(Pair::FAILURE),
        det => Ok(Pair::of(det)),
    }
}

/// The determinism of this word.
fn det_of(word: &str) -> Result<Det, Fault> {
    for det in [
        Det::Det,
        Det::Semidet,
        Det::Multi,
        Det::Nondet,
        Det::Failure,
    ] {
        if det.word() == word {
            return Ok(det);
        }
    }
    Err(Fault::Unknown)
}
