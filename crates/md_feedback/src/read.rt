// A feedback's text read back.
ghost use Rattle.std.specs.Prelude.{ℕ, ◌≡◌, ◌<◌, ◌++◌, [], ◌∷◌, length, IfOk, IfErr, MatchOption, MatchResult};
ghost use Rattle.md_feedback.specs.declared.pairs.Feedback.{Feedback};
ghost use Rattle.md_feedback.specs.Text.{IsFaultAt, IsValidPair, AreValidPairs, Rise, Spells, line, title_words, pair_words};
ghost use Rattle.md_feedback.specs.Lines.{IfLine, HasNo, IsTitle, GivesLeast, GivesModule, GivesPairAfter, IsLeastLine, IsModuleLine, IsPairFault, pair_lines, BeginsWithLeast, BeginsWithModule};

use crate::fault::FeedFault;
use crate::line::{cut_line, least_of, module_of, pair_of};
use crate::pairs::{Feedback, Pair, Pairs};
use md_base::Name;
use std::alloc::Global;

/// The feedback that a text spells. It takes time and memory linear in the text.
///
/// # Errors
///
/// `Line` exactly where the text spells none, with its first line that is at fault; `NoMemory` only where memory was refused.
pub fn read_feedback(alloc: Global, text: &[u8]) -> Result<Feedback, FeedFault>
    requires { length text.now < 4294967295 }
    ensures feedback { IfOk result (λ f. Spells text.now f) }
    ensures line { IfErr result (λ fault. IfLine fault (IsFaultAt text.now)) }
    ensures none { IfErr result (λ fault. IfLine fault (λ number. (f : Feedback) → Spells text.now f → ⊥)) }
{
    let text = read_title(text)?;
    let (least, text) = read_least(text)?;
    let (module, text) = read_module(alloc, text)?;
    let pairs = read_pairs(alloc, text)?;
    Ok(Feedback {
        module,
        least,
        pairs,
    })
}

/// Reads the line with the form of the text: what follows it.
fn read_title(text: &[u8]) -> Result<&[u8], FeedFault>
    ensures { MatchResult result (λ after. text.now ≡ line title_words ++ after.now)
        (λ fault. IfLine fault (λ number. (number ≡ 1) × HasNo IsTitle text.now)) }
{
    let Some((words, after)) = cut_line(text) else {
        return Err(FeedFault::Line(1));
    };
    if words == b"feedback 1".as_slice() {
        Ok(after)
    } else {
        Err(FeedFault::Line(1))
    }
}

/// Reads the line with the least share, and gives what follows it.
fn read_least(text: &[u8]) -> Result<(u64, &[u8]), FeedFault>
    ensures { MatchResult result (λ read. BeginsWithLeast read.0 text.now read.1.now)
        (λ fault. IfLine fault (λ number. (number ≡ 2) × HasNo GivesLeast text.now)) }
{
    let Some((words, after)) = cut_line(text) else {
        return Err(FeedFault::Line(2));
    };
    match least_of(words) {
        Some(least) => Ok((least, after)),
        None => Err(FeedFault::Line(2)),
    }
}

/// Reads the line with the module, and gives what follows it.
fn read_module(alloc: Global, text: &[u8]) -> Result<(Name, &[u8]), FeedFault>
    ensures { MatchResult result (λ read. BeginsWithModule read.0 text.now read.1.now)
        (λ fault. IfLine fault (λ number. (number ≡ 3) × HasNo GivesModule text.now)) }
{
    let Some((words, after)) = cut_line(text) else {
        return Err(FeedFault::Line(3));
    };
    match module_of(alloc, words)? {
        Some(module) => Ok((module, after)),
        None => Err(FeedFault::Line(3)),
    }
}

/// Reads the lines of the pairs, the first of which is the fourth of the text.
fn read_pairs(alloc: Global, text: &[u8]) -> Result<Pairs, FeedFault>
    requires { length text.now < 4294967291 }
    ensures { MatchResult result (λ pairs. AreValidPairs pairs × (text.now ≡ pair_lines pairs))
        (λ fault. IfLine fault (IsPairFault text.now)) }
{
    let mut pairs = Pairs::new(alloc);
    let mut rest = text;
    while !rest.is_empty() {
        let Some((pair, after)) = read_pair(&pairs, rest) else {
            return Err(FeedFault::Line(pairs.len() as u32 + 4));
        };
        pairs.push(pair)?;
        rest = after;
    }
    Ok(pairs)
}

/// Reads the line of a pair that may follow these, and gives what follows it; `None` exactly where none stands there.
fn read_pair<'a>(pairs: &Pairs, text: &'a [u8]) -> Option<(Pair, &'a [u8])>
    requires { Rise pairs.now }
    ensures { MatchOption result (HasNo (GivesPairAfter pairs.now) text.now)
        (λ read. IsValidPair read.0 × Rise (pairs.now ++ read.0 ∷ []) × (text.now ≡ line (pair_words read.0) ++ read.1.now)) }
{
    let (words, after) = cut_line(text)?;
    let pair = pair_of(words)?;
    if pairs.may_be_followed_by(&pair) {
        Some((pair, after))
    } else {
        None
    }
}
