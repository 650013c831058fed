// The lines of a feedback's text.
ghost use Rattle.std.specs.Prelude.{ℕ, List, ◌≡◌, ◌++◌, MatchOption, IfOk, IsTrue};
ghost use Rattle.md_static.specs.Names.{is_lower, is_word, are_words, is_name};
ghost use Rattle.md_feedback.specs.declared.pairs.Pair.{Pair};
ghost use Rattle.md_feedback.specs.Text.{IsOneLine, line};
ghost use Rattle.md_feedback.specs.Lines.{IsLeastLine, IsModuleLine, IsPairLine};

use crate::number::number_after;
use crate::pairs::Pair;
use md_base::{Name, NoMemory, ProcId, SiteId};
use std::alloc::Global;

/// The line at the front of a text, without its line feed, and what follows it; `None` exactly where no line feed is there.
pub(crate) fn cut_line(text: &[u8]) -> Option<(&[u8], &[u8])>
    ensures { MatchOption result (IsOneLine text.now)
        (λ cut. IsOneLine cut.0.now × (text.now ≡ line cut.0.now ++ cut.1.now)) }
{
    let end = text.iter().position(|byte| *byte == b'\n')?;
    Some((&text[..end], &text[end + 1..]))
}

/// The least share that a line gives; `None` exactly where it gives none.
pub(crate) fn least_of(words: &[u8]) -> Option<u64>
    ensures { MatchOption result ((k : ℕ) → IsLeastLine k words.now → ⊥) (λ k. IsLeastLine k words.now) }
{
    let (least, rest) = number_after(b"least ", words)?;
    if rest.is_empty() && least >= 1 && least <= 4_294_967_295 {
        Some(least)
    } else {
        None
    }
}

/// The module that a line names; `None` exactly where it names none.
pub(crate) fn module_of(alloc: Global, words: &[u8]) -> Result<Option<Name>, NoMemory>
    ensures { IfOk result (λ found. MatchOption found ((name : List ℕ) → IsModuleLine name words.now → ⊥) (λ name. IsModuleLine name words.now)) }
{
    match words.strip_prefix(b"module ".as_slice()) {
        Some(name) if is_name(name) => Name::from_bytes(alloc, name),
        _ => Ok(None),
    }
}

/// The pair of calls that a line gives; `None` exactly where it gives none.
pub(crate) fn pair_of(words: &[u8]) -> Option<Pair>
    ensures { MatchOption result ((pair : Pair) → IsPairLine pair words.now → ⊥) (λ pair. IsPairLine pair words.now) }
{
    let (proc, rest) = number_after(b"pair ", words)?;
    let (first, rest) = number_after(b" ", rest)?;
    let (second, rest) = number_after(b" ", rest)?;
    let (a, rest) = number_after(b" ", rest)?;
    let (b, rest) = number_after(b" ", rest)?;
    if rest.is_empty() && proc < MOST && first < second && second < MOST {
        Some(Pair {
            proc: ProcId::new(proc as u32),
            first: SiteId::new(first as u32),
            second: SiteId::new(second as u32),
            a,
            b,
        })
    } else {
        None
    }
}

/// Numbers of procedures and sites are below this.
const MOST: u64 = 4_294_967_295;

/// Whether these bytes are a name: a lower-case letter, and then letters, digits and `_`, at most 255 together.
fn is_name(bytes: &[u8]) -> bool
    ensures { result ≡ is_name bytes.now }
{
    match bytes {
        [] => false,
        [first, rest @ ..] => is_small(*first) && are_parts(rest) && rest.len() <= 254,
    }
}

/// A lower-case letter of ASCII.
fn is_small(byte: u8) -> bool
    ensures { result ≡ is_lower byte }
{
    byte >= b'a' && byte <= b'z'
}

/// A letter of ASCII, a digit or `_`.
fn is_part(byte: u8) -> bool
    ensures { result ≡ is_word byte }
{
    is_small(byte)
        || (byte >= b'A' && byte <= b'Z')
        || (byte >= b'0' && byte <= b'9')
        || byte == b'_'
}

/// Whether each byte is a letter of ASCII, a digit or `_`.
fn are_parts(bytes: &[u8]) -> bool
    ensures { result ≡ are_words bytes.now }
{
    let mut rest = bytes;
    while let [first, after @ ..] = rest {
        if !is_part(*first) {
            return false;
        }
        rest = after;
    }
    true
}
