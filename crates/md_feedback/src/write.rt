// A feedback as a text.
ghost use Rattle.std.specs.Prelude.{◌≡◌, ◌++◌, decimal, IfOk, OnOk};
ghost use Rattle.md_feedback.specs.Lines.{head_text};
ghost use Rattle.md_feedback.specs.Text.{feedback_text, line, pair_words};

use crate::pairs::{Feedback, Pair};
use itoa::Buffer;
use md_base::NoMemory;
use std::alloc::{AllocError, Global};

/// The text of a feedback: a line with its form, a line each with the least share and the module, and a line for each
/// pair. It takes time and memory linear in the text.
pub fn write_feedback(alloc: Global, f: &Feedback) -> Result<Vec<u8>, NoMemory>
    ensures { IfOk result (λ text. text.items ≡ feedback_text f.now) }
{
    let mut text = Vec::new(alloc);
    add_head(&mut text, f)?;
    for pair in f.pairs.as_slice() {
        add_pair(&mut text, pair)?;
    }
    Ok(text)
}

/// Adds the three lines before those of the pairs.
fn add_head(text: &mut Vec<u8>, f: &Feedback) -> Result<(), AllocError>
    ensures { OnOk result (text.new.items ≡ text.old.items ++ head_text f.now) }
{
    text.extend_from_slice(b"feedback 1\n")?;
    add_number(text, b"least ", f.least)?;
    text.extend_from_slice(b"\nmodule ")?;
    text.extend_from_slice(f.module.as_bytes())?;
    text.extend_from_slice(b"\n")
}

/// Adds the line of a pair.
fn add_pair(text: &mut Vec<u8>, pair: &Pair) -> Result<(), AllocError>
    ensures { OnOk result (text.new.items ≡ text.old.items ++ line (pair_words pair.now)) }
{
    add_number(text, b"pair ", pair.proc.number().into())?;
    add_number(text, b" ", pair.first.number().into())?;
    add_number(text, b" ", pair.second.number().into())?;
    add_number(text, b" ", pair.a)?;
    add_number(text, b" ", pair.b)?;
    text.extend_from_slice(b"\n")
}

/// Adds words, and a number behind them.
fn add_number(text: &mut Vec<u8>, words: &[u8], number: u64) -> Result<(), AllocError>
    ensures { OnOk result (text.new.items ≡ text.old.items ++ (words.now ++ decimal number)) }
{
    let mut digits = Buffer::new();
    text.extend_from_slice(words)?;
    text.extend_from_slice(digits.format(number).as_bytes())
}
