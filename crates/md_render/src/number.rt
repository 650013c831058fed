// Words, and numbers in decimal.
ghost use Rattle.std.specs.Prelude.{◌≡◌, ◌++◌, decimal, OnOk};
ghost use Rattle.md_render.specs.Words.{more_words, excps_words, counts_words, own_words, both_words};

use itoa::Buffer;
use md_cost::Sums;
use std::alloc::AllocError;

/// Adds words.
pub(crate) fn add(out: &mut Vec<u8>, words: &[u8]) -> Result<(), AllocError>
    ensures { OnOk result (out.new.items ≡ out.old.items ++ words.now) }
{
    out.extend_from_slice(words)
}

/// Adds words, and a number behind them.
pub(crate) fn add_number(out: &mut Vec<u8>, words: &[u8], number: u64) -> Result<(), AllocError>
    ensures { OnOk result (out.new.items ≡ out.old.items ++ (words.now ++ decimal number)) }
{
    let mut digits = Buffer::new();
    add(out, words)?;
    add(out, digits.format(number).as_bytes())
}

/// Adds the own counts behind a row's words.
pub(crate) fn add_own(out: &mut Vec<u8>, own: Sums) -> Result<(), AllocError>
    ensures { OnOk result (out.new.items ≡ out.old.items ++ own_words own) }
{
    add(out, b" own ")?;
    add_counts(out, own)
}

/// Adds the own counts and the total behind a row's words.
pub(crate) fn add_both(out: &mut Vec<u8>, own: Sums, total: Sums) -> Result<(), AllocError>
    ensures { OnOk result (out.new.items ≡ out.old.items ++ both_words own total) }
{
    add_own(out, own)?;
    add(out, b" total ")?;
    add_counts(out, total)
}

/// Adds six counts, and the seventh where it isn't 0.
pub(crate) fn add_counts(out: &mut Vec<u8>, sums: Sums) -> Result<(), AllocError>
    ensures { OnOk result (out.new.items ≡ out.old.items ++ counts_words sums) }
{
    add_number(out, b"", sums.calls)?;
    add_number(out, b" ", sums.exits)?;
    add_number(out, b" ", sums.fails)?;
    add_number(out, b" ", sums.redos)?;
    add_number(out, b" ", sums.allocs)?;
    add_number(out, b" ", sums.words)?;
    add_excps(out, sums.excps)
}

/// Exceptions are told where there are any.
fn add_excps(out: &mut Vec<u8>, excps: u64) -> Result<(), AllocError>
    ensures { OnOk result (out.new.items ≡ out.old.items ++ excps_words excps) }
{
    if excps == 0 {
        return Ok(());
    }
    add_number(out, b" excps ", excps)
}

/// Adds how many more there are than are shown, where there are any.
pub(crate) fn add_more(out: &mut Vec<u8>, more: u128) -> Result<(), AllocError>
    ensures { OnOk result (out.new.items ≡ out.old.items ++ more_words more) }
{
    if more == 0 {
        return Ok(());
    }
    let mut digits = Buffer::new();
    add(out, b"<p>")?;
    add(out, digits.format(more).as_bytes())?;
    add(out, b" more</p>\n")
}
