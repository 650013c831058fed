// What numbers look like in a cell.
ghost use Rattle.std.specs.Prelude.{◌≡◌, ◌<◌, ◌≤◌, ◌^◌, ◌++◌, codes, decimal, length, OnOk};
ghost use Rattle.md_table.specs.Cells.{change_words, indent_of, ratio_words, share_of, share_words, tenths_words};

use crate::add::{add, add_number, add_spaces};
use std::alloc::AllocError;

/// From this level on the indentation grows no more.
const DEEPEST: u32 = 100;

/// Adds the share of a part in the whole: how many hundredths, with one digit behind the point, rounded down. It is `0.0` where
/// the whole is 0.
pub fn add_share(out: &mut Vec<u8>, part: u128, whole: u64) -> Result<(), AllocError>
    requires { part < 2 ^ 118 }
    ensures added { OnOk result (out.new.items ≡ out.old.items ++ share_words part whole) }
    ensures grown { length out.old.items ≤ length out.new.items }
{
    add_tenths(out, share_of(part, whole))
}

/// Adds how much of a total there is for each of so many, with one digit behind the point, rounded down. It is `-` where there
/// are none.
pub(crate) fn add_ratio(out: &mut Vec<u8>, total: u64, count: u64) -> Result<(), AllocError>
    ensures added { OnOk result (out.new.items ≡ out.old.items ++ ratio_words total count) }
    ensures grown { length out.old.items ≤ length out.new.items }
{
    if count == 0 {
        add(out, b"-")
    } else {
        add_tenths(out, 10 * total as u128 / count as u128)
    }
}

/// Adds how much more is new than old, with its sign.
pub(crate) fn add_change(out: &mut Vec<u8>, old: u64, new: u64) -> Result<(), AllocError>
    ensures added { OnOk result (out.new.items ≡ out.old.items ++ change_words old new) }
    ensures grown { length out.old.items ≤ length out.new.items }
{
    if new < old {
        add(out, b"-")?;
        add_number(out, (old - new) as u128)
    } else {
        add(out, b"+")?;
        add_number(out, (new - old) as u128)
    }
}

/// Adds the spaces before words of this level.
pub fn add_indent(out: &mut Vec<u8>, level: u32) -> Result<(), AllocError>
    ensures { OnOk result (out.new.items ≡ out.old.items ++ indent_of level) }
{
    add_spaces(out, 2 * level.min(DEEPEST) as usize)
}

fn share_of(part: u128, whole: u64) -> u128
    requires { part < 2 ^ 118 }
    ensures { result ≡ share_of part whole }
{
    if whole == 0 {
        0
    } else {
        1000 * part / whole as u128
    }
}

fn add_tenths(out: &mut Vec<u8>, tenths: u128) -> Result<(), AllocError>
    ensures added { OnOk result (out.new.items ≡ out.old.items ++ tenths_words tenths) }
    ensures grown { length out.old.items ≤ length out.new.items }
{
    add_number(out, tenths / 10)?;
    out.push(b'.')?;
    out.push(b'0' + (tenths % 10) as u8)?;
    Ok(())
}
