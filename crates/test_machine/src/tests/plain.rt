// The machine against the plain program.

use super::came::{Came, by_machine, by_plain};
use super::checked;
use super::examples::EXAMPLES;
use super::programs::TABLE;
use md_det::Checked;
use md_machine::End;
use std::alloc::Global;
use std::process::Abort;
use std::test::Fail;

/// More than any of these programs weighs.
const ENOUGH: u32 = 20_000;

/// Both come to the same within this budget.
fn agrees(alloc: Global, checked: &Checked, budget: u32) -> Result<bool, Fail> {
    let (plain, _) = by_plain(alloc, checked, budget)?;
    let machine = by_machine(alloc, checked, budget)?;
    Ok(plain == machine)
}

/// Both come to the same within some small budgets, within those next to what the program weighs, and within this one;
/// answers what the plain program comes to then.
fn agrees_within(
    rt: &(impl Abort + AllocGlobal),
    checked: &Checked,
    most: u32,
) -> Result<Came, Fail> {
    let (plain, weight) = by_plain(rt.alloc(), checked, most)?;
    let weight = weight.min(4_000_000_000) as u32;
    agrees_below(rt, checked, weight.min(70))?;
    agrees_below_by_few(rt, checked, weight)?;
    assert!(rt; agrees(rt.alloc(), checked, most)?);
    Ok(plain)
}

/// Both come to the same within each budget below this one.
fn agrees_below(rt: &(impl Abort + AllocGlobal), checked: &Checked, most: u32) -> Result<(), Fail> {
    for budget in 0..most {
        assert!(rt; agrees(rt.alloc(), checked, budget)?, "budget {budget}");
    }
    Ok(())
}

/// The same of this budget and the two below it.
fn agrees_below_by_few(
    rt: &(impl Abort + AllocGlobal),
    checked: &Checked,
    weight: u32,
) -> Result<(), Fail> {
    for less in 0..3u32 {
        let budget = weight.saturating_sub(less);
        assert!(rt; agrees(rt.alloc(), checked, budget)?, "budget {budget}");
    }
    Ok(())
}

/// What the plain program comes to within this budget on the program of a text, on which both agree.
pub fn agreed(rt: &(impl Abort + AllocGlobal), text: &[u8], most: u32) -> Result<Came, Fail> {
    let checked = checked(rt.alloc(), text)?;
    agrees_within(rt, &checked, most)
}

/// Both come to this output and this end within this budget.
fn agrees_on(
    rt: &(impl Abort + AllocGlobal),
    text: &str,
    most: u32,
    output: &str,
    end: End,
) -> Result<(), Fail> {
    let plain = agreed(rt, text.as_bytes(), most)?;
    assert_eq!(rt; plain.end, end, "{text}");
    assert_eq!(rt; plain.output.as_slice(), output.as_bytes(), "{text}");
    Ok(())
}

#[test]
fn the_machine_agrees_with_the_plain_program(rt: HostRuntime) -> Result<(), Fail> {
    for (text, output, end) in TABLE {
        agrees_on(&rt, text, ENOUGH, output, end)?;
    }
    Ok(())
}

#[test]
fn examples_run_as_the_plain_program_runs_them(rt: HostRuntime) -> Result<(), Fail> {
    for (text, output, end) in EXAMPLES {
        agrees_on(&rt, text, 2_000, output, end)?;
    }
    Ok(())
}
