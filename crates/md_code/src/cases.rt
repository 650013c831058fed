// The details of switches.
ghost use Rattle.std.specs.Prelude.{◌≡◌, ◌-◌, ◌++◌, [], ◌∷◌, suc, slice_set, IfOk, OnOk};
ghost use Rattle.md_hlds.specs.Hlds.{hlds_of};
ghost use Rattle.md_hlds.specs.HldsGoal.{goals_of, gathered, goals_among};
ghost use Rattle.md_switch.specs.Keys.{key_of_code, keys_told};
ghost use Rattle.md_det.specs.Findings.{program_findings, switch_at};
ghost use Rattle.md_code.specs.Facts.{Stand};
ghost use Rattle.md_code.specs.Blocks.{shape_keys};
ghost use Rattle.md_code.specs.Details as spec;

use crate::detail::{NO_CALL, plain_detail};
use crate::number::{head_at, next_goal, plus, second_at};
use crate::switch::{first_functor, key_functor, least_functor};
use crate::tables::Tables;
use md_base::NoMemory;
use md_flat::{Case, Detail};
use md_heap::Value;
use md_hlds::Goal;
use md_switch::{Key, shape_of};
use std::alloc::Global;

/// The detail of the disjunction of this number.
pub fn switch_detail(tables: &Tables, number: u32, arms: &[Goal]) -> Result<Detail, NoMemory>
    ensures { IfOk result (λ detail. Stand (hlds_of tables.now.source.checked.now) (suc number) (goals_among (gathered (goals_of arms.now)))
        → spec.detail_told detail ≡ spec.switch_detail (hlds_of tables.now.source.checked.now) number (gathered (goals_of arms.now)) (switch_at (program_findings (hlds_of tables.now.source.checked.now)) number)) }
{
    match tables.source.checked.switch(number) {
        None => Ok(plain_detail(tables.alloc)),
        Some(_) => shape_detail(tables, number, arms),
    }
}

/// The detail of a switch of this number.
fn shape_detail(tables: &Tables, number: u32, arms: &[Goal]) -> Result<Detail, NoMemory>
    ensures { IfOk result (λ detail. Stand (hlds_of tables.now.source.checked.now) (suc number) (goals_among (gathered (goals_of arms.now)))
        → spec.detail_told detail ≡ spec.keyed_detail (hlds_of tables.now.source.checked.now) number (gathered (goals_of arms.now)) (shape_keys (hlds_of tables.now.source.checked.now) (gathered (goals_of arms.now)))) }
{
    let first = next_goal(number)?;
    match shape_of(tables.alloc, tables.source.checked.moded(), arms, first)? {
        None => Ok(plain_detail(tables.alloc)),
        Some(shape) => keyed_detail(tables, number, arms, shape.keys.as_slice()),
    }
}

/// The detail of a switch of this number with these keys.
fn keyed_detail(
    tables: &Tables,
    number: u32,
    arms: &[Goal],
    keys: &[Key],
) -> Result<Detail, NoMemory>
    ensures { IfOk result (λ detail. Stand (hlds_of tables.now.source.checked.now) (suc number) (goals_among (gathered (goals_of arms.now)))
        → spec.detail_told detail ≡ spec.keyed_detail (hlds_of tables.now.source.checked.now) number (gathered (goals_of arms.now)) (keys_told keys.now)) }
{
    let alloc = tables.alloc;
    let first = first_functor(tables, keys);
    let otherwise = second_at(number)?;
    let targets = targets_of(tables, number, arms, keys)?;
    let cases = cases_of(tables, number, arms, keys)?;
    Ok(Detail {
        constant: Value::Int(0),
        inputs: Vec::new(alloc),
        outputs: Vec::new(alloc),
        first,
        otherwise,
        targets,
        cases,
        call: NO_CALL,
    })
}

/// The targets of a switch by functors.
fn targets_of(
    tables: &Tables,
    number: u32,
    arms: &[Goal],
    keys: &[Key],
) -> Result<Vec<u32>, NoMemory>
    ensures { IfOk result (λ targets. Stand (hlds_of tables.now.source.checked.now) (suc number) (goals_among (gathered (goals_of arms.now)))
        → targets.items ≡ spec.targets_of (hlds_of tables.now.source.checked.now) number (keys_told keys.now) (gathered (goals_of arms.now))) }
{
    match keys {
        [Key::Functor(name, arity), rest @ ..] => {
            let functor = tables.functor(*name, *arity);
            let low = least_functor(tables, functor, rest);
            let high = greatest_functor(tables, functor, rest);
            let mut targets = repeated(tables.alloc, second_at(number)?, low, high)?;
            add_targets(tables, &mut targets, low, number, arms, keys)?;
            Ok(targets)
        }
        [Key::Int(_) | Key::Text(_), ..] | [] => Ok(Vec::new(tables.alloc)),
    }
}

/// The greatest of a functor and those of these keys.
fn greatest_functor(tables: &Tables, high: u32, keys: &[Key]) -> u32
    ensures { result ≡ spec.greatest_functor (hlds_of tables.now.source.checked.now) high (keys_told keys.now) }
{
    let mut high = high;
    for key in keys {
        high = greatest(high, key_functor(tables, key));
    }
    high
}

/// The greater of two numbers.
fn greatest(first: u32, second: u32) -> u32
    ensures { result ≡ spec.greatest first second }
{
    if first < second { second } else { first }
}

/// A target for each functor from one to another.
fn repeated(alloc: Global, target: u32, low: u32, high: u32) -> Result<Vec<u32>, NoMemory>
    ensures { IfOk result (λ targets. targets.items ≡ spec.repeated (suc (high - low)) target) }
{
    let mut targets = Vec::new(alloc);
    for _place in 0..high.saturating_sub(low) {
        targets.push(target)?;
    }
    targets.push(target)?;
    Ok(targets)
}

/// Puts the arms of a switch of this number in the places of their functors.
fn add_targets(
    tables: &Tables,
    targets: &mut Vec<u32>,
    low: u32,
    number: u32,
    arms: &[Goal],
    keys: &[Key],
) -> Result<(), NoMemory>
    ensures { OnOk result (Stand (hlds_of tables.now.source.checked.now) (suc number) (goals_among (gathered (goals_of arms.now)))
        → targets.new.items ≡ spec.with_targets (hlds_of tables.now.source.checked.now) low targets.old.items (keys_told keys.now) (suc number) (gathered (goals_of arms.now))) }
{
    let mut part = plus(number, 1)?;
    for place in 0..keys.len().min(arms.len()) {
        let functor = key_functor(tables, &keys[place]).saturating_sub(low);
        set_target(targets, functor, head_at(part)?);
        part = tables.after(part)?;
    }
    Ok(())
}

/// Puts a target in a place, if there is one.
fn set_target(targets: &mut Vec<u32>, place: u32, target: u32)
    ensures { targets.new.items ≡ slice_set targets.old.items place target }
{
    if (place as usize) < targets.len() {
        targets[place as usize] = target;
    }
}

/// The cases of a switch by integers or literals.
fn cases_of(
    tables: &Tables,
    number: u32,
    arms: &[Goal],
    keys: &[Key],
) -> Result<Vec<Case>, NoMemory>
    ensures { IfOk result (λ cases. Stand (hlds_of tables.now.source.checked.now) (suc number) (goals_among (gathered (goals_of arms.now)))
        → cases.items ≡ spec.cases_of (hlds_of tables.now.source.checked.now) (keys_told keys.now) (suc number) (gathered (goals_of arms.now))) }
{
    let mut cases = Vec::new(tables.alloc);
    let mut part = plus(number, 1)?;
    for place in 0..keys.len().min(arms.len()) {
        add_case(tables, &mut cases, &keys[place], head_at(part)?)?;
        part = tables.after(part)?;
    }
    Ok(cases)
}

/// Adds the case of a key.
fn add_case(tables: &Tables, cases: &mut Vec<Case>, key: &Key, target: u32) -> Result<(), NoMemory>
    ensures { OnOk result (cases.new.items ≡ cases.old.items ++ spec.key_cases (hlds_of tables.now.source.checked.now) (key_of_code key.now) target) }
{
    match key {
        Key::Int(number) => {
            let key = Value::Int(*number);
            cases.push(Case { key, target })?;
        }
        Key::Text(bytes) => {
            let key = Value::Lit(tables.literal(*bytes));
            cases.push(Case { key, target })?;
        }
        Key::Functor(..) => {}
    }
    Ok(())
}
