// The names that have a row.
ghost use Rattle.std.specs.Prelude.{◌≡◌, ◌<◌, ◌^◌, ◌++◌, ◌∷◌, [], All, IfOk, OnOk, length, map};
ghost use Rattle.std.specs.List.{filter};
ghost use Rattle.md_cost.specs.FileView.{IsFileView};
ghost use Rattle.md_cost.specs.View.{View};
ghost use Rattle.md_people.specs.Compare.{told_names};
ghost use Rattle.md_people.specs.Counts.{whole_of};
ghost use Rattle.md_compare.specs.Named.{AreCostsOf};
ghost use Rattle.md_compare.specs.Told.{IsToldBy, IsToldOf, is_new_in, is_passed, is_told_in, name_in, names_in};

use crate::cost::{Cost, difference_of};
use crate::named::{cost_at, costs_by_name};
use md_base::{Measure, NoMemory};
use md_cost::Loaded;
use md_people::full_name;
use md_static::Statics;
use std::alloc::Global;
use std::cmp::Reverse;
use std::collections::BTreeMap;

/// A name with its difference, and what it costs in both profiles. In order the greater difference comes first, and of equal ones the
/// name that is lower by its bytes.
#[derive(PartialEq, Eq, PartialOrd, Ord, Drop)]
pub(crate) struct Told {
    pub difference: Reverse<u64>,
    pub name: Vec<u8>,
    pub old: Option<Cost>,
    pub new: Option<Cost>,
}

/// What has a row: a difference of at least so many thousandths of the whole, and of at least 1.
#[derive(Clone, Copy)]
pub(crate) struct Margin {
    pub least: u32,
    pub whole: u64,
}

/// What each name costs in two profiles.
#[derive(Drop)]
pub(crate) struct Both {
    pub old: BTreeMap<Vec<u8>, Cost>,
    pub new: BTreeMap<Vec<u8>, Cost>,
}

/// The names that have a row, in order.
pub(crate) fn told_names(
    alloc: Global,
    old: &Loaded,
    new: &Loaded,
    by: Measure,
    margin: Margin,
) -> Result<Vec<Told>, NoMemory>
    requires whole { (v : View) → IsFileView old.now.profile v → margin.whole ≡ whole_of v by }
    ensures names { IfOk result (λ told. (v w : View) → IsFileView old.now.profile v → IsFileView new.now.profile w → map name_in told.items ≡ told_names v w by margin.least) }
    ensures each { IfOk result (λ told. (v w : View) → IsFileView old.now.profile v → IsFileView new.now.profile w → All (IsToldOf v w by) told.items) }
{
    let both = both_costs(alloc, old, new, by)?;
    let old = old.profile().statics();
    let new = new.profile().statics();
    let mut told = all_told(alloc, &both, margin, old, new)?;
    told.sort_unstable();
    Ok(told)
}

/// What each name costs in both profiles.
fn both_costs(alloc: Global, old: &Loaded, new: &Loaded, by: Measure) -> Result<Both, NoMemory>
    ensures old { IfOk result (λ both. (v : View) → IsFileView old.now.profile v → AreCostsOf v by both.old) }
    ensures new { IfOk result (λ both. (w : View) → IsFileView new.now.profile w → AreCostsOf w by both.new) }
{
    let old = costs_by_name(alloc, old, by)?;
    let new = costs_by_name(alloc, new, by)?;
    Ok(Both { old, new })
}

/// The names that have a row: those of the old profile, and then those that the new one alone has.
fn all_told(
    alloc: Global,
    both: &Both,
    margin: Margin,
    old: &Statics,
    new: &Statics,
) -> Result<Vec<Told>, NoMemory>
    requires old { length old.now.procs < 2 ^ 32 }
    requires new { length new.now.procs < 2 ^ 32 }
    ensures names { IfOk result (λ told. map name_in told.items ≡ filter (is_told_in both.now margin) (names_in old.now) ++ filter (is_told_in both.now margin) (filter (is_new_in both.now) (names_in new.now))) }
    ensures each { IfOk result (λ told. All (IsToldBy both.now) told.items) }
{
    let mut told = Vec::new(alloc);
    add_old(&mut told, both, margin, old)?;
    add_new(&mut told, both, margin, new)?;
    Ok(told)
}

/// Adds those names of the old profile that have a row.
fn add_old(told: &mut Vec<Told>, both: &Both, margin: Margin, old: &Statics) -> Result<(), NoMemory>
    requires few { length old.now.procs < 2 ^ 32 }
    ensures names { OnOk result (map name_in told.new.items ≡ map name_in told.old.items ++ filter (is_told_in both.now margin) (names_in old.now)) }
    ensures each { OnOk result (All (IsToldBy both.now) told.old.items → All (IsToldBy both.now) told.new.items) }
{
    let alloc: Global = *told.allocator();
    for id in 0..old.procs().len() as u32 {
        add_name(told, both, margin, full_name(alloc, old, id)?)?;
    }
    Ok(())
}

/// Adds those names that the new profile alone has and that have a row.
fn add_new(told: &mut Vec<Told>, both: &Both, margin: Margin, new: &Statics) -> Result<(), NoMemory>
    requires few { length new.now.procs < 2 ^ 32 }
    ensures names { OnOk result (map name_in told.new.items ≡ map name_in told.old.items ++ filter (is_told_in both.now margin) (filter (is_new_in both.now) (names_in new.now))) }
    ensures each { OnOk result (All (IsToldBy both.now) told.old.items → All (IsToldBy both.now) told.new.items) }
{
    let alloc: Global = *told.allocator();
    for id in 0..new.procs().len() as u32 {
        add_new_name(told, both, margin, full_name(alloc, new, id)?)?;
    }
    Ok(())
}

/// Adds a name that the old profile doesn't have, where it has a row.
fn add_new_name(
    told: &mut Vec<Told>,
    both: &Both,
    margin: Margin,
    name: Vec<u8>,
) -> Result<(), NoMemory>
    ensures names { OnOk result (map name_in told.new.items ≡ map name_in told.old.items ++ filter (is_told_in both.now margin) (filter (is_new_in both.now) (name.items ∷ []))) }
    ensures each { OnOk result (All (IsToldBy both.now) told.old.items → All (IsToldBy both.now) told.new.items) }
{
    if cost_at(&both.old, &name).is_some() {
        return Ok(());
    }
    add_name(told, both, margin, name)
}

/// Adds a name, where it has a row.
fn add_name(
    told: &mut Vec<Told>,
    both: &Both,
    margin: Margin,
    name: Vec<u8>,
) -> Result<(), NoMemory>
    ensures names { OnOk result (map name_in told.new.items ≡ map name_in told.old.items ++ filter (is_told_in both.now margin) (name.items ∷ [])) }
    ensures each { OnOk result (All (IsToldBy both.now) told.old.items → All (IsToldBy both.now) told.new.items) }
{
    let old = cost_at(&both.old, &name);
    let new = cost_at(&both.new, &name);
    let difference = difference_of(old, new);
    if is_passed(margin, difference) {
        told.push(Told {
            difference: Reverse(difference),
            name,
            old,
            new,
        })?;
    }
    Ok(())
}

/// Whether a difference has a row.
fn is_passed(margin: Margin, difference: u64) -> bool
    ensures { result ≡ is_passed margin difference }
{
    let least = margin.least as u128 * margin.whole as u128;
    least <= 1000 * difference as u128 && difference > 0
}
