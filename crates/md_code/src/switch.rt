// The instruction of a switch.
ghost use Rattle.std.specs.Prelude.{◌≡◌, suc, IfOk};
ghost use Rattle.md_hlds.specs.Hlds.{hlds_of};
ghost use Rattle.md_hlds.specs.HldsGoal.{goals_of, gathered, goals_among};
ghost use Rattle.md_switch.specs.Keys.{key_of_code, keys_told};
ghost use Rattle.md_code.specs.Facts.{Stand};
ghost use Rattle.md_code.specs.Blocks as spec;

use crate::number::next_goal;
use crate::tables::Tables;
use md_base::NoMemory;
use md_flat::Operation;
use md_hlds::Goal;
use md_switch::{Key, shape_of};

/// The operation of the switch of this number on a variable.
pub fn switch_by(
    tables: &Tables,
    arms: &[Goal],
    number: u32,
    var: u32,
) -> Result<Operation, NoMemory>
    ensures { IfOk result (λ operation. Stand (hlds_of tables.now.source.checked.now) (suc number) (goals_among (gathered (goals_of arms.now)))
        → operation ≡ spec.switch_by (hlds_of tables.now.source.checked.now) number var (spec.shape_keys (hlds_of tables.now.source.checked.now) (gathered (goals_of arms.now)))) }
{
    let moded = tables.source.checked.moded();
    let first = next_goal(number)?;
    match shape_of(tables.alloc, moded, arms, first)? {
        None => Ok(Operation::Pass),
        Some(shape) => Ok(switch_by_keys(tables, number, var, shape.keys.as_slice())),
    }
}

/// The operation of the switch of this number on a variable, by its keys.
fn switch_by_keys(tables: &Tables, number: u32, var: u32, keys: &[Key]) -> Operation
    ensures { result ≡ spec.switch_by (hlds_of tables.now.source.checked.now) number var (keys_told keys.now) }
{
    let (of, detail) = (var, number);
    match keys {
        [] => Operation::Pass,
        [Key::Functor(_, _), ..] => Operation::Switch {
            of,
            first: first_functor(tables, keys),
            detail,
        },
        [Key::Int(_) | Key::Text(_), ..] => Operation::Select { of, detail },
    }
}

/// The first functor of a switch with these keys, or 0 where they are no functors.
pub fn first_functor(tables: &Tables, keys: &[Key]) -> u32
    ensures { result ≡ spec.first_functor (hlds_of tables.now.source.checked.now) (keys_told keys.now) }
{
    match keys {
        [Key::Functor(name, arity), rest @ ..] => {
            least_functor(tables, tables.functor(*name, *arity), rest)
        }
        [Key::Int(_) | Key::Text(_), ..] | [] => 0,
    }
}

/// The least of a functor and those of these keys.
pub fn least_functor(tables: &Tables, low: u32, keys: &[Key]) -> u32
    ensures { result ≡ spec.least_functor (hlds_of tables.now.source.checked.now) low (keys_told keys.now) }
{
    let mut low = low;
    for key in keys {
        low = least(low, key_functor(tables, key));
    }
    low
}

/// The functor of a key.
pub fn key_functor(tables: &Tables, key: &Key) -> u32
    ensures { result ≡ spec.key_functor (hlds_of tables.now.source.checked.now) (key_of_code key.now) }
{
    match key {
        Key::Functor(name, arity) => tables.functor(*name, *arity),
        Key::Int(_) | Key::Text(_) => 0,
    }
}

/// The lesser of two numbers.
fn least(first: u32, second: u32) -> u32
    ensures { result ≡ spec.least first second }
{
    if first < second { first } else { second }
}
