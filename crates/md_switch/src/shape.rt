// The shape of a switch.
ghost use Rattle.std.specs.Prelude.{◌≡◌, ◌<◌, IfOk};
ghost use Rattle.md_hlds.specs.Hlds.{hlds_of};
ghost use Rattle.md_hlds.specs.HldsGoal.{goals_of, gathered};
ghost use Rattle.md_hlds.specs.Switch.{if_different};
ghost use Rattle.md_switch.specs.Keys.{keys_found, shape_told, with_variable};
ghost use Rattle.md_switch.specs.Reading.{read_keys, read_shape};

use crate::key::{Key, arm_key};
use indexmap::IndexSet;
use md_base::NoMemory;
use md_hlds::Goal;
use md_modes::Moded;
use std::alloc::Global;

/// The variable that the arms of a disjunction test, and the key of each arm, in order. They are pairwise different.
#[derive(Drop)]
pub struct Shape<'a> {
    pub var: u32,
    pub keys: IndexSet<Key<'a>>,
}

/// The shape of a disjunction of these arms, of which the first has this number among the goals of the program; `None`,
/// where it has not the shape of a switch. (It is one where the variable that they test is bound before it.) Takes time
/// near linear in the number of arms. `NoMemory` comes only where memory was refused.
pub fn shape_of<'a>(
    alloc: Global,
    moded: &Moded,
    arms: &'a [Goal],
    number: u32,
) -> Result<Option<Shape<'a>>, NoMemory>
    requires { number < 4294967295 }
    ensures { IfOk result (λ shape. shape_told shape ≡ read_shape (hlds_of moded.now) number (gathered (goals_of arms.now))) }
{
    let Some(first) = arms.first() else {
        return Ok(None);
    };
    let Some((var, _)) = arm_key(moded, first, number) else {
        return Ok(None);
    };
    match keys_of(alloc, moded, var, arms, number)? {
        None => Ok(None),
        Some(keys) => Ok(Some(Shape { var, keys })),
    }
}

/// The keys that these arms test the variable for, where each arm tests it and the keys are pairwise different. The first
/// arm has this number.
fn keys_of<'a>(
    alloc: Global,
    moded: &Moded,
    var: u32,
    arms: &'a [Goal],
    number: u32,
) -> Result<Option<IndexSet<Key<'a>>>, NoMemory>
    requires { number < 4294967295 }
    ensures { IfOk result (λ keys. with_variable var (keys_found keys)
        ≡ if_different var (read_keys (hlds_of moded.now) var number (gathered (goals_of arms.now)))) }
{
    let mut keys = IndexSet::new(alloc);
    let mut number = number;
    for arm in arms {
        let Some((tested, key)) = arm_key(moded, arm, number) else {
            return Ok(None);
        };
        if tested != var {
            return Ok(None);
        }
        let (_, is_new) = keys.insert_full(key)?;
        if !is_new {
            return Ok(None);
        }
        let next = moded.after(number);
        number = next;
    }
    Ok(Some(keys))
}
