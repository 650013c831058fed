// Whether each functor of a type has an arm.
ghost use Rattle.std.specs.Prelude.{◌≡◌};
ghost use Rattle.md_hlds.specs.Hlds.{hlds_of, hlds_functors_of};
ghost use Rattle.md_names.specs.Named.{name_at};
ghost use Rattle.md_switch.specs.Keys.{keys_told};
ghost use Rattle.md_det.specs.Switches.{all_have_keys};
ghost use Rattle.md_det.specs.Judge.{read_whole};

use crate::atomic::family_of;
use indexmap::IndexSet;
use md_hlds::Functor;
use md_modes::Moded;
use md_switch::Key;

/// Whether each functor of the type has its key, where the first arm begins with the goal of this number and that tests for
/// a functor.
pub fn is_whole(moded: &Moded, first: u32, keys: &IndexSet<Key>) -> bool
    ensures { result ≡ read_whole (hlds_of moded.now) (name_at (hlds_of moded.now) first) (keys_told keys.now.keys) }
{
    match family_of(moded, first) {
        None => false,
        Some(family) => all_have_keys(keys, &family.functors),
    }
}

fn all_have_keys(keys: &IndexSet<Key>, functors: &[Functor]) -> bool
    ensures { result ≡ all_have_keys (keys_told keys.now.keys) (hlds_functors_of functors.now) }
{
    for functor in functors {
        let key = Key::Functor(functor.name.as_bytes(), functor.args.len());
        if !(&*keys).contains(&key) {
            return false;
        }
    }
    true
}
