// The commands over a stored profile: `page` and `migrate`.
ghost use Rattle.std.specs.Prelude.{◌≡◌, ◌⊎◌, ◌≤◌, MatchResult};
ghost use Rattle.md_base.specs.Outside.{Rose};
ghost use Rattle.md_deepfile.specs.Loads.{FileSpells};
ghost use Rattle.md_dynamic.specs.Valid.{IsValid};
ghost use Rattle.md_query.specs.Told.{asked};
ghost use Rattle.md_tool.specs.Stored.{IsStored, IsLoadedFrom, LoadFails, ViewFails, StoredEnds, MigrateEnds, longest_profile, migrated};
ghost use Rattle.md_tool.specs.Rises.{RisesBy};

use crate::fault::Fault;
use crate::paged::write_page;
use crate::run::store_told;
use md_base::{Sink, Store};
use md_cost::{CostFault, Loaded, propagate};
use md_deepfile::{LoadFault, load};
use md_dynamic::Profile;
use md_query::Query;
use std::alloc::Global;

/// The longest profile file that is asked, in bytes.
pub const LONGEST_PROFILE: u64 = 1_073_741_824;

/// The longest profile file that is brought into the newer form, in bytes.
pub const LONGEST_MIGRATED: u64 = 268_435_456;

/// Writes the page that is asked for of the profile in a file.
pub fn page_of_file<S: Store, O: Sink>(
    alloc: Global,
    name: &str,
    query: &Query,
    store: &mut S,
    out: &mut O,
) -> Result<(), Fault>
    ensures ends { StoredEnds (S.held store.old) name.now (asked query.now) (O.held out.old) (O.held out.new)
        (Rose (S.read_faults store.old) (S.read_faults store.new)) (Rose (O.write_faults out.old) (O.write_faults out.new)) result }
    ensures kept { S.held store.new ≡ S.held store.old }
    ensures reads { RisesBy Fault.Read (S.read_faults store.old) (S.read_faults store.new) result }
    ensures writes { S.write_faults store.new ≡ S.write_faults store.old }
    ensures outs { RisesBy Fault.Write (O.write_faults out.old) (O.write_faults out.new) result }
{
    let loaded = load_file(alloc, name, store)?;
    write_page(alloc, &loaded, query, out)
}

/// Loads the profile in a file, with its totals.
pub fn load_file<S: Store>(alloc: Global, name: &str, store: &mut S) -> Result<Loaded, Fault>
    ensures loaded { MatchResult result (IsLoadedFrom (S.held store.old) name.now)
        (ViewFails (S.held store.old) name.now (Rose (S.read_faults store.old) (S.read_faults store.new))) }
    ensures kept { S.held store.new ≡ S.held store.old }
    ensures later { S.read_faults store.old ≤ S.read_faults store.new }
    ensures reads { RisesBy Fault.Read (S.read_faults store.old) (S.read_faults store.new) result }
    ensures writes { S.write_faults store.new ≡ S.write_faults store.old }
{
    let profile = load_profile(alloc, name, LONGEST_PROFILE, store)?;
    match propagate(alloc, profile) {
        Ok(loaded) => Ok(loaded),
        Err(CostFault::NoMemory) => Err(Fault::NoMemory),
        Err(CostFault::TwoEntries { clique, a, b }) => Err(Fault::TwoEntries { clique, a, b }),
    }
}

/// Reads the profile in a file of at most so many bytes.
pub fn load_profile<S: Store>(
    alloc: Global,
    name: &str,
    most: u64,
    store: &mut S,
) -> Result<Profile, Fault>
    ensures read { MatchResult result (IsStored (S.held store.old) name.now most)
        (LoadFails (S.held store.old) name.now most (Rose (S.read_faults store.old) (S.read_faults store.new))) }
    ensures kept { S.held store.new ≡ S.held store.old }
    ensures later { S.read_faults store.old ≤ S.read_faults store.new }
    ensures writes { S.write_faults store.new ≡ S.write_faults store.old }
    ensures reads { RisesBy Fault.Read (S.read_faults store.old) (S.read_faults store.new) result }
{
    match load(alloc, store, name, most) {
        Ok(profile) => Ok(profile),
        Err(LoadFault::Read) => Err(Fault::Read),
        Err(LoadFault::TooLarge) => Err(Fault::TooLarge(most)),
        Err(LoadFault::Damage { at, kind }) => Err(Fault::Damaged { at, kind }),
        Err(LoadFault::NoMemory) => Err(Fault::NoMemory),
    }
}

/// Reads the profile in a file, of the older form or of the newer one, and stores it in the newer one.
pub fn migrate_file<S: Store, O: Sink>(
    alloc: Global,
    name: &str,
    new: &str,
    store: &mut S,
    out: &mut O,
) -> Result<(), Fault>
    ensures ends { MigrateEnds (S.held store.old) (S.held store.new) name.now new.now (O.held out.old) (O.held out.new)
        (Rose (S.read_faults store.old) (S.read_faults store.new)) (Rose (S.write_faults store.old) (S.write_faults store.new))
        (Rose (O.write_faults out.old) (O.write_faults out.new)) result }
    ensures reads { RisesBy Fault.Read (S.read_faults store.old) (S.read_faults store.new) result }
    ensures writes { RisesBy Fault.Write (S.write_faults store.old) (S.write_faults store.new) result }
    ensures outs { RisesBy Fault.Write (O.write_faults out.old) (O.write_faults out.new) result }
    ensures one { (S.write_faults store.new ≡ S.write_faults store.old) ⊎ (O.write_faults out.new ≡ O.write_faults out.old) }
{
    let profile = load_profile(alloc, name, LONGEST_MIGRATED, store)?;
    store_told(alloc, &profile, new, b"migrated\n", store, out)
}
