// The text of a flame graph.
ghost use Rattle.std.specs.Prelude.{◌≡◌, ◌<◌, ◌++◌, ℕ, List, All, codes, decimal, length, map, IfOk, OnOk};
ghost use Rattle.md_clique.specs.Cliques.{clique_count};
ghost use Rattle.md_cost.specs.FileView.{IsFileView};
ghost use Rattle.md_cost.specs.View.{View};
ghost use Rattle.md_people.specs.Depths.{AreDepths, AreLast, path_up};
ghost use Rattle.md_people.specs.Flame.{between, flame_of, flame_text, joined, name_at, shortened, station_names};

use crate::depths::{Depths, depths_of, top_of};
use crate::full_names::FullNames;
use crate::name::add;
use crate::station::{entered_from, stations_of};
use itoa::Buffer;
use md_base::{Measure, NoMemory, PdId};
use md_cost::Loaded;
use std::alloc::{AllocError, Global};

/// From this many stations above a context on, only the first and the last of its stations are named.
const MANY: u32 = 200;

/// How many of the last stations are named then.
const LAST: u32 = 100;

/// A line for each context with own counts of the measure: the names of its stations from clique 0 on, and the count. No more than 200
/// stations are looked at for a line.
pub fn flame_text(alloc: Global, loaded: &Loaded, by: Measure) -> Result<Vec<u8>, NoMemory>
    ensures { IfOk result (λ text. (v : View) → IsFileView loaded.now.profile v → text.items ≡ flame_text v by) }
{
    let depths = depths_of(alloc, loaded)?;
    let names = FullNames::of(alloc, loaded.profile().statics())?;
    let mut text = Vec::new(alloc);
    for node in 0..loaded.profile().nodes().len() as u32 {
        add_flame(&mut text, loaded, by, &depths, &names, PdId::new(node))?;
    }
    Ok(text)
}

/// Adds the line of a context, where it has own counts.
fn add_flame(
    out: &mut Vec<u8>,
    loaded: &Loaded,
    by: Measure,
    depths: &Depths,
    names: &FullNames<'_>,
    node: PdId,
) -> Result<(), NoMemory>
    requires names { names.now.statics.now ≡ loaded.now.profile.statics }
    requires depths { AreDepths loaded.now (clique_count loaded.now.cliques) depths.now.places.items depths.now.tops.items }
    requires there { node < length loaded.now.profile.nodes }
    ensures { (v : View) → IsFileView loaded.now.profile v → OnOk result (out.new.items ≡ out.old.items ++ flame_of v by node) }
{
    let own = loaded.node_own(node).of(by);
    if own == 0 {
        return Ok(());
    }
    add_stations(out, loaded, depths, names, node)?;
    add_own(out, own)?;
    Ok(())
}

/// Adds the names of a context's stations.
fn add_stations(
    out: &mut Vec<u8>,
    loaded: &Loaded,
    depths: &Depths,
    names: &FullNames<'_>,
    node: PdId,
) -> Result<(), NoMemory>
    requires names { names.now.statics.now ≡ loaded.now.profile.statics }
    requires depths { AreDepths loaded.now (clique_count loaded.now.cliques) depths.now.places.items depths.now.tops.items }
    requires there { node < length loaded.now.profile.nodes }
    ensures { (v : View) → IsFileView loaded.now.profile v → OnOk result (out.new.items ≡ out.old.items ++ joined (shortened (station_names v node))) }
{
    // it is valid and has a tree, which `profile` says
    let _profile = loaded.profile();
    let clique = loaded.clique_of(node);
    if depths.places[clique as usize] < MANY {
        add_all(out, loaded, names, node)?;
        return Ok(());
    }
    let known = loaded.clique_count();
    let top = top_of(loaded, known, &depths.places, &depths.tops, node);
    add_ends(out, loaded, names, top, node)?;
    Ok(())
}

/// Adds the names of all stations of a context.
fn add_all(
    out: &mut Vec<u8>,
    loaded: &Loaded,
    names: &FullNames<'_>,
    node: PdId,
) -> Result<(), NoMemory>
    requires names { names.now.statics.now ≡ loaded.now.profile.statics }
    requires there { node < length loaded.now.profile.nodes }
    ensures { (v : View) → IsFileView loaded.now.profile v → OnOk result (out.new.items ≡ out.old.items ++ joined (station_names v node)) }
{
    let stations = stations_of(*out.allocator(), loaded, node)?;
    add_names(out, loaded, names, &stations)?;
    Ok(())
}

/// Adds the names of the stations of the top and of the last stations of a context.
fn add_ends(
    out: &mut Vec<u8>,
    loaded: &Loaded,
    names: &FullNames<'_>,
    top: PdId,
    node: PdId,
) -> Result<(), NoMemory>
    requires names { names.now.statics.now ≡ loaded.now.profile.statics }
    requires top { top < length loaded.now.profile.nodes }
    requires there { node < length loaded.now.profile.nodes }
    requires long { 100 < length (path_up loaded.now node) }
    ensures { (v : View) → IsFileView loaded.now.profile v → OnOk result ((last : List ℕ) × AreLast loaded.now node last × (out.new.items ≡ out.old.items ++ (joined (station_names v top) ++ (codes ";..;" ++ joined (map (name_at v) last))))) }
{
    let last = last_stations(*out.allocator(), loaded, node)?;
    add_all(out, loaded, names, top)?;
    add(out, b";..;")?;
    add_names(out, loaded, names, &last)?;
    Ok(())
}

/// The last stations of a context.
fn last_stations(alloc: Global, loaded: &Loaded, node: PdId) -> Result<Vec<u32>, NoMemory>
    requires there { node < length loaded.now.profile.nodes }
    requires long { 100 < length (path_up loaded.now node) }
    ensures last { IfOk result (λ last. AreLast loaded.now node last.items) }
    ensures there { IfOk result (λ last. All (λ c. c < length loaded.now.profile.nodes) last.items) }
{
    // it is valid and has a tree, which `profile` says
    let _profile = loaded.profile();
    let mut last = Vec::new(alloc);
    let mut station = node;
    for _place in 0..LAST {
        last.push(station.number())?;
        station = entered_from(loaded, loaded.clique_of(station));
    }
    last.reverse();
    Ok(last)
}

/// Adds the names of the procedures of these contexts, with `;` between them.
fn add_names(
    out: &mut Vec<u8>,
    loaded: &Loaded,
    names: &FullNames<'_>,
    nodes: &[u32],
) -> Result<(), NoMemory>
    requires names { names.now.statics.now ≡ loaded.now.profile.statics }
    requires there { All (λ c. c < length loaded.now.profile.nodes) nodes.now }
    ensures { (v : View) → IsFileView loaded.now.profile v → OnOk result (out.new.items ≡ out.old.items ++ joined (map (name_at v) nodes.now)) }
{
    let profile = loaded.profile();
    for place in 0..nodes.len() {
        add_between(out, place)?;
        let proc = profile.nodes()[nodes[place] as usize];
        add(out, names.get(proc.number()))?;
    }
    Ok(())
}

/// Adds what stands before a name at this place.
fn add_between(out: &mut Vec<u8>, place: usize) -> Result<(), AllocError>
    ensures { OnOk result (out.new.items ≡ out.old.items ++ between place) }
{
    if place == 0 { Ok(()) } else { add(out, b";") }
}

/// Adds a count and the end of the line.
fn add_own(out: &mut Vec<u8>, own: u64) -> Result<(), AllocError>
    ensures { OnOk result (out.new.items ≡ out.old.items ++ (codes " " ++ (decimal own ++ codes "\n"))) }
{
    let mut digits = Buffer::new();
    add(out, b" ")?;
    add(out, digits.format(own).as_bytes())?;
    add(out, b"\n")
}
