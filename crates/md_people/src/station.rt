// The stations of a context.
ghost use Rattle.std.specs.Prelude.{◌≡◌, ◌<◌, ◌++◌, All, IfOk, OnOk, length, map};
ghost use Rattle.std.specs.List.{enumerate_from};
ghost use Rattle.md_clique.specs.Cliques.{clique_count};
ghost use Rattle.md_cost.specs.FileView.{IsFileView};
ghost use Rattle.md_cost.specs.Paths.{start_of};
ghost use Rattle.md_cost.specs.View.{View};
ghost use Rattle.md_people.specs.Context.{station_row, stations, stations_table};
ghost use Rattle.md_people.specs.Words.{station_words};

use crate::costs::whole_of;
use crate::name::{add_full_name, add_number};
use crate::ports::{PortsRow, ports_table};
use md_base::{Measure, NoMemory, PdId};
use md_cost::Loaded;
use md_static::Statics;
use md_table::{Table, add_indent};
use std::alloc::{AllocError, Global};

/// From this place on the indentation grows no more.
const DEEPEST: usize = 100;

/// The table of the stations of a context, from clique 0 on.
pub fn stations_table(
    alloc: Global,
    loaded: &Loaded,
    by: Measure,
    node: PdId,
) -> Result<Table, NoMemory>
    requires there { node < length loaded.now.profile.nodes }
    ensures { IfOk result (λ table. (v : View) → IsFileView loaded.now.profile v → table ≡ stations_table v by node) }
{
    let whole = whole_of(loaded, by);
    let stations = stations_of(alloc, loaded, node)?;
    let rows = station_rows(alloc, loaded, by, &stations)?;
    let table = ports_table(alloc, whole, b"context", &rows)?;
    Ok(table)
}

/// The stations of a context, from clique 0 on.
pub(crate) fn stations_of(alloc: Global, loaded: &Loaded, node: PdId) -> Result<Vec<u32>, NoMemory>
    requires there { node < length loaded.now.profile.nodes }
    ensures stations { IfOk result (λ found. (v : View) → IsFileView loaded.now.profile v → found.items ≡ stations v node) }
    ensures there { IfOk result (λ found. All (λ c. c < length loaded.now.profile.nodes) found.items) }
{
    // it is valid and has a tree, which `profile` says
    let _profile = loaded.profile();
    let mut stations = Vec::new(alloc);
    let mut station = node;
    while loaded.clique_of(station) != 0 {
        stations.push(station.number())?;
        station = entered_from(loaded, loaded.clique_of(station));
    }
    stations.push(station.number())?;
    stations.reverse();
    Ok(stations)
}

/// Where the link that enters a clique starts.
pub fn entered_from(loaded: &Loaded, clique: u32) -> PdId
    requires there { clique < clique_count loaded.now.cliques }
    ensures { result ≡ start_of loaded.now.profile.links loaded.now.entries clique }
{
    let link = loaded.entering(clique);
    let row = loaded.profile().links()[link.number() as usize];
    match row.caller {
        Some(caller) => caller,
        None => PdId::new(0),
    }
}

/// The rows of these stations, the first of which stands at the left.
fn station_rows(
    alloc: Global,
    loaded: &Loaded,
    by: Measure,
    stations: &[u32],
) -> Result<Vec<PortsRow>, NoMemory>
    requires there { All (λ c. c < length loaded.now.profile.nodes) stations.now }
    ensures { IfOk result (λ rows. (v : View) → IsFileView loaded.now.profile v → rows.items ≡ map (station_row v by) (enumerate_from 0 stations.now)) }
{
    let mut rows = Vec::new(alloc);
    for place in 0..stations.len() {
        let row = station_row(alloc, loaded, by, place, PdId::new(stations[place]))?;
        rows.push(row)?;
    }
    Ok(rows)
}

/// The row of a station at this place.
fn station_row(
    alloc: Global,
    loaded: &Loaded,
    by: Measure,
    place: usize,
    node: PdId,
) -> Result<PortsRow, NoMemory>
    requires there { node < length loaded.now.profile.nodes }
    ensures { IfOk result (λ row. (v : View) → IsFileView loaded.now.profile v → row ≡ station_row v by (place, node)) }
{
    let total = loaded.node_total(node);
    let own = loaded.node_own(node);
    let profile = loaded.profile();
    let proc = profile.nodes()[node.number() as usize].number();
    let mut words = Vec::new(alloc);
    add_indent(&mut words, place.min(DEEPEST) as u32)?;
    add_station(
        &mut words,
        profile.statics(),
        proc,
        node.number(),
        loaded.clique_of(node),
    )?;
    Ok(PortsRow::from_parts(Some(total.of(by) as u128), own, words))
}

/// Adds the name of a context's procedure, the context and its clique.
fn add_station(
    out: &mut Vec<u8>,
    statics: &Statics,
    proc: u32,
    node: u32,
    clique: u32,
) -> Result<(), AllocError>
    ensures { OnOk result (out.new.items ≡ out.old.items ++ station_words statics.now proc node clique) }
{
    add_full_name(out, statics, proc)?;
    add_number(out, b" context ", node)?;
    add_number(out, b" clique ", clique)
}
