// How far cliques stand from clique 0.
ghost use Rattle.std.specs.Prelude.{◌≡◌, ◌<◌, IfOk, length, slice_index};
ghost use Rattle.md_clique.specs.Cliques.{clique_count};
ghost use Rattle.md_people.specs.Depths.{AreDepths, HasTop};

use crate::station::entered_from;
use md_base::{NoMemory, PdId};
use md_cost::Loaded;
use std::alloc::Global;

/// For each clique, how many stations stand above those of its contexts, and the top of where the link starts that enters it.
#[derive(Drop)]
pub(crate) struct Depths {
    pub places: Vec<u32>,
    pub tops: Vec<u32>,
}

/// How far cliques stand from clique 0, in one pass from there on.
pub(crate) fn depths_of(alloc: Global, loaded: &Loaded) -> Result<Depths, NoMemory>
    ensures { IfOk result (λ depths. AreDepths loaded.now (clique_count loaded.now.cliques) depths.places.items depths.tops.items) }
{
    // it is valid and has a tree, which `profile` says
    let _profile = loaded.profile();
    let mut places = Vec::new(alloc);
    let mut tops = Vec::new(alloc);
    places.push(0)?;
    tops.push(0)?;
    for clique in 1..loaded.clique_count() {
        let start = entered_from(loaded, clique);
        let top = top_of(loaded, clique, &places, &tops, start);
        tops.push(top.number())?;
        let above = places[loaded.clique_of(start) as usize];
        places.push(above + 1)?;
    }
    Ok(Depths { places, tops })
}

/// The top of a context: its last station that is among the first hundred from clique 0 on.
pub(crate) fn top_of(loaded: &Loaded, known: u32, places: &[u32], tops: &[u32], node: PdId) -> PdId
    requires depths { AreDepths loaded.now known places.now tops.now }
    requires there { node < length loaded.now.profile.nodes }
    requires known { slice_index loaded.now.cliques node < known }
    ensures { HasTop loaded.now node result }
{
    // it is valid and has a tree, which `profile` says
    let _profile = loaded.profile();
    let clique = loaded.clique_of(node) as usize;
    if places[clique] < 100 {
        node
    } else {
        PdId::new(tops[clique])
    }
}
