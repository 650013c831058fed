// The row of each thing, with its counts.
ghost use Rattle.std.specs.Prelude.{◌≡◌, ◌<◌, length, slice_index};
ghost use Rattle.md_clique.specs.Cliques.{clique_count};
ghost use Rattle.md_cost.specs.FileView.{IsFileView};
ghost use Rattle.md_cost.specs.View.{View};
ghost use Rattle.md_query.specs.PageOf.{entered_row, context_row, link_row, proc_row, of_row, site_row};

use crate::row::Row;
use md_base::{CsdId, PdId, ProcId, SiteId};
use md_cost::Loaded;

/// The row of the link that enters a clique.
pub fn entered_row(loaded: &Loaded, clique: u32) -> Row
    requires { clique < clique_count loaded.now.cliques }
    ensures { (v : View) → IsFileView loaded.now.profile v → result ≡ entered_row v clique }
{
    // it is valid and has a view, which `profile` says
    let _profile = loaded.profile();
    let link = loaded.entering(clique);
    let own = loaded.link_own(link);
    Row::Entered { link, own }
}

/// The row of a context.
pub fn context_row(loaded: &Loaded, node: PdId) -> Row
    requires { node < length loaded.now.profile.nodes }
    ensures { (v : View) → IsFileView loaded.now.profile v → result ≡ context_row v node }
{
    let own = loaded.node_own(node);
    let total = loaded.node_total(node);
    Row::Context { node, own, total }
}

/// The row of a link from the context above.
pub fn link_row(loaded: &Loaded, link: CsdId) -> Row
    requires { link < length loaded.now.profile.links }
    ensures { (v : View) → IsFileView loaded.now.profile v → result ≡ link_row v link }
{
    let own = loaded.link_own(link);
    match loaded.link_total(link) {
        Some(total) => Row::Leaving { link, own, total },
        None => Row::Inside { link, own },
    }
}

/// The row of a procedure.
pub fn proc_row(loaded: &Loaded, id: ProcId) -> Row
    requires { id < length loaded.now.profile.statics.procs }
    ensures { (v : View) → IsFileView loaded.now.profile v → result ≡ proc_row v id }
{
    let own = loaded.proc_own(id);
    let total = loaded.proc_total(id);
    Row::Proc { id, own, total }
}

/// The row of a context of the page's procedure.
pub fn of_row(loaded: &Loaded, node: PdId) -> Row
    requires { node < length loaded.now.profile.nodes }
    ensures { (v : View) → IsFileView loaded.now.profile v → result ≡ of_row v node }
{
    let own = loaded.node_own(node);
    let total = loaded.node_total(node);
    Row::Of { node, own, total }
}

/// The row of a call site.
pub fn site_row(loaded: &Loaded, id: SiteId) -> Row
    requires { id < length loaded.now.profile.statics.sites }
    ensures { (v : View) → IsFileView loaded.now.profile v → result ≡ site_row v id }
{
    let own = loaded.site_own(id);
    let total = loaded.site_total(id);
    Row::Site { id, own, total }
}
