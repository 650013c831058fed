// The links that start in a context.
ghost use Rattle.std.specs.Prelude.{◌≡◌, ◌<◌, ◌^◌, Some, length, map, IfOk, IfSome};
ghost use Rattle.md_cost.specs.FileView.{IsFileView};
ghost use Rattle.md_cost.specs.View.{View, OfLink};
ghost use Rattle.md_people.specs.Context.{callee_row, callees_table, links_from};

use crate::costs::whole_of;
use crate::led::{add_led, led_by};
use crate::ports::{PortsRow, ports_table};
use md_base::{CsdId, Measure, NoMemory, PdId};
use md_cost::Loaded;
use md_table::Table;
use std::alloc::Global;

/// The table of the links that start in a context, in rising order.
pub fn callees_table(
    alloc: Global,
    loaded: &Loaded,
    by: Measure,
    node: PdId,
) -> Result<Table, NoMemory>
    requires there { node < length loaded.now.profile.nodes }
    ensures { IfOk result (λ table. (v : View) → IsFileView loaded.now.profile v → table ≡ callees_table v by node) }
{
    let whole = whole_of(loaded, by);
    let rows = callee_rows(alloc, loaded, by, node)?;
    let table = ports_table(alloc, whole, b"callee", &rows)?;
    Ok(table)
}

/// The rows of the links that start in a context.
fn callee_rows(
    alloc: Global,
    loaded: &Loaded,
    by: Measure,
    node: PdId,
) -> Result<Vec<PortsRow>, NoMemory>
    requires there { node < length loaded.now.profile.nodes }
    ensures { IfOk result (λ rows. (v : View) → IsFileView loaded.now.profile v → rows.items ≡ map (callee_row v by) (links_from v node)) }
{
    let links = loaded.links_from(node);
    let mut rows = Vec::new(alloc);
    for place in 0..links.len() {
        let row = callee_row(alloc, loaded, by, CsdId::new(links[place]))?;
        rows.push(row)?;
    }
    Ok(rows)
}

/// The row of a link.
fn callee_row(
    alloc: Global,
    loaded: &Loaded,
    by: Measure,
    link: CsdId,
) -> Result<PortsRow, NoMemory>
    requires there { link < length loaded.now.profile.links }
    ensures { IfOk result (λ row. (v : View) → IsFileView loaded.now.profile v → row ≡ callee_row v by link) }
{
    let total = total_of(loaded, by, link);
    let own = loaded.link_own(link);
    let mut words = Vec::new(alloc);
    add_led(
        &mut words,
        loaded.profile().statics(),
        led_by(loaded, link),
        total.is_some(),
    )?;
    Ok(PortsRow::from_parts(total, own, words))
}

/// The total of a link, where it has one.
pub(crate) fn total_of(loaded: &Loaded, by: Measure, link: CsdId) -> Option<u128>
    requires there { link < length loaded.now.profile.links }
    ensures small { IfSome result (λ n. n < 2 ^ 64) }
    ensures total { (v : View) → IsFileView loaded.now.profile v → result ≡ v.total (OfLink link) by }
{
    match loaded.link_total(link) {
        Some(total) => Some(total.of(by) as u128),
        None => None,
    }
}
