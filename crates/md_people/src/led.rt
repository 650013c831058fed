// Where a link leads to.
ghost use Rattle.std.specs.Prelude.{◌≡◌, ◌<◌, ◌++◌, length, unwrap_or, OnOk};
ghost use Rattle.md_cost.specs.FileView.{IsFileView};
ghost use Rattle.md_cost.specs.View.{View};
ghost use Rattle.md_people.specs.Words.{from_words, led_by, led_words, left_words, line_at, owner_of};

use crate::name::{add, add_full_name, add_number};
use md_base::{CsdId, SiteId};
use md_cost::Loaded;
use md_static::Statics;
use std::alloc::AllocError;

/// The call site of a link, and the context to which it leads with its procedure and its clique, by their numbers.
#[derive(Clone, Copy)]
pub struct Led {
    pub site: u32,
    pub callee: u32,
    pub proc: u32,
    pub clique: u32,
}

/// Where a link leads to.
pub fn led_by(loaded: &Loaded, link: CsdId) -> Led
    requires { link < length loaded.now.profile.links }
    ensures { (v : View) → IsFileView loaded.now.profile v → result ≡ led_by v link }
{
    let profile = loaded.profile();
    let row = profile.links()[link.number() as usize];
    Led {
        site: site_number(row.site),
        callee: row.callee.number(),
        proc: profile.nodes()[row.callee.number() as usize].number(),
        clique: loaded.clique_of(row.callee),
    }
}

fn site_number(site: Option<SiteId>) -> u32
    ensures { result ≡ unwrap_or site 0 }
{
    match site {
        Some(site) => site.number(),
        None => 0,
    }
}

/// Adds where a link leads to and from where, with the clique where it leaves its own.
pub(crate) fn add_led(
    out: &mut Vec<u8>,
    statics: &Statics,
    led: Led,
    leaves: bool,
) -> Result<(), AllocError>
    ensures { OnOk result (out.new.items ≡ out.old.items ++ led_words statics.now led leaves) }
{
    add_full_name(out, statics, led.proc)?;
    add_from(out, statics, led.site)?;
    add_number(out, b" context ", led.callee)?;
    add_left(out, leaves, led.clique)
}

/// Adds from where a callee is called.
pub(crate) fn add_from(out: &mut Vec<u8>, statics: &Statics, site: u32) -> Result<(), AllocError>
    ensures { OnOk result (out.new.items ≡ out.old.items ++ from_words statics.now site) }
{
    add(out, b" from")?;
    add_number(out, b" line ", line_at(statics, site))?;
    add_number(out, b" site ", site)
}

fn add_left(out: &mut Vec<u8>, leaves: bool, clique: u32) -> Result<(), AllocError>
    ensures { OnOk result (out.new.items ≡ out.old.items ++ left_words leaves clique) }
{
    if leaves {
        add_number(out, b" clique ", clique)
    } else {
        Ok(())
    }
}

/// The owner of a call site.
pub(crate) fn owner_at(statics: &Statics, site: u32) -> u32
    ensures { result ≡ owner_of statics.now site }
{
    match statics.sites().get(site as usize) {
        Some(site) => site.owner.number(),
        None => 0,
    }
}

/// The line of a call site.
pub fn line_at(statics: &Statics, site: u32) -> u32
    ensures { result ≡ line_at statics.now site }
{
    match statics.sites().get(site as usize) {
        Some(site) => site.line,
        None => 0,
    }
}
