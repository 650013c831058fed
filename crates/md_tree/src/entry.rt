// The words of a clique: what is entered and from where.
ghost use Rattle.std.specs.Prelude.{◌≡◌, ◌<◌, ◌++◌, ◌==◌, if◌then◌else◌, [], codes, IfOk, OnOk};
ghost use Rattle.md_clique.specs.Cliques.{clique_count};
ghost use Rattle.md_cost.specs.FileView.{IsFileView};
ghost use Rattle.md_cost.specs.View.{View};
ghost use Rattle.md_people.specs.Tree.{entry_of, size_words, where_words};
ghost use Rattle.md_people.specs.Words.{led_by, line_words};

use md_base::NoMemory;
use md_cost::Loaded;
use md_people::{Led, add_full_name, add_number, led_by, line_at};
use md_static::Statics;
use std::alloc::{AllocError, Global};

/// The words of a clique: the procedure of the context that is entered, from where, the clique, and its size. Takes as many steps as
/// there are words.
pub fn where_words(alloc: Global, loaded: &Loaded, clique: u32) -> Result<Vec<u8>, NoMemory>
    requires there { clique < clique_count loaded.now.cliques }
    ensures { IfOk result (λ words. (v : View) → IsFileView loaded.now.profile v → words.items ≡ where_words v clique) }
{
    let mut words = Vec::new(alloc);
    add_where(&mut words, loaded, clique)?;
    Ok(words)
}

/// Adds the words of a clique.
pub(crate) fn add_where(out: &mut Vec<u8>, loaded: &Loaded, clique: u32) -> Result<(), AllocError>
    requires there { clique < clique_count loaded.now.cliques }
    ensures { (v : View) → IsFileView loaded.now.profile v → OnOk result (out.new.items ≡ out.old.items ++ where_words v clique) }
{
    let statics = loaded.profile().statics();
    let led = entry_of(loaded, clique);
    add_full_name(out, statics, led.proc)?;
    add_entered(out, statics, clique, led.site)?;
    add_number(out, b" clique ", clique)?;
    add_size(out, loaded.members(clique).len() as u32)
}

/// Where the link leads to that enters a clique.
fn entry_of(loaded: &Loaded, clique: u32) -> Led
    requires there { clique < clique_count loaded.now.cliques }
    ensures { (v : View) → IsFileView loaded.now.profile v → result ≡ led_by v (entry_of v clique) }
{
    // it is valid and has a tree, which `profile` says
    let _profile = loaded.profile();
    led_by(loaded, loaded.entering(clique))
}

/// Adds from where a clique is entered; clique 0 is from nowhere.
fn add_entered(
    out: &mut Vec<u8>,
    statics: &Statics,
    clique: u32,
    site: u32,
) -> Result<(), AllocError>
    ensures { OnOk result (out.new.items ≡ out.old.items ++ (if clique == 0 then [] else codes " from" ++ line_words statics.now site)) }
{
    if clique == 0 {
        return Ok(());
    }
    out.extend_from_slice(b" from")?;
    add_number(out, b" line ", line_at(statics, site))
}

/// Adds how many contexts a clique has, where there are more than one.
fn add_size(out: &mut Vec<u8>, contexts: u32) -> Result<(), AllocError>
    ensures { OnOk result (out.new.items ≡ out.old.items ++ size_words contexts) }
{
    if contexts <= 1 {
        return Ok(());
    }
    add_number(out, b" of ", contexts)?;
    out.extend_from_slice(b" contexts")
}
