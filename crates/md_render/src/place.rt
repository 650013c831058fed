// Procedures by their full names, contexts and links.
ghost use Rattle.std.specs.Prelude.{◌≡◌, ◌++◌, OnOk};
ghost use Rattle.md_render.specs.Kept.{names_in};
ghost use Rattle.md_render.specs.Names.{full_name};
ghost use Rattle.md_render.specs.Words.{context_words, placed_words, link_words};

use crate::form::{Form, add_clique};
use crate::lookup::{clique_at, module_name, proc_at, site_at};
use crate::number::{add, add_number};
use md_base::{CsdId, PdId};
use md_cost::Loaded;
use md_static::Statics;
use std::alloc::AllocError;

/// Adds a procedure's module, name and number of arguments.
pub(crate) fn add_full_name(out: &mut Vec<u8>, statics: &Statics, id: u32) -> Result<(), AllocError>
    ensures { OnOk result (out.new.items ≡ out.old.items ++ full_name statics.now id) }
{
    let Some(proc) = statics.procs().get(id as usize) else {
        return Ok(());
    };
    add(out, module_name(statics, proc.module))?;
    add(out, b".")?;
    add(out, proc.name.as_bytes())?;
    add_number(out, b"/", proc.arity as u64)
}

/// Adds a context, with the full name of its procedure.
pub(crate) fn add_context(out: &mut Vec<u8>, loaded: &Loaded, node: PdId) -> Result<(), AllocError>
    ensures { OnOk result (out.new.items ≡ out.old.items ++ context_words (names_in loaded.now) node) }
{
    add_number(out, b"context ", node.number() as u64)?;
    add(out, b" ")?;
    add_full_name(out, loaded.profile().statics(), proc_at(loaded, node))
}

/// Adds a context, with the full name of its procedure and its clique.
pub(crate) fn add_placed(
    out: &mut Vec<u8>,
    form: Form,
    loaded: &Loaded,
    node: PdId,
) -> Result<(), AllocError>
    ensures { OnOk result (out.new.items ≡ out.old.items ++ placed_words form (names_in loaded.now) node) }
{
    add_context(out, loaded, node)?;
    add(out, b" ")?;
    add_clique(out, form, clique_at(loaded, node))
}

/// Adds a link, with its call site.
pub(crate) fn add_link(out: &mut Vec<u8>, loaded: &Loaded, link: CsdId) -> Result<(), AllocError>
    ensures { OnOk result (out.new.items ≡ out.old.items ++ link_words (names_in loaded.now) link) }
{
    add_number(out, b"link ", link.number() as u64)?;
    add_number(out, b" site ", site_at(loaded, link) as u64)
}
