// What stands in an anchor where a page is HTML, and as plain words where it is a text.
ghost use Rattle.std.specs.Prelude.{◌≡◌, ◌++◌, codes, decimal, OnOk};
ghost use Rattle.percent_encoding.specs.Percent.{percent_encode};
ghost use Rattle.percent_encoding.specs.declared.ascii_set.TheConstants.{NON_ALPHANUMERIC};
ghost use Rattle.md_render.specs.Words.{linked, clique_words, proc_words, module_words};

use crate::number::{add, add_number};
use md_table::add_encoded;
use std::alloc::AllocError;

/// What a page is written as.
#[derive(Clone, Copy, PartialEq, Eq)]
pub(crate) enum Form {
    Text,
    Html,
}

/// Adds a clique.
pub(crate) fn add_clique(out: &mut Vec<u8>, form: Form, clique: u32) -> Result<(), AllocError>
    ensures { OnOk result (out.new.items ≡ out.old.items ++ clique_words form clique) }
{
    add_linked(out, form, b"/clique?id=", b"clique ", clique as u64)
}

/// Adds a procedure.
pub(crate) fn add_proc(out: &mut Vec<u8>, form: Form, id: u32) -> Result<(), AllocError>
    ensures { OnOk result (out.new.items ≡ out.old.items ++ proc_words form id) }
{
    add_linked(out, form, b"/proc?id=", b"proc ", id as u64)
}

/// Adds a module by its name.
pub(crate) fn add_module(out: &mut Vec<u8>, form: Form, name: &[u8]) -> Result<(), AllocError>
    ensures { OnOk result (out.new.items ≡ out.old.items ++ module_words form name.now) }
{
    match form {
        Form::Text => add_plain_module(out, name),
        Form::Html => {
            add(out, b"<a href=\"")?;
            add_module_address(out, name)?;
            add(out, b"\">")?;
            add_plain_module(out, name)?;
            add(out, b"</a>")
        }
    }
}

/// Adds words with a number, which is in the address too.
fn add_linked(
    out: &mut Vec<u8>,
    form: Form,
    address: &[u8],
    words: &[u8],
    number: u64,
) -> Result<(), AllocError>
    ensures { OnOk result (out.new.items ≡ out.old.items ++ linked form (address.now ++ decimal number) (words.now ++ decimal number)) }
{
    match form {
        Form::Text => add_number(out, words, number),
        Form::Html => {
            add(out, b"<a href=\"")?;
            add_number(out, address, number)?;
            add(out, b"\">")?;
            add_number(out, words, number)?;
            add(out, b"</a>")
        }
    }
}

fn add_plain_module(out: &mut Vec<u8>, name: &[u8]) -> Result<(), AllocError>
    ensures { OnOk result (out.new.items ≡ out.old.items ++ (codes "module " ++ name.now)) }
{
    add(out, b"module ")?;
    add(out, name)
}

fn add_module_address(out: &mut Vec<u8>, name: &[u8]) -> Result<(), AllocError>
    ensures { OnOk result (out.new.items ≡ out.old.items ++ (codes "/module?name=" ++ percent_encode NON_ALPHANUMERIC name.now)) }
{
    add(out, b"/module?name=")?;
    add_encoded(out, name)
}
