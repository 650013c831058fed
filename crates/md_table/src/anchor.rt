// Anchors, and bytes as they stand in HTML.
ghost use Rattle.std.specs.Prelude.{◌≡◌, ◌++◌, codes, OnOk};
ghost use Rattle.percent_encoding.specs.Percent.{percent_encode};
ghost use Rattle.percent_encoding.specs.declared.ascii_set.TheConstants.{NON_ALPHANUMERIC};
ghost use Rattle.md_table.specs.Anchors.{anchor, escaped, escaped_byte, front_of, has_slash, named_html, target_of, text_html, word_html};

use crate::add::add;
use crate::target::Target;
use percent_encoding::{NON_ALPHANUMERIC, percent_encode};
use std::alloc::{AllocError, Global};

/// Adds the words of a text, each as an anchor where it names something: a procedure by its full name, a context or a clique by its number
/// behind the word `context` or `clique`. `by` is the name of the measure of the page.
pub(crate) fn add_text_html(out: &mut Vec<u8>, by: &[u8], text: &[u8]) -> Result<(), AllocError>
    ensures { OnOk result (out.new.items ≡ out.old.items ++ text_html by.now text.now) }
{
    let alloc: Global = *out.allocator();
    let mut before = Vec::new(alloc);
    let mut word = Vec::new(alloc);
    for byte in text {
        if *byte == b' ' {
            add_word(out, by, &before, &word)?;
            out.push(b' ')?;
            before = word;
            word = Vec::new(alloc);
        } else {
            word.push(*byte)?;
        }
    }
    add_word(out, by, &before, &word)
}

/// Adds a word that stands behind another one.
fn add_word(out: &mut Vec<u8>, by: &[u8], before: &[u8], word: &[u8]) -> Result<(), AllocError>
    ensures { OnOk result (out.new.items ≡ out.old.items ++ word_html by.now before.now word.now) }
{
    match target_of(before, word) {
        Some(target) => add_named(out, by, target, word),
        None => add_escaped(out, word),
    }
}

/// What a word names, by the word before it.
fn target_of(before: &[u8], word: &[u8]) -> Option<Target>
    ensures { result ≡ target_of before.now word.now }
{
    if has_slash(word) {
        Some(Target::Proc)
    } else if before == b"context".as_slice() {
        Some(Target::Context)
    } else if before == b"clique".as_slice() {
        Some(Target::Clique)
    } else {
        None
    }
}

fn has_slash(word: &[u8]) -> bool
    ensures { result ≡ has_slash word.now }
{
    for byte in word {
        if *byte == b'/' {
            return true;
        }
    }
    false
}

/// Adds a word that names something, as an anchor to its page.
pub(crate) fn add_named(
    out: &mut Vec<u8>,
    by: &[u8],
    target: Target,
    word: &[u8],
) -> Result<(), AllocError>
    ensures { OnOk result (out.new.items ≡ out.old.items ++ named_html by.now target word.now) }
{
    add(out, b"<a href=\"")?;
    add_address(out, by, target, word)?;
    add(out, b"\">")?;
    add_escaped(out, word)?;
    add(out, b"</a>")
}

/// Adds the address of the page of what a word names.
fn add_address(out: &mut Vec<u8>, by: &[u8], target: Target, word: &[u8]) -> Result<(), AllocError>
    ensures { OnOk result (out.new.items ≡ out.old.items ++ (front_of by.now target ++ percent_encode NON_ALPHANUMERIC word.now)) }
{
    add_front(out, by, target)?;
    add_encoded(out, word)
}

/// Adds where the address of such a page begins.
fn add_front(out: &mut Vec<u8>, by: &[u8], target: Target) -> Result<(), AllocError>
    ensures { OnOk result (out.new.items ≡ out.old.items ++ front_of by.now target) }
{
    match target {
        Target::Proc => add_measured(out, b"/callers?by=", by, b"&amp;name="),
        Target::Context => add_measured(out, b"/context?by=", by, b"&amp;id="),
        Target::Clique => add(out, b"/clique?id="),
        Target::Module => add(out, b"/module?name="),
    }
}

fn add_measured(out: &mut Vec<u8>, path: &[u8], by: &[u8], pair: &[u8]) -> Result<(), AllocError>
    ensures { OnOk result (out.new.items ≡ out.old.items ++ (path.now ++ (by.now ++ pair.now))) }
{
    add(out, path)?;
    add(out, by)?;
    add(out, pair)
}

/// Adds bytes as they stand in an address: each that is no letter and no digit is escaped.
pub fn add_encoded(out: &mut Vec<u8>, bytes: &[u8]) -> Result<(), AllocError>
    ensures { OnOk result (out.new.items ≡ out.old.items ++ percent_encode NON_ALPHANUMERIC bytes.now) }
{
    let alloc: Global = *out.allocator();
    let mut encoded = String::new(alloc);
    percent_encode(bytes, NON_ALPHANUMERIC).append_to(&mut encoded)?;
    add(out, encoded.as_str().as_bytes())
}

/// Adds bytes as they stand in HTML.
pub fn add_escaped(out: &mut Vec<u8>, bytes: &[u8]) -> Result<(), AllocError>
    ensures { OnOk result (out.new.items ≡ out.old.items ++ escaped bytes.now) }
{
    for byte in bytes {
        add_escaped_byte(out, *byte)?;
    }
    Ok(())
}

fn add_escaped_byte(out: &mut Vec<u8>, byte: u8) -> Result<(), AllocError>
    ensures { OnOk result (out.new.items ≡ out.old.items ++ escaped_byte byte) }
{
    match byte {
        b'&' => add(out, b"&amp;"),
        b'<' => add(out, b"&lt;"),
        b'>' => add(out, b"&gt;"),
        b'"' => add(out, b"&quot;"),
        b'\'' => add(out, b"&#39;"),
        _ => {
            out.push(byte)?;
            Ok(())
        }
    }
}
