// Tokens one after the other, with their layout.
ghost use Rattle.std.specs.Prelude.{◌≡◌, ◌++◌, OnOk, codes};
ghost use Rattle.md_printer.specs.Layout as spec;

use md_base::NoMemory;

/// Adds a token, and the space that follows each.
pub(crate) fn token(text: &mut Vec<u8>, spelled: &[u8]) -> Result<(), NoMemory>
    ensures { OnOk result (text.new.items ≡ text.old.items ++ spec.spaced spelled.now) }
{
    text.extend_from_slice(spelled)?;
    text.push(b' ')?;
    Ok(())
}

/// Adds a token that is a sign or a word of the language.
pub(crate) fn sign(text: &mut Vec<u8>, spelled: &str) -> Result<(), NoMemory>
    ensures { OnOk result (text.new.items ≡ text.old.items ++ spec.spaced spelled.now) }
{
    token(text, spelled.as_bytes())
}

/// Adds the end sign, and the line feed that follows it.
pub(crate) fn end(text: &mut Vec<u8>) -> Result<(), NoMemory>
    ensures { OnOk result (text.new.items ≡ text.old.items ++ codes ".\n") }
{
    text.extend_from_slice(b".\n")?;
    Ok(())
}
