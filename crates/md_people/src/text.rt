// Texts in names.
ghost use Rattle.std.specs.Prelude.{◌≡◌};
ghost use Rattle.md_people.specs.Texts.{has_text};

/// Whether the text stands somewhere in the name.
pub(crate) fn has_text(text: &[u8], name: &[u8]) -> bool
    ensures { result ≡ has_text text.now name.now }
{
    for place in 0..name.len() + 1 {
        if name[place..].starts_with(text) {
            return true;
        }
    }
    false
}
