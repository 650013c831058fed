// Bytes and runs of bytes at the front of a text.
ghost use Rattle.std.specs.Prelude.{◌≡◌, ◌≤◌, ◌<◌, length, drop, slice_index};
ghost use Rattle.std.specs.List.{prefix_len};
ghost use Rattle.std.specs.Str.{bytes_eq};
ghost use Rattle.std.specs.Char.{is_ascii_digit, is_ascii_lowercase};
ghost use Rattle.md_token.specs.Token as spec;

/// The byte at a place, or 0 past the end.
pub(crate) fn byte_at(bytes: &[u8], place: usize) -> u8
    ensures byte { result ≡ slice_index bytes.now place }
    ensures there { 0 < result → place < length bytes.now }
{
    if place < bytes.len() { bytes[place] } else { 0 }
}

pub(crate) fn is_lower(byte: u8) -> bool
    ensures { result ≡ is_ascii_lowercase byte }
{
    byte.is_ascii_lowercase()
}

pub(crate) fn is_blank(byte: u8) -> bool
    ensures { result ≡ spec.is_blank byte }
{
    byte == b' ' || byte == b'\t' || byte == b'\n' || byte == b'\r'
}

/// How many bytes at the front belong to a name or a variable.
pub fn word_length(bytes: &[u8]) -> usize
    ensures length { result ≡ prefix_len spec.is_word_byte bytes.now }
    ensures within { result ≤ length bytes.now }
{
    bytes
        .iter()
        .take_while(|byte| byte.is_ascii_alphanumeric() || **byte == b'_')
        .count()
}

/// How many digits stand at the front.
pub(crate) fn digits_length(bytes: &[u8]) -> usize
    ensures length { result ≡ prefix_len is_ascii_digit bytes.now }
    ensures within { result ≤ length bytes.now }
{
    bytes
        .iter()
        .take_while(|byte| byte.is_ascii_digit())
        .count()
}

/// How many bytes stand before the next line feed or the end.
pub(crate) fn line_length(bytes: &[u8]) -> usize
    ensures length { result ≡ prefix_len spec.is_in_line bytes.now }
    ensures within { result ≤ length bytes.now }
{
    bytes.iter().take_while(|byte| **byte != b'\n').count()
}
