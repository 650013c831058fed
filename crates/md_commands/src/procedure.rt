// Which procedure a word means.
ghost use Rattle.std.specs.Prelude.{◌≡◌};
ghost use Rattle.std.specs.Char.{is_ascii_digit};
ghost use Rattle.std.specs.List.{list_all};
ghost use Rattle.md_commands.specs.Form.{meant_in};
ghost use Rattle.md_commands.specs.Told.{meant_told};

use md_query::number_within;

/// The procedure that a word means.
#[derive(Clone, Copy, Debug)]
pub enum ProcWord<'a> {
    /// The one of this number.
    Number(u32),
    /// The one of this full name, `MODULE.NAME/ARITY`.
    Name(&'a str),
}

/// The procedure that a word means: digits alone are a number, of at most 4,294,967,295, and any other word is a full name. `None` where
/// the word is empty or the number is greater.
pub fn proc_word(word: &str) -> Option<ProcWord<'_>>
    ensures { meant_told result ≡ meant_in word.now }
{
    if !are_digits(word.as_bytes()) {
        return Some(ProcWord::Name(word));
    }
    let number = number_within(0, u32::MAX, word.as_bytes())?;
    Some(ProcWord::Number(number))
}

/// Whether all of these bytes are digits.
fn are_digits(bytes: &[u8]) -> bool
    ensures { result ≡ list_all is_ascii_digit bytes.now }
{
    bytes.iter().all(|byte| byte.is_ascii_digit())
}
