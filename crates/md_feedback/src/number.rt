// Numbers at the front of a text.
ghost use Rattle.std.specs.Prelude.{ℕ, List, ◌≡◌, ◌↔◌, ◌<◌, ◌≤◌, ◌^◌, true, length, slice_index, decimal, MatchOption, IsTrue};
ghost use Rattle.std.specs.Char.{is_ascii_digit};
ghost use Rattle.std.specs.List.{prefix_len};
ghost use Rattle.std.specs.Str.{all_ascii_digits};
ghost use Rattle.md_feedback.specs.Lines.{IsNumberAfter};

/// The number of 64 bits that stands in decimal, without leading zeros, behind these words at the front of a text, and what
/// follows its digits; `None` exactly where there is none.
pub(crate) fn number_after<'a>(words: &[u8], text: &'a [u8]) -> Option<(u64, &'a [u8])>
    ensures { MatchOption result ((n : ℕ) (rest : List ℕ) → IsNumberAfter words.now text.now n rest → ⊥)
        (λ found. IsNumberAfter words.now text.now found.0 found.1.now) }
{
    let text = text.strip_prefix(words)?;
    let (digits, rest) = text.split_at(digits_length(text));
    let number = number_of(digits)?;
    Some((number, rest))
}

/// How many digits stand at the front.
fn digits_length(text: &[u8]) -> usize
    ensures length { result ≡ prefix_len is_ascii_digit text.now }
    ensures within { result ≤ length text.now }
{
    text.iter().take_while(|byte| byte.is_ascii_digit()).count()
}

/// The number that these digits are in decimal; `None` exactly where they are none of 64 bits, or have leading zeros.
fn number_of(digits: &[u8]) -> Option<u64>
    requires { all_ascii_digits digits.now ≡ true }
    ensures { MatchOption result ((n : ℕ) → n < 2 ^ 64 → digits.now ≡ decimal n → ⊥) (λ n. digits.now ≡ decimal n) }
{
    if has_leading_zero(digits) {
        return None;
    }
    let Ok(text) = std::str::from_utf8(digits) else {
        return None;
    };
    match text.parse::<u64>() {
        Ok(number) => Some(number),
        Err(_) => None,
    }
}

/// Whether there are digits behind a first `0`.
fn has_leading_zero(digits: &[u8]) -> bool
    ensures { IsTrue result ↔ ((1 < length digits.now) × (slice_index digits.now 0 ≡ 48)) }
{
    digits.len() > 1 && digits[0] == b'0'
}
