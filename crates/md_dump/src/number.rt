// Numbers in decimal, without leading zeros.
ghost use Rattle.std.specs.Prelude.{◌≡◌};
ghost use Rattle.md_dump.specs.Numbers.{begins_well, digits_up_to, number_up_to};

/// The number of a word, where it is one that isn't above the greatest.
pub(crate) fn number_up_to(most: u32, word: &[u8]) -> Option<u32>
    ensures { result ≡ number_up_to most word.now }
{
    if begins_well(word) {
        digits_up_to(most, word)
    } else {
        None
    }
}

/// Whether this is a word that doesn't go on behind a leading zero.
fn begins_well(word: &[u8]) -> bool
    ensures { result ≡ begins_well word.now }
{
    match word {
        [] => false,
        [_] => true,
        [first, _, ..] => *first != b'0',
    }
}

/// The number of digits, where it isn't above the greatest.
fn digits_up_to(most: u32, digits: &[u8]) -> Option<u32>
    ensures { result ≡ digits_up_to most digits.now }
{
    let mut number = 0u64;
    let mut rest = digits;
    while let [digit, after @ ..] = rest {
        if !digit.is_ascii_digit() {
            return None;
        }
        number = 10 * number + u64::from(*digit - b'0');
        if number > u64::from(most) {
            return None;
        }
        rest = after;
    }
    Some(number as u32)
}
