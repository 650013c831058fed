// What integers and strings stand for.
ghost use Rattle.std.specs.Prelude.{◌≡◌, ◌≤◌, SomeIff, IfOk, IfSome, length};
ghost use Rattle.md_token.specs.Literal as spec;

use md_base::NoMemory;
use std::alloc::Global;

/// 2 ^ 63.
const GREATEST: u64 = 9_223_372_036_854_775_808;

/// The greatest number that still fits with a further digit.
const TENTH: u64 = 922_337_203_685_477_580;

/// The number of these digits, if it is at most 2 ^ 63.
pub fn number_of(digits: &[u8]) -> Option<u64>
    ensures number { SomeIff result (spec.number_of digits.now ≤ 9223372036854775808) (spec.number_of digits.now) }
{
    let mut number = 0u64;
    for digit in digits {
        if number > TENTH {
            return None;
        }
        number = number * 10 + u64::from(digit.saturating_sub(b'0'));
    }
    (number <= GREATEST).then_some(number)
}

/// The bytes that a string, written with its quotes, stands for.
#[tactic(auto, unfolding(crate::specs::Literal::string_value))]
pub fn string_value(alloc: Global, text: &[u8]) -> Result<Vec<u8>, NoMemory>
    ensures value { IfOk result (λ value. value.items ≡ spec.string_value text.now) }
{
    let mut value = Vec::new(alloc);
    let mut escaped = false;
    for byte in inside(text) {
        if escaped {
            value.push(meaning(*byte))?;
            escaped = false;
        } else if *byte == b'\\' {
            escaped = true;
        } else {
            value.push(*byte)?;
        }
    }
    Ok(value)
}

/// A text without its first and its last byte.
fn inside(text: &[u8]) -> &[u8]
    ensures inside { result.now ≡ spec.inside text.now }
{
    if text.len() < 2 {
        return b"";
    }
    &text[1..text.len() - 1]
}

#[tactic(auto, unfolding(crate::specs::Literal::meaning))]
fn meaning(byte: u8) -> u8
    ensures { result ≡ spec.meaning byte }
{
    match byte {
        b'n' => b'\n',
        b't' => b'\t',
        _ => byte,
    }
}
