// Bytes, cut at a byte.
ghost use Rattle.std.specs.Prelude.{◌≡◌, ◌<◌, ◌==◌, ◌∷◌, [], length, position, MatchOption, IfSome};
ghost use Rattle.std.specs.List.{slice_split};

/// What stands before the first of these bytes that is this one, and what stands behind it.
pub(crate) fn cut(bytes: &[u8], at: u8) -> Option<(&[u8], &[u8])>
    ensures parts { MatchOption result (slice_split (λ b. b == at) bytes.now ≡ bytes.now ∷ [])
        (λ x. slice_split (λ b. b == at) bytes.now ≡ x.0.now ∷ slice_split (λ b. b == at) x.1.now) }
    ensures shorter { IfSome result (λ x. length x.1.now < length bytes.now) }
{
    match place_of(bytes, at) {
        Some(place) => Some((&bytes[..place], &bytes[place + 1..])),
        None => None,
    }
}

/// The place of the first of these bytes that is this one.
fn place_of(bytes: &[u8], at: u8) -> Option<usize>
    ensures { result ≡ position (λ b. b == at) bytes.now }
{
    bytes.iter().position(|byte| *byte == at)
}
