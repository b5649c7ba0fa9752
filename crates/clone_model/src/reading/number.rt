ghost use Rattle.std.specs.Prelude.{ℕ, ◌≡◌, ◌≢◌, ◌<◌, ◌^◌, ◌∷◌, ◌++◌, ◌↔◌, List, IfSome, IsSomeAnd, IsTrue, length, slice_index};
ghost use Rattle.std.specs.Option.{SomeIff};
ghost use Rattle.std.specs.Fmt.{decimal};

use super::split::split_once;

/// The number that the whole text shows in decimal digits, with no zero in front of others.
pub fn number_of(text: &[u8]) -> Option<u64>
    ensures some { IfSome result (λ n. (n < 2 ^ 64) × (text.now ≡ decimal n)) }
    ensures only { (n : ℕ) → n < 2 ^ 64 → text.now ≡ decimal n → result ≡ Some n }
{
    if !is_plain(text) {
        return None;
    }
    str::from_utf8(text).ok()?.parse().ok()
}

/// Whether the text has neither a sign in front nor a zero in front of others.
fn is_plain(text: &[u8]) -> bool
    ensures { IsTrue result
        ↔ ((slice_index text.now 0 ≢ 43) × (slice_index text.now 0 ≡ 48 → length text.now ≡ 1)) }
{
    match text {
        [b'+', ..] => false,
        [b'0', others @ ..] => others.is_empty(),
        _ => true,
    }
}

/// The number before the first blank, and what stands behind that blank.
pub fn leading_number(text: &[u8]) -> Option<(u64, &[u8])>
    ensures some { IfSome result
        (λ found. (found.0 < 2 ^ 64) × (text.now ≡ decimal found.0 ++ 32 ∷ found.1.now)) }
    ensures only { (n : ℕ) (rest : List ℕ) → n < 2 ^ 64 → text.now ≡ decimal n ++ 32 ∷ rest
        → IsSomeAnd result (λ found. (found.0 ≡ n) × (found.1.now ≡ rest)) }
{
    let (word, rest) = split_once(text, b' ')?;
    Some((number_of(word)?, rest))
}

/// The number in four bytes, where it is below 2^32.
pub fn as_u32(number: u64) -> Option<u32>
    ensures { SomeIff result (number < 2 ^ 32) number }
{
    u32::try_from(number).ok()
}
