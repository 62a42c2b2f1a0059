//! Reading numbers from decimal digits.

ghost use Rattle.std.specs.Prelude.{◌≡◌, ◌≤◌, Some, None, cond, nat_le, true, IfSome};
ghost use Rattle.std.specs.Char.{is_ascii_digit};
ghost use Rattle.std.specs.List.{list_all};
ghost use Rattle.text.specs.Words as spec;

fn all_digits(word: &[u8]) -> bool
    ensures { result ≡ list_all is_ascii_digit word.now }
{
    word.iter().all(|b| b.is_ascii_digit())
}

/// Whether the word is only digits, without a leading 0 (except `0` itself).
fn is_plain(word: &[u8]) -> bool
    ensures { result ≡ spec.is_plain word.now }
{
    match word {
        [] => false,
        [digit] => digit.is_ascii_digit(),
        [first, ..] => *first != b'0' && all_digits(word),
    }
}

/// The value of the digits, if it is at most `max`. Stops at the digit that exceeds `max`.
fn value_up_to(max: u32, digits: &[u8]) -> Option<u32>
    requires { list_all is_ascii_digit digits.now ≡ true }
    ensures { result ≡ cond (nat_le (spec.value digits.now) max) (Some (spec.value digits.now)) None }
{
    let mut value = 0u64;
    for digit in digits {
        value = value * 10 + u64::from(*digit - b'0');
        if value > u64::from(max) {
            return None;
        }
    }
    Some(value as u32)
}

/// The number that the word spells in decimal, if it spells one of at most `max`.
pub fn number(max: u32, word: &[u8]) -> Option<u32>
    ensures value { result ≡ spec.number max word.now }
    ensures few { IfSome result (λ n. n ≤ max) }
{
    if !is_plain(word) {
        return None;
    }
    value_up_to(max, word)
}

/// The number that the word spells in decimal, if it spells one of at most 255.
pub fn byte(word: &[u8]) -> Option<u8>
    ensures { result ≡ spec.byte word.now }
{
    match number(255, word) {
        Some(n) => Some(n as u8),
        None => None,
    }
}
