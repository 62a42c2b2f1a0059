//! Reading bytes from hexadecimal digits.

ghost use Rattle.std.specs.Prelude.{◌≡◌, ◌<◌, ◌∷◌, None, Some, is_some, length};
ghost use Rattle.std.specs.Prelude.{IfNone, IfOk, IfSome, IsOkUnless};
ghost use Rattle.text.specs.Words as spec;
ghost use Rattle.text.specs.Words.{given};

use at_base::{Bytes, Error};
use std::alloc::Global;

/// The value of a hexadecimal digit, 0 to 15, in either case; `None` for any other byte.
pub fn nibble(digit: u8) -> Option<u8>
    ensures value { result ≡ spec.nibble digit }
    ensures low { IfSome result (λ n. n < 16) }
{
    match char::from(digit).to_digit(16) {
        Some(n) => Some(n as u8),
        None => None,
    }
}

/// The byte that the first two digits spell, and the digits after them.
fn first_pair(digits: &[u8]) -> Option<(u8, &[u8])>
    requires { 0 < length digits.now }
    ensures some { IfSome result (λ x. spec.pairs digits.now
        ≡ given (spec.pairs x.1.now) (λ more. Some (x.0 ∷ more))) }
    ensures none { IfNone result (spec.pairs digits.now ≡ None) }
    ensures shorter { IfSome result (λ x. length x.1.now < length digits.now) }
{
    match digits {
        [high, low, rest @ ..] => match (nibble(*high), nibble(*low)) {
            (Some(high), Some(low)) => Some((high * 16 + low, rest)),
            _ => None,
        },
        _ => None,
    }
}

/// Whether the text is pairs of hexadecimal digits.
fn are_pairs(digits: &[u8]) -> bool
    ensures { result ≡ is_some (spec.pairs digits.now) }
{
    let mut rest = digits;
    while rest.len() > 0 {
        let Some((_byte, more)) = first_pair(rest) else {
            return false;
        };
        rest = more;
    }
    true
}

/// The bytes that pairs of hexadecimal digits in either case spell; `None` if the text isn't such
/// pairs, for which no memory is needed. No digits give no bytes. Error: `Memory`.
pub fn pairs(alloc: Global, digits: &[u8]) -> Result<Option<Bytes>, Error>
    ensures read { IfOk result (λ x. x ≡ spec.pairs digits.now) }
    ensures none { spec.pairs digits.now ≡ None → result ≡ Ok None }
    ensures refused { IsOkUnless result Error.Memory }
{
    if !are_pairs(digits) {
        return Ok(None);
    }
    let mut bytes = Vec::with_capacity(alloc, digits.len() / 2)?;
    let mut rest = digits;
    while rest.len() > 0 {
        let Some((byte, more)) = first_pair(rest) else {
            return Ok(None);
        };
        bytes.push(byte)?;
        rest = more;
    }
    Ok(Some(Bytes::from_vec(bytes)))
}
