//! Bytes in hexadecimal digits.

ghost use Rattle.std.specs.Prelude.{◌≡◌, ◌<◌, ◌∷◌, ◌+◌, Some, None, length};
ghost use Rattle.std.specs.Prelude.{IfOk, IfSome, IfNone, IsOkUnless};
ghost use Rattle.std.specs.Result.{result_ok};
ghost use Rattle.text.specs.Words as words_spec;
ghost use Rattle.text.specs.Words.{given};
ghost use Rattle.toml.specs.View.{view};
ghost use Rattle.file_entries.specs.Values as spec;

use crate::value::text;
use crate::why::Why;
use at_base::{Bytes, Error, Hw};
use std::alloc::Global;
use text::hex::{nibble, pairs};
use toml::Value;

/// The byte of the first two hexadecimal digits, and the digits after them.
fn first_pair(digits: &[u8]) -> Option<(u8, &[u8])>
    requires { 0 < length digits.now }
    ensures some { IfSome result (λ x.
        words_spec.pairs digits.now ≡ given (words_spec.pairs x.1.now) (λ more. Some (x.0 ∷ more))) }
    ensures none { IfNone result (words_spec.pairs digits.now ≡ None) }
    ensures shorter { IfSome result (λ x. length digits.now ≡ length x.1.now + 2) }
{
    match digits {
        [high, low, rest @ ..] => match (nibble(*high), nibble(*low)) {
            (Some(high), Some(low)) => Some((high * 16 + low, rest)),
            _ => None,
        },
        _ => None,
    }
}

/// The six bytes of twelve hexadecimal digits.
fn six_bytes(digits: &[u8]) -> Option<[u8; 6]>
    requires { length digits.now ≡ 12 }
    ensures { result ≡ words_spec.pairs digits.now }
{
    let (a, rest) = first_pair(digits)?;
    let (b, rest) = first_pair(rest)?;
    let (c, rest) = first_pair(rest)?;
    let (d, rest) = first_pair(rest)?;
    let (e, rest) = first_pair(rest)?;
    let (f, rest) = first_pair(rest)?;
    match rest {
        [] => Some([a, b, c, d, e, f]),
        _ => None,
    }
}

/// A hardware address: twelve hexadecimal digits.
pub fn hardware(value: &Value) -> Result<Hw, Why>
    ensures { result_ok result ≡ spec.hardware (view value.now) }
{
    let digits = text(value)?;
    if digits.len() != 12 {
        return Err(Why::NoHardware);
    }
    match six_bytes(digits) {
        Some(bytes) => Ok(Hw(bytes)),
        None => Err(Why::NoHardware),
    }
}

/// An even number of hexadecimal digits. Error: `Memory`.
pub fn hex(alloc: Global, value: &Value) -> Result<Result<Bytes, Why>, Error>
    ensures read { IfOk result (λ x. result_ok x ≡ spec.hex (view value.now)) }
    ensures refused { IsOkUnless result Error.Memory }
{
    let digits = match text(value) {
        Ok(digits) => digits,
        Err(why) => return Ok(Err(why)),
    };
    Ok(pairs(alloc, digits)?.ok_or(Why::NoDigits))
}
