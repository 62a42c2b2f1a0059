//! Reads words other than numbers and addresses.

ghost use Rattle.std.specs.Prelude.{◌≡◌, IfOk, IsOkUnless, IsSome, OnErr};
ghost use Rattle.at_base.specs.Text as text_spec;
ghost use Rattle.script.specs.Words as spec;

use at_base::{Addr, Bytes, Error};
use std::alloc::Global;
use text::address;
use text::hex::pairs;

fn is_only(byte: u8, word: &[u8]) -> bool
    ensures { result ≡ text_spec.is_only byte word.now }
{
    match word {
        [b] => *b == byte,
        _ => false,
    }
}

/// Whether the word is a dash, which means no value.
pub(crate) fn is_dash(word: &[u8]) -> bool
    ensures { result ≡ spec.is_dash word.now }
{
    is_only(b'-', word)
}

/// An address, or `Some(None)` for a dash.
pub(crate) fn via(word: &[u8]) -> Option<Option<Addr>>
    ensures { result ≡ spec.via word.now }
{
    if is_dash(word) {
        return Some(None);
    }
    match address(word) {
        Some(router) => Some(Some(router)),
        None => None,
    }
}

/// 0 or 1.
pub(crate) fn flag(word: &[u8]) -> Option<bool>
    ensures { result ≡ spec.flag word.now }
{
    match word {
        [b'0'] => Some(false),
        [b'1'] => Some(true),
        _ => None,
    }
}

/// The bytes of at least one pair of hexadecimal digits, or no bytes for a dash; `None` for any
/// other word, which needs no memory. Error: `Memory`.
pub(crate) fn bytes(alloc: Global, word: &[u8]) -> Result<Option<Bytes>, Error>
    ensures read { IfOk result (λ x. x ≡ spec.bytes word.now) }
    ensures needed { OnErr result (IsSome (spec.bytes word.now)) }
    ensures refused { IsOkUnless result Error.Memory }
{
    if word.is_empty() {
        return Ok(None);
    }
    if is_dash(word) {
        return Ok(Some(Bytes::from_vec(Vec::new(alloc))));
    }
    pairs(alloc, word)
}
