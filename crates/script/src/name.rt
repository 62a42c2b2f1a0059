//! The names in a request, as OBJECT:TYPE@ZONE.

ghost use Rattle.std.specs.Prelude.{IfSome, None, Some, cond, length, nat_le, ◌&&◌, ◌<◌, ◌≡◌};
ghost use Rattle.script.specs.Lines as spec;
ghost use Rattle.script.specs.Lines.{last_place};

use at_base::{Addr, Text32};
use nbp::Tuple;
use std::marker::Model;
use text::cut::place_of;

/// The index of the last occurrence of the byte.
fn last_place_of(byte: u8, text: &[u8]) -> Option<usize>
    ensures place { result ≡ last_place byte text.now }
    ensures inside { IfSome result (λ k. k < length text.now) }
{
    let mut last = None;
    for (k, b) in text.iter().enumerate() {
        if *b == byte {
            last = Some(k);
        }
    }
    last
}

/// The parts of a name in place. Contracts see them as lists of bytes.
#[derive(Debug, Drop)]
struct Parts<'a> {
    object: &'a [u8],
    kind: &'a [u8],
    zone: &'a [u8],
}

impl<'a> Model for Parts<'a> {
    ghost use Rattle.script.specs.Lines as spec;

    ghost Value = { spec.Parts };

    ghost view = { λ p. record { object = p.object.now; kind = p.kind.now; zone = p.zone.now } };
}

/// Cuts a text at its first `:` and its last `@`. `None` unless the `:` comes first.
fn cut_name(text: &[u8]) -> Option<Parts<'_>>
    ensures { result ≡ spec.parts text.now }
{
    let colon = place_of(b':', text)?;
    let at = last_place_of(b'@', text)?;
    if at <= colon {
        return None;
    }
    Some(Parts {
        object: &text[..colon],
        kind: &text[colon + 1..at],
        zone: &text[at + 1..],
    })
}

/// A text of at least `least` and at most 32 bytes.
fn text_of(bytes: &[u8], least: usize) -> Option<Text32>
    ensures { result ≡ cond (nat_le least (length bytes.now) && nat_le (length bytes.now) 32)
        (Some bytes.now) None }
{
    if bytes.len() < least {
        return None;
    }
    match Text32::new(bytes) {
        Ok(text) => Some(text),
        Err(_) => None,
    }
}

/// The tuple of a request for the names of a text. `None` if the text isn't OBJECT:TYPE@ZONE, or a
/// part of it has too few or too many bytes.
pub(crate) fn name(text: &[u8]) -> Option<Tuple>
    ensures { result ≡ spec.name text.now }
{
    let Some(parts) = cut_name(text) else {
        return None;
    };
    match (
        text_of(parts.object, 1),
        text_of(parts.kind, 1),
        text_of(parts.zone, 0),
    ) {
        (Some(object), Some(kind), Some(zone)) => Some(Tuple {
            at: Addr::NONE,
            socket: 0,
            enumerator: 0,
            object,
            kind,
            zone,
        }),
        _ => None,
    }
}
