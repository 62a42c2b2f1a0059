//! Addresses written in words.

ghost use Rattle.std.specs.Prelude.{◌≡◌, ◌==◌, ◌∷◌, [], None, IfNone, IfSome};
ghost use Rattle.std.specs.List.{slice_split};
ghost use Rattle.text.specs.Words as spec;

use crate::cut::cut;
use crate::number::{byte, number};
use at_base::Addr;

/// The two parts of the word, if it has exactly one dot.
fn halves(word: &[u8]) -> Option<(&[u8], &[u8])>
    ensures some { IfSome result (λ x. slice_split (λ b. b == 46) word.now
        ≡ x.0.now ∷ x.1.now ∷ []) }
    ensures none { IfNone result (spec.address word.now ≡ None) }
{
    let (front, rest) = cut(b'.', word);
    let Some(rest) = rest else {
        return None;
    };
    let (back, more) = cut(b'.', rest);
    match more {
        Some(_) => None,
        None => Some((front, back)),
    }
}

/// The address that the word spells, if any: the network and the node in decimal, as `10.7`.
pub fn address(word: &[u8]) -> Option<Addr>
    ensures { result ≡ spec.address word.now }
{
    let Some((net, node)) = halves(word) else {
        return None;
    };
    match (number(65535, net), byte(node)) {
        (Some(net), Some(node)) => Some(Addr {
            net: net as u16,
            node,
        }),
        _ => None,
    }
}
