//! Splitting text at a byte.

ghost use Rattle.std.specs.Prelude.{◌≡◌, ◌<◌, ◌==◌, ◌∷◌, length, position, IfSome};
ghost use Rattle.std.specs.List.{slice_split};
ghost use Rattle.text.specs.Cuts.{parts_left};

/// The index of the first `byte` in the text.
pub fn place_of(byte: u8, text: &[u8]) -> Option<usize>
    ensures { result ≡ position (λ b. b == byte) text.now }
{
    text.iter().position(|b| *b == byte)
}

/// The text before the first `byte`, and the text after it; the whole text and `None` if the byte
/// doesn't occur.
pub fn cut(byte: u8, text: &[u8]) -> (&[u8], Option<&[u8]>)
    ensures parts { slice_split (λ b. b == byte) text.now
        ≡ result.0.now ∷ parts_left byte result.1 }
    ensures shorter { IfSome result.1 (λ rest. length rest.now < length text.now) }
{
    match place_of(byte, text) {
        Some(k) => (&text[..k], Some(&text[k + 1..])),
        None => (text, None),
    }
}
