//! The bytes of what isn't whole.

ghost use Rattle.std.specs.Prelude.{◌≡◌, ◌++◌, ◌≤◌, ◌<◌, [], length, vec_capacity};
ghost use Rattle.pcapng.specs.Heads.{max_block};

/// Fills up what was kept to this many bytes from the piece, and returns what is left of the piece.
pub(crate) fn fill<'a>(kept: &mut Vec<u8>, piece: &'a [u8], len: usize) -> &'a [u8]
    requires few { len ≤ max_block }
    requires room { max_block ≤ vec_capacity kept.old }
    ensures all { kept.new.items ++ result.now ≡ kept.old.items ++ piece.now }
    ensures most { length kept.old.items ≤ len → length kept.new.items ≤ len }
    ensures same { len ≤ length kept.old.items → kept.new.items ≡ kept.old.items }
    ensures rest { length kept.new.items < len → result.now ≡ [] }
    ensures room { vec_capacity kept.old ≤ vec_capacity kept.new }
{
    let missing = len.saturating_sub(kept.len()).min(piece.len());
    let (front, rest) = piece.split_at(missing);
    kept.extend_from_slice(front).unwrap();
    rest
}
