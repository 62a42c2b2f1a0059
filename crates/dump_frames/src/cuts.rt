//! How a capture is cut.

ghost use Rattle.std.specs.Prelude.{◌≤◌};

/// How the pieces are cut that a capture is fed in.
#[derive(Clone, Copy)]
pub(crate) struct Cuts {
    /// The bytes of a piece, or 0 where each is as long as it was read.
    piece: usize,
    /// What lengths are made from, if they aren't all alike.
    chance: Option<u32>,
}

impl Cuts {
    /// Pieces of so many bytes, or each as it was read; with a chance, of up to so many.
    pub(crate) fn new(piece: Option<u32>, chance: Option<u32>) -> Cuts {
        Cuts {
            piece: piece.unwrap_or(0) as usize,
            chance,
        }
    }

    /// The length of the next piece, where so many bytes are left: 1 at least.
    pub(crate) fn length(&mut self, left: usize) -> usize
        ensures { result ≤ left }
    {
        let most = if self.piece == 0 { left } else { self.piece };
        let length = match self.chance {
            None => most,
            Some(before) => {
                let chance = before.wrapping_mul(1_664_525).wrapping_add(1_013_904_223);
                self.chance = Some(chance);
                1 + (chance >> 8) as usize % most.max(1)
            }
        };
        length.min(left)
    }
}
