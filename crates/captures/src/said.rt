//! Where the bytes that entries name are kept.

ghost use Rattle.std.specs.Prelude.{◌≡◌};
ghost use Rattle.cable_model.specs.Logs.{bytes_at};

/// Keeps the bytes that entries of a transcript name by number.
pub trait Said {
    ghost use Rattle.std.specs.Prelude.{List, ℕ};

    // The bytes, by their numbers.
    ghost kept: { Self → List (List ℕ) };

    /// The bytes with a number, and none for a number that no entry has. Allocates nothing.
    fn bytes(&self, number: u32) -> &[u8]
        ensures { result.now ≡ bytes_at (kept self.now) number };
}
