//! The numbers in places, which count from 1.

ghost use Rattle.std.specs.Prelude.{◌≡◌, ◌<◌, suc};

/// The 1-based number of the part with the 0-based index `k`.
pub(crate) fn from_one(k: usize) -> u32
    requires { k < 256 }
    ensures { result ≡ suc k }
{
    k as u32 + 1
}
