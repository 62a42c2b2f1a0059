//! Laws for the crates that use this one. Each is the contract of a function that does nothing.

ghost use Rattle.std.specs.Prelude.{IsTrue};
ghost use Rattle.station.specs.Lawful.{are_bytes};

/// The elements of a slice of bytes are bytes.
pub fn slices_have_bytes(bytes: &[u8])
    ensures { IsTrue (are_bytes bytes.now) }
{
    let _len = bytes.len();
}
