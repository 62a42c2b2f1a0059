//! Whether two lists of cables are the same one.

ghost use Rattle.std.specs.Prelude.{◌≡◌};
ghost use Rattle.joined.specs.Joining as spec;

use at_base::Name;
use table_image::Cable;

/// Whether these are the same names, byte for byte, in the same order.
fn same_names(one: &[Name], other: &[Name]) -> bool
    ensures { result ≡ spec.same_names one.now other.now }
{
    match one {
        [] => other.is_empty(),
        [a, one @ ..] => match other {
            [] => false,
            [b, other @ ..] => a.as_slice() == b.as_slice() && same_names(one, other),
        },
    }
}

/// Whether the cables have the same range, and the same zones in the same order.
fn same_cable(a: &Cable, b: &Cable) -> bool
    ensures { result ≡ spec.same_cable a.now b.now }
{
    a.start == b.start && a.end == b.end && same_names(a.zones.as_slice(), b.zones.as_slice())
}

/// Whether these are the same cables, in the same order.
pub(crate) fn same_cables(one: &[Cable], other: &[Cable]) -> bool
    ensures { result ≡ spec.same_cables one.now other.now }
{
    match one {
        [] => other.is_empty(),
        [a, one @ ..] => match other {
            [] => false,
            [b, other @ ..] => same_cable(a, b) && same_cables(one, other),
        },
    }
}
