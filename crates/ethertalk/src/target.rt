//! The frames that a station hears.

ghost use Rattle.std.specs.Prelude.{◌≡◌};
ghost use Rattle.ethertalk.specs.Targets as spec;

use at_base::Hw;
use station::Link;

/// How the station with this hardware address, and with the group of its zone, if it has one, hears a
/// frame to the target; `None` if the frame isn't for the station. A router hears no group.
///
/// Inside AppleTalk, the chapters on AARP and ZIP.
pub fn link_for(own: &Hw, group: Option<u8>, to: &Hw) -> Option<Link>
    ensures { result ≡ spec.link_for own.now group to.now }
{
    if to.is_all() {
        return Some(Link::All);
    }
    match to.group() {
        Some(sent) => (group == Some(sent)).then_some(Link::Group(sent)),
        None => own.same(to).then_some(Link::Own),
    }
}
