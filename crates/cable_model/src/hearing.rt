//! The stations that receive a frame.

ghost use Rattle.std.specs.Prelude.{◌≡◌};
ghost use Rattle.cable_model.specs.Outcomes as spec;
ghost use Rattle.cable_model.specs.Outcomes.{is_for_as};

use crate::seat::Seat;
use at_base::Hw;
use station::Link;

/// The kind of address that a frame is sent to, as its receivers see it.
pub fn link_of(to: &Hw) -> Link
    ensures { result ≡ spec.link_of to.now }
{
    if to.is_all() {
        return Link::All;
    }
    match to.group() {
        Some(group) => Link::Group(group),
        None => Link::Own,
    }
}

/// Whether a frame with this link, on the seat's cable, is for the seat's station.
pub fn is_for(seat: &Seat, sender: u16, to: &Hw, link: Link) -> bool
    ensures { result ≡ is_for_as link to.now sender seat.now }
{
    match link {
        Link::All => seat.station != sender,
        Link::Group(group) => seat.station != sender && seat.group == Some(group),
        Link::Own => seat.hw.same(to),
    }
}
