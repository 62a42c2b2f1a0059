//! The stations on a cable.

ghost use Rattle.std.specs.Prelude.{◌≡◌, ◌⊎◌, true, false, IfErr, OnOk};
ghost use Rattle.at_base.specs.declared.error.What.TheVariants.{Cable, Station};
ghost use Rattle.cable_model.specs.Outcomes as spec;

use crate::outlet::Outlet;
use crate::seats::Seats;
use at_base::{Error, What};

/// Whether the station has a seat on the cable.
fn is_seated(seats: &Seats, cable: u8, station: u16) -> bool
    ensures { result ≡ spec.is_seated seats.now cable station }
{
    seats.seat_on(cable, station).is_some()
}

/// Checks that the station has a seat on the cable. Errors: `NoSuch(Cable)` where the cable has no
/// seat, `NoSuch(Station)` where the station has none on it.
pub fn check(seats: &Seats, cable: u8, station: u16) -> Result<(), Error>
    ensures ok { OnOk result ((spec.is_seated seats.now cable station ≡ true)
        × (spec.has_cable seats.now cable ≡ true)) }
    ensures refused { IfErr result (λ e. (spec.is_seated seats.now cable station ≡ false)
        × (((e ≡ Error.NoSuch Cable) × (spec.has_cable seats.now cable ≡ false))
        ⊎ ((e ≡ Error.NoSuch Station) × (spec.has_cable seats.now cable ≡ true)))) }
{
    if !seats.has_cable(cable) {
        return Err(Error::NoSuch(What::Cable));
    }
    if !is_seated(seats, cable, station) {
        return Err(Error::NoSuch(What::Station));
    }
    Ok(())
}

/// The cable of a station's port, or 0 if the station has no such port.
fn cable_of(seats: &Seats, station: u16, port: u8) -> u8
    ensures { result ≡ spec.cable_of seats.now station port }
{
    match seats.seat_by(station, port) {
        None => 0,
        Some(seat) => seat.cable,
    }
}

/// A station, and the cable of one of its ports.
pub fn exit_by(seats: &Seats, station: u16, port: u8) -> Outlet
    ensures { result ≡ record { cable = spec.cable_of seats.now station port; station = station } }
{
    Outlet {
        cable: cable_of(seats, station, port),
        station,
    }
}
