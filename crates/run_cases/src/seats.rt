//! The seats of stations on cables.

use at_base::Hw;
use cable_model::{Seat, Seats};
use case_words::{Answer, Stop, Words, put_hw};
use std::alloc::{AllocError, Global};

/// Two routers, stations 0 and 1, a node on the first cable and two on the last, and one more
/// station on the second.
pub(crate) const EIGHT: [Seat; 8] = [
    Seat {
        cable: 0,
        station: 0,
        port: 0,
        hw: Hw([2, 0, 0, 0, 0, 1]),
        group: None,
    },
    Seat {
        cable: 1,
        station: 0,
        port: 1,
        hw: Hw([2, 0, 0, 0, 0, 2]),
        group: None,
    },
    Seat {
        cable: 1,
        station: 1,
        port: 0,
        hw: Hw([2, 0, 0, 0, 0, 3]),
        group: None,
    },
    Seat {
        cable: 2,
        station: 1,
        port: 1,
        hw: Hw([2, 0, 0, 0, 0, 4]),
        group: None,
    },
    Seat {
        cable: 0,
        station: 2,
        port: 0,
        hw: Hw([2, 0, 0, 0, 0, 5]),
        group: Some(56),
    },
    Seat {
        cable: 2,
        station: 3,
        port: 0,
        hw: Hw([2, 0, 0, 0, 0, 6]),
        group: Some(118),
    },
    Seat {
        cable: 2,
        station: 4,
        port: 0,
        hw: Hw([9, 0, 7, 0, 0, 253]),
        group: Some(252),
    },
    Seat {
        cable: 1,
        station: 5,
        port: 0,
        hw: Hw([2, 0, 0, 0, 0, 7]),
        group: None,
    },
];

/// Two stations with one hardware address, the greater one first, and a router.
pub(crate) const TWINS: [Seat; 3] = [
    Seat {
        cable: 2,
        station: 4,
        port: 0,
        hw: Hw([2, 0, 0, 0, 0, 6]),
        group: Some(0),
    },
    Seat {
        cable: 2,
        station: 3,
        port: 0,
        hw: Hw([2, 0, 0, 0, 0, 6]),
        group: Some(118),
    },
    Seat {
        cable: 2,
        station: 1,
        port: 1,
        hw: Hw([2, 0, 0, 0, 0, 4]),
        group: None,
    },
];

/// The seats of the three-cable internet: its two routers, stations 0 and 1, and its two nodes.
pub(crate) const THREE: [Seat; 6] = [
    Seat {
        cable: 0,
        station: 0,
        port: 0,
        hw: Hw([2, 0, 0, 0, 0, 1]),
        group: None,
    },
    Seat {
        cable: 1,
        station: 0,
        port: 1,
        hw: Hw([2, 0, 0, 0, 0, 2]),
        group: None,
    },
    Seat {
        cable: 1,
        station: 1,
        port: 0,
        hw: Hw([2, 0, 0, 0, 0, 3]),
        group: None,
    },
    Seat {
        cable: 2,
        station: 1,
        port: 1,
        hw: Hw([2, 0, 0, 0, 0, 4]),
        group: None,
    },
    Seat {
        cable: 0,
        station: 2,
        port: 0,
        hw: Hw([2, 0, 0, 0, 0, 5]),
        group: Some(56),
    },
    Seat {
        cable: 2,
        station: 3,
        port: 0,
        hw: Hw([2, 0, 0, 0, 0, 6]),
        group: Some(118),
    },
];

fn put_seat(text: &mut String, seat: &Seat) -> Result<(), AllocError> {
    let (cable, station, port) = (seat.cable, seat.station, seat.port);
    write!(text, "cable {cable} station {station} port {port} ")?;
    put_hw(text, seat.hw)?;
    match seat.group {
        Some(group) => writeln!(text, " group {group}"),
        None => writeln!(text, " no group"),
    }
}

fn put_found(text: &mut String, found: Option<Seat>) -> Answer {
    match found {
        Some(seat) => put_seat(text, &seat)?,
        None => writeln!(text, "none")?,
    }
    Ok(())
}

fn put_index(text: &mut String, index: Option<usize>) -> Answer {
    match index {
        Some(index) => writeln!(text, "{index}")?,
        None => writeln!(text, "none")?,
    }
    Ok(())
}

/// Appends the indexes of the seats on a cable.
fn put_on(text: &mut String, seats: &Seats, cable: u8) -> Answer {
    let has = case_words::yes_or_no(seats.has_cable(cable));
    write!(text, "has it {has}:")?;
    for index in seats.on(cable) {
        write!(text, " {index}")?;
    }
    writeln!(text)?;
    Ok(())
}

fn put_all(text: &mut String, seats: &Seats) -> Answer {
    for index in 0..seats.len() {
        put_found(text, seats.get(index))?;
    }
    put_found(text, seats.get(seats.len()))
}

/// The seats that a word names.
fn seats_of(alloc: Global, words: &mut Words<'_>) -> Result<Seats, Stop> {
    Ok(match words.word() {
        "eight" => Seats::of(alloc, &EIGHT)?,
        "twins" => Seats::of(alloc, &TWINS)?,
        "three" => Seats::of(alloc, &THREE)?,
        "late" => Seats::of(alloc, &[EIGHT[5], EIGHT[0]])?,
        _ => return Err(Stop::Unclear),
    })
}

/// Answers a question about seats.
pub(crate) fn answer(alloc: Global, mut words: Words<'_>, text: &mut String) -> Answer {
    let seats = seats_of(alloc, &mut words)?;
    match words.word() {
        "all" => put_all(text, &seats),
        "on" => put_on(text, &seats, words.number()?),
        "index" => {
            let cable = words.named("cable")?;
            put_index(text, seats.index_on(cable, words.named("station")?))
        }
        "index-by" => {
            let station = words.named("station")?;
            put_index(text, seats.index_by(station, words.named("port")?))
        }
        "seat" => {
            let cable = words.named("cable")?;
            put_found(text, seats.seat_on(cable, words.named("station")?))
        }
        "seat-by" => {
            let station = words.named("station")?;
            put_found(text, seats.seat_by(station, words.named("port")?))
        }
        _ => Err(Stop::Unclear),
    }
}
