//! The content of AARP responses.

ghost use Rattle.std.specs.Prelude.{◌≡◌, Some};
ghost use Rattle.live_cables.specs.Finding.{answer_of, said};
ghost use Rattle.station.specs.Hearing.{hearing};

use aarp::{Function, Packet};
use at_base::{Addr, Hw};
use station::frames::read_packet;
use station::{Heard, Kind};

/// The content of a response that came on a port: an address and its hardware address.
#[derive(Clone, Copy, Debug)]
pub struct Answer {
    pub port: u8,
    pub source: Addr,
    pub source_hw: Hw,
}

/// The content of a packet that is a response.
fn answer_by(port: u8, packet: &Packet) -> Option<Answer>
    ensures { result ≡ said port (Some packet.now) }
{
    match packet.function {
        Function::Response => Some(Answer {
            port,
            source: packet.source,
            source_hw: packet.source_hw,
        }),
        _ => None,
    }
}

/// The content of a response that a station hears. `None` if the frame is no response.
pub fn answer_in(heard: &Heard<'_>) -> Option<Answer>
    ensures { result ≡ answer_of (hearing heard.now) }
{
    match heard.kind {
        Kind::Ddp => None,
        Kind::Aarp => match read_packet(heard.bytes) {
            Some(packet) => answer_by(heard.port, &packet),
            None => None,
        },
    }
}
