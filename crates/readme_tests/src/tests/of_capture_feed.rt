//! The example of the README of `capture_feed`.

use at_base::Error;
use capture_feed::{Block, Feed, Forms, Listen};
use std::alloc::Global;

/// Counts packets.
#[derive(Drop)]
struct Count {
    packets: u32,
}

impl Listen for Count {
    ghost heard = { λ before block after. Unit {0} };

    fn hear(&mut self, block: &Block) {
        if let Block::Packet(_) = block {
            self.packets = self.packets.wrapping_add(1);
        }
    }
}

/// How many packets a capture has that comes in two pieces.
fn packets_in(alloc: Global, first: &[u8], second: &[u8]) -> Result<u32, Error> {
    let mut feed = Feed::new(alloc, Forms::Either)?;
    let mut count = Count { packets: 0 };
    feed.feed(first, &mut count)?;
    feed.feed(second, &mut count)?;
    Ok(count.packets)
}

/// Whether the capture has one packet wherever it is cut, and a bent one is refused at its block.
pub(super) fn a_cut_capture_has_its_packet(alloc: Global) -> Result<bool, Error> {
    let mut bent = super::of_pcapng::CAPTURE;
    bent[151] = 0x54;
    for place in 0..153_usize {
        let (first, second) = super::of_pcapng::CAPTURE.split_at(place);
        if packets_in(alloc, first, second)? != 1 {
            return Ok(false);
        }
        let (first, second) = bent.split_at(place);
        match packets_in(alloc, first, second) {
            Err(Error::BadCapture(3)) => {}
            Err(error) => return Err(error),
            Ok(_) => return Ok(false),
        }
    }
    Ok(true)
}
