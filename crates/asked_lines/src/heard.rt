//! The datagrams that were heard.

use ddp::View;
use ethertalk::Frame;
use station::Kind;
use station::frames::read_datagram;

/// The datagram in the bytes of a frame, if there is one.
pub(crate) fn datagram_in(bytes: &[u8]) -> Option<View<'_>> {
    match Frame::read(bytes) {
        Ok(frame) => match frame.kind {
            Kind::Ddp => read_datagram(frame.packet),
            Kind::Aarp => None,
        },
        Err(_) => None,
    }
}
