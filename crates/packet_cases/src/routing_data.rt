//! Packets of routing data.

use case_words::{Answer, Stop, Words, yes_or_no};
use rtmp::{AnyTuple, DataPacket, Horizon, Nonextended, Request, Tuple};

/// Appends a packet.
pub(crate) fn put_packet(bytes: &[u8], text: &mut String) -> Answer {
    let packet = DataPacket::read(bytes)?;
    let (router, own) = (packet.router(), packet.own());
    writeln!(text, "router {router} on {own}")?;
    for tuple in packet.tuples() {
        let (range, distance) = (tuple.range, tuple.distance);
        writeln!(text, "{range} distance {distance}")?;
    }
    Ok(())
}

/// Appends a packet with its tuples of either kind, and what is heard of nonextended ones as ranges.
pub(crate) fn put_all(bytes: &[u8], text: &mut String) -> Answer {
    let packet = DataPacket::read(bytes)?;
    for tuple in packet.all() {
        match tuple {
            AnyTuple::Extended(Tuple { range, distance }) => {
                writeln!(text, "{range} distance {distance}")?;
            }
            AnyTuple::Nonextended(net, distance) => {
                writeln!(text, "network {net} distance {distance}")?;
            }
        }
    }
    for tuple in packet.heard(Nonextended::AsRanges) {
        let (range, distance) = (tuple.range, tuple.distance);
        writeln!(text, "heard {range} distance {distance}")?;
    }
    Ok(())
}

/// Appends a request, and the byte that is written for it.
pub(crate) fn put_request(bytes: &[u8], text: &mut String) -> Answer {
    let request = Request::read(bytes)?;
    let [function] = request.write();
    match request {
        Request::Router => writeln!(text, "router, written {function}")?,
        Request::Routes(Horizon::Split) => writeln!(text, "routes, written {function}")?,
        Request::Routes(Horizon::Whole) => writeln!(text, "all routes, written {function}")?,
    }
    Ok(())
}

/// A tuple, as `10-19 distance 1`.
fn tuple(words: &mut Words<'_>) -> Result<Tuple, Stop> {
    let range = words.range()?;
    let distance = words.named("distance")?;
    Ok(Tuple { range, distance })
}

/// Whether two tuples are equal.
pub(crate) fn compare(mut words: Words<'_>, text: &mut String) -> Answer {
    let first = tuple(&mut words)?;
    words.expect("equals")?;
    let equal = first == tuple(&mut words)? && first.clone()? == first;
    writeln!(text, "{}", yes_or_no(equal))?;
    Ok(())
}
