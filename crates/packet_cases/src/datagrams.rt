//! Datagrams, and the replies to echo requests.

use crate::hex_lines::{put_bytes, put_written};
use at_base::Addr;
use case_words::{Answer, Stop, Words, yes_or_no};
use ddp::{Header, View, set_hops};
use std::alloc::Global;

/// Appends a datagram.
pub(crate) fn put_view(bytes: &[u8], text: &mut String) -> Answer {
    let view = View::read(bytes)?;
    let (length, hops, kind) = (view.length(), view.hops(), view.kind());
    let checksum = view.checksum();
    writeln!(
        text,
        "length {length} hops {hops} checksum {checksum:04X} type {kind}"
    )?;
    let (source, from) = (view.source(), view.source_socket());
    let (target, to) = (view.target(), view.target_socket());
    writeln!(text, "from {source} socket {from} to {target} socket {to}")?;
    write!(text, "data ")?;
    put_bytes(text, view.payload())?;
    match view.check() {
        Ok(()) => writeln!(text, "good checksum")?,
        Err(error) => writeln!(text, "{error}")?,
    }
    Ok(())
}

/// Appends the bytes of a datagram without its padding.
pub(crate) fn put_whole(bytes: &[u8], text: &mut String) -> Answer {
    put_bytes(text, View::read(bytes)?.as_bytes())?;
    Ok(())
}

/// Appends the data of the reply to a datagram, if it is an echo request.
pub(crate) fn put_echo(alloc: Global, bytes: &[u8], text: &mut String) -> Answer {
    match echo::reply(alloc, &View::read(bytes)?)? {
        Some(data) => put_bytes(text, data.as_slice())?,
        None => writeln!(text, "no reply")?,
    }
    Ok(())
}

/// Sets the hop count, and appends the bytes.
pub(crate) fn put_hops(bytes: &mut Vec<u8>, hops: u8, text: &mut String) -> Answer {
    if bytes.len() < 13 || hops > 15 {
        return Err(Stop::Unclear);
    }
    set_hops(bytes.as_mut_slice(), hops);
    put_bytes(text, bytes.as_slice())?;
    Ok(())
}

/// An address and a socket at it, after a word.
fn end(words: &mut Words<'_>, name: &str) -> Result<(Addr, u8), Stop> {
    words.expect(name)?;
    let addr = words.addr()?;
    Ok((addr, words.named("socket")?))
}

/// A header, as `summed no from 10.7 socket 128 to 30.5 socket 4 type 4`.
fn header(words: &mut Words<'_>) -> Result<Header, Stop> {
    words.expect("summed")?;
    let summed = words.yes_or_no()?;
    let (source, source_socket) = end(words, "from")?;
    let (target, target_socket) = end(words, "to")?;
    let kind = words.named("type")?;
    Ok(Header {
        summed,
        target,
        source,
        target_socket,
        source_socket,
        kind,
    })
}

/// Writes a datagram.
pub(crate) fn write(alloc: Global, mut words: Words<'_>, text: &mut String) -> Answer {
    let header = header(&mut words)?;
    words.expect("data")?;
    let data = words.bytes(alloc)?;
    put_written(text, ddp::write(alloc, &header, data.as_slice())?)?;
    Ok(())
}

/// Whether two headers are equal.
pub(crate) fn headers(mut words: Words<'_>, text: &mut String) -> Answer {
    let first = header(&mut words)?;
    words.expect("equals")?;
    let equal = first == header(&mut words)? && first.clone()? == first;
    writeln!(text, "{}", yes_or_no(equal))?;
    Ok(())
}
