//! AARP packets.

use crate::hex_lines::put_bytes;
use aarp::{Function, Packet};
use at_base::{Addr, Hw};
use case_words::{Answer, Stop, Words, put_hw, yes_or_no};

fn function(words: &mut Words<'_>) -> Result<Function, Stop> {
    Ok(match words.word() {
        "request" => Function::Request,
        "response" => Function::Response,
        "probe" => Function::Probe,
        _ => return Err(Stop::Unclear),
    })
}

fn function_word(function: Function) -> &'static str {
    match function {
        Function::Request => "request",
        Function::Response => "response",
        Function::Probe => "probe",
    }
}

/// A station after a word, as `from 020000000005 10.7`.
fn station(words: &mut Words<'_>, name: &str) -> Result<(Hw, Addr), Stop> {
    words.expect(name)?;
    let hw = words.hw()?;
    Ok((hw, words.addr()?))
}

/// A packet, as `probe from 020000000005 10.7 to 000000000000 10.7`.
fn packet(words: &mut Words<'_>) -> Result<Packet, Stop> {
    let function = function(words)?;
    let (source_hw, source) = station(words, "from")?;
    let (target_hw, target) = station(words, "to")?;
    Ok(Packet {
        function,
        source_hw,
        source,
        target_hw,
        target,
    })
}

/// Appends a packet.
pub(crate) fn put_packet(bytes: &[u8], text: &mut String) -> Answer {
    let packet = Packet::read(bytes)?;
    let function = function_word(packet.function);
    let (source, target) = (packet.source, packet.target);
    write!(text, "{function} from ")?;
    put_hw(text, packet.source_hw)?;
    write!(text, " {source} to ")?;
    put_hw(text, packet.target_hw)?;
    writeln!(text, " {target}")?;
    Ok(())
}

/// Writes a packet.
pub(crate) fn write(mut words: Words<'_>, text: &mut String) -> Answer {
    let packet = packet(&mut words)?;
    put_bytes(text, &packet.write())?;
    Ok(())
}

/// Whether two packets are equal.
pub(crate) fn compare(mut words: Words<'_>, text: &mut String) -> Answer {
    let first = packet(&mut words)?;
    words.expect("equals")?;
    let equal = first == packet(&mut words)? && first.clone()? == first;
    writeln!(text, "{}", yes_or_no(equal))?;
    Ok(())
}
