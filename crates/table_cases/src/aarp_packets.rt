//! AARP packets as text, such as `probe 020000000005 10.7 to 000000000000 10.7`.

use aarp::{Function, Packet};
use at_base::{Addr, Hw};
use case_words::{Stop, Words, put_hw};
use std::alloc::AllocError;

fn function(words: &mut Words<'_>) -> Result<Function, Stop> {
    Ok(match words.word() {
        "request" => Function::Request,
        "response" => Function::Response,
        "probe" => Function::Probe,
        _ => return Err(Stop::Unclear),
    })
}

fn function_word(function: Function) -> &'static str {
    match function {
        Function::Request => "request",
        Function::Response => "response",
        Function::Probe => "probe",
    }
}

/// A packet.
pub(crate) fn packet(words: &mut Words<'_>) -> Result<Packet, Stop> {
    let function = function(words)?;
    let source_hw = words.hw()?;
    let source = words.addr()?;
    words.expect("to")?;
    Ok(Packet {
        function,
        source_hw,
        source,
        target_hw: words.hw()?,
        target: words.addr()?,
    })
}

fn put_station(text: &mut String, hw: Hw, addr: Addr) -> Result<(), AllocError> {
    put_hw(text, hw)?;
    write!(text, " {addr}")
}

/// Appends the line of a packet, or of a missing one.
pub(crate) fn put_packet(text: &mut String, packet: Option<Packet>) -> Result<(), AllocError> {
    match packet {
        Some(packet) => {
            let function = function_word(packet.function);
            write!(text, "{function} ")?;
            put_station(text, packet.source_hw, packet.source)?;
            write!(text, " to ")?;
            put_station(text, packet.target_hw, packet.target)?;
            writeln!(text)
        }
        None => writeln!(text, "none"),
    }
}
