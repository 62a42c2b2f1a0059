//! The bench of a case, with which its commands are carried out.

use crate::edits::changed;
use crate::{
    aarp_packets, addresses, cable_info, constants, datagrams, errors, fields, names_asked,
    routing_data, texts, transactions, zone_lists, zone_packets,
};
use at_base::{Error, Name};
use case_words::{Answer, Bench, Stop, Words};
use std::alloc::Global;
use zip_zones::ZoneTable;

/// The kind of packet as which the bytes of a case are read.
#[derive(Clone, Copy)]
enum Protocol {
    Datagram,
    Echo,
    Aarp,
    Rtmp,
    RtmpAll,
    RtmpRequest,
    Atp,
    Nbp,
    Zip,
}

/// The bytes that were read last and their protocol, the zones of the case, and a router's lists.
#[derive(Drop)]
pub(crate) struct Packets {
    alloc: Global,
    protocol: Protocol,
    bytes: Vec<u8>,
    zones: Vec<Name>,
    lists: Option<ZoneTable>,
}

fn protocol_of(word: &str) -> Option<Protocol> {
    Some(match word {
        "datagram" => Protocol::Datagram,
        "echo" => Protocol::Echo,
        "AARP" => Protocol::Aarp,
        "RTMP" => Protocol::Rtmp,
        "RTMP-all" => Protocol::RtmpAll,
        "RTMP-request" => Protocol::RtmpRequest,
        "ATP" => Protocol::Atp,
        "NBP" => Protocol::Nbp,
        "ZIP" => Protocol::Zip,
        _ => return None,
    })
}

/// Appends the result of reading the bytes.
fn put_read(alloc: Global, protocol: Protocol, bytes: &[u8], text: &mut String) -> Answer {
    match protocol {
        Protocol::Datagram => datagrams::put_view(bytes, text),
        Protocol::Echo => datagrams::put_echo(alloc, bytes, text),
        Protocol::Aarp => aarp_packets::put_packet(bytes, text),
        Protocol::Rtmp => routing_data::put_packet(bytes, text),
        Protocol::RtmpAll => routing_data::put_all(bytes, text),
        Protocol::RtmpRequest => routing_data::put_request(bytes, text),
        Protocol::Atp => transactions::put_packet(bytes, text),
        Protocol::Nbp => names_asked::put_packet(bytes, text),
        Protocol::Zip => zone_packets::put_packet(bytes, text),
    }
}

/// Appends the result of reading the first bytes, for each number of them.
fn put_cuts(alloc: Global, protocol: Protocol, bytes: &[u8], text: &mut String) -> Answer {
    for len in 0..bytes.len() {
        write!(text, "{len} ")?;
        match put_read(alloc, protocol, &bytes[..len], text) {
            Ok(()) => {}
            Err(Stop::Refused(Error::Memory)) => return Err(Stop::Refused(Error::Memory)),
            Err(stop) => writeln!(text, "{stop}")?,
        }
    }
    Ok(())
}

/// Carries out a command that changes nothing and needs no packet: on numbers, texts and addresses.
fn act_on_values(alloc: Global, word: &str, words: Words<'_>, text: &mut String) -> Answer {
    match word {
        "range" => addresses::range(words, text),
        "address" => addresses::address(words, text),
        "hardware" => addresses::hardware(words, text),
        "group" => addresses::group(words, text),
        "name" => texts::name(alloc, words, text),
        "zone-name" => texts::zone_name(alloc, words, text),
        "text" => texts::short_text(alloc, words, text),
        "object-or-type" => texts::entity(alloc, words, text),
        "pattern" => texts::pattern(alloc, words, text),
        "checksum" => texts::checksum(alloc, words, text),
        "copy" => texts::copy(alloc, words, text),
        "vector" => texts::vector(alloc, words, text),
        "error" => errors::error(words, text),
        "errors" => errors::errors(words, text),
        "place" => errors::place(words, text),
        "faults" => errors::faults(words, text),
        "field" => fields::act(alloc, words, text),
        "number" => constants::number(words, text),
        "headers" => datagrams::headers(words, text),
        "packets" => aarp_packets::compare(words, text),
        "tuples" => routing_data::compare(words, text),
        "user" => zone_lists::put_request(alloc, words, text),
        _ => Err(Stop::Unclear),
    }
}

impl Packets {
    /// Reads other bytes.
    fn begin(&mut self, protocol: Protocol, mut words: Words<'_>, text: &mut String) -> Answer {
        self.bytes = words.bytes(self.alloc)?;
        self.protocol = protocol;
        put_read(self.alloc, protocol, self.bytes.as_slice(), text)
    }

    /// Reads the bytes with changes.
    fn read_changed(&self, words: Words<'_>, text: &mut String) -> Answer {
        let bytes = changed(&self.bytes, words)?;
        put_read(self.alloc, self.protocol, bytes.as_slice(), text)
    }

    /// Writes a packet.
    fn write(&self, mut words: Words<'_>, text: &mut String) -> Answer {
        let zones = self.zones.as_slice();
        match words.word() {
            "datagram" => datagrams::write(self.alloc, words, text),
            "AARP" => aarp_packets::write(words, text),
            "ATP" => transactions::write(self.alloc, words, text),
            "NBP" => names_asked::write(self.alloc, words, text),
            "query" => zone_packets::write(self.alloc, words, text),
            "extended-reply" => cable_info::write_zones(self.alloc, words, zones, text),
            "GetNetInfo" => cable_info::write_question(self.alloc, words, text),
            "GetNetInfo-reply" => cable_info::write_reply(self.alloc, words, zones, text),
            "GetNetInfo-answer" => cable_info::write_answer(self.alloc, words, zones, text),
            "page" => zone_lists::page(self.alloc, words, zones, text),
            _ => Err(Stop::Unclear),
        }
    }

    /// Adds zones to those of the case.
    fn add_zones(&mut self, zones: Vec<Name>) -> Answer {
        self.zones.extend_from_slice(zones.as_slice())?;
        Ok(())
    }

    /// Sets the list of a range to the zones of the case.
    fn list(&mut self, words: Words<'_>) -> Answer {
        zone_lists::list(self.alloc, &mut self.lists, words, self.zones.as_slice())?;
        self.zones.clear();
        Ok(())
    }

    /// Appends the replies of a router with the lists of the case.
    fn answer(&mut self, mut words: Words<'_>, text: &mut String) -> Answer {
        let alloc = self.alloc;
        if words.passes("query") {
            let bytes = words.bytes(alloc)?;
            return zone_lists::put_answers(alloc, &mut self.lists, bytes.as_slice(), text);
        }
        zone_lists::put_answer(alloc, &mut self.lists, words, self.zones.as_slice(), text)
    }

    /// Carries out a command, by its words after the first one.
    fn act_on(&mut self, word: &str, mut words: Words<'_>, text: &mut String) -> Answer {
        let bytes = self.bytes.as_slice();
        match word {
            "more" => {
                let more = words.bytes(self.alloc)?;
                self.bytes.extend_from_slice(more.as_slice())?;
                Ok(())
            }
            "read" => put_read(self.alloc, self.protocol, bytes, text),
            "with" => self.read_changed(words, text),
            "cuts" => put_cuts(self.alloc, self.protocol, bytes, text),
            "whole" => datagrams::put_whole(bytes, text),
            "hops" => datagrams::put_hops(&mut self.bytes, words.number()?, text),
            "first" => names_asked::put_first(bytes, text),
            "asked" => zone_packets::put_asked(bytes, text),
            "write" => self.write(words, text),
            "zones" => self.add_zones(zone_lists::names(self.alloc, &mut words)?),
            "copies" => self.add_zones(zone_lists::copies(self.alloc, &mut words)?),
            "list" => self.list(words),
            "answer" => self.answer(words, text),
            _ => act_on_values(self.alloc, word, words, text),
        }
    }
}

impl Bench for Packets {
    fn new(alloc: Global) -> Packets {
        Packets {
            alloc,
            protocol: Protocol::Datagram,
            bytes: Vec::new(alloc),
            zones: Vec::new(alloc),
            lists: None,
        }
    }

    fn act(&mut self, mut words: Words<'_>, text: &mut String) -> Answer {
        let word = words.word();
        match protocol_of(word) {
            Some(protocol) => self.begin(protocol, words, text),
            None => self.act_on(word, words, text),
        }
    }
}
