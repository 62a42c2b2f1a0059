//! The example of the README of `nbp`.

use at_base::{Addr, Bytes, Error, Text32};
use nbp::{Function, Names, Packet, write};
use std::alloc::Global;

/// The replies of node 30.5, one for each of its names that a lookup asks for.
fn replies(alloc: Global, names: &Names, bytes: &[u8]) -> Result<Vec<Bytes>, Error> {
    let packet = Packet::read(bytes)?;
    let mut replies = Vec::new(alloc);
    if packet.function() == Function::Lookup {
        let asked = packet.first();
        for tuple in names.answer(asked.object(), asked.kind())? {
            let mut tuple = tuple;
            tuple.at = Addr { net: 30, node: 5 };
            replies.push(write(alloc, Function::Reply, packet.id(), &tuple)?)?;
        }
    }
    Ok(replies)
}

const LOOKUP: [u8; 16] = [
    0x21, 0x01, // a lookup with one tuple, ID 1
    0x00, 0x0A, 0x07, 0xFD, 0x00, // network 10, node 7, socket 253, enumerator 0
    0x01, 0x3D, 0x01, 0x3D, // object =, type =
    0x04, 0x62, 0x6C, 0x75, 0x65, // zone blue
];

/// The replies of a node that has the LaserWriter lab on its socket 129.
fn replies_of_lab(alloc: Global) -> Result<Vec<Bytes>, Error> {
    let (lab, kind) = (Text32::new(b"lab")?, Text32::new(b"LaserWriter")?);
    let mut names = Names::new(alloc)?;
    match names.register(lab, kind, 129) {
        Ok(_) => replies(alloc, &names, &LOOKUP),
        Err(error) => Err(error),
    }
}

/// Whether the packet is the reply, ID 1, that lab is at socket 129 of 30.5.
fn is_lab(bytes: &[u8]) -> Result<bool, Error> {
    let packet = Packet::read(bytes)?;
    let lab = packet.first();
    let is_reply = packet.function() == Function::Reply && packet.id() == 1;
    let is_there = lab.at() == Addr { net: 30, node: 5 } && lab.socket() == 129;
    let is_named = lab.object() == b"lab".as_slice() && lab.kind() == b"LaserWriter".as_slice();
    Ok(is_reply && is_there && is_named && lab.enumerator() == 1 && lab.zone().is_empty())
}

/// Whether the lookup gets one packet, with lab.
pub(super) fn a_lookup_is_answered(alloc: Global) -> Result<bool, Error> {
    match replies_of_lab(alloc)?.as_slice() {
        [packet] => is_lab(packet.as_slice()),
        _ => Ok(false),
    }
}
