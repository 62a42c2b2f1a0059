//! Answers that a responder keeps.

ghost use Rattle.std.specs.Prelude.{◌≡◌, ◌<◌, ◌≤◌, IsTrue, length, nat_le, IfOk, IsOkUnless};
ghost use Rattle.std.specs.List.{list_all};
ghost use Rattle.at_base.specs.Spelling.{bytes_of};
ghost use Rattle.atp.specs.Answers.{AreShort, is_answer, answer_packets, bytes_of_all, response_of};
ghost use Rattle.atp.specs.Packets.{packet};
ghost use Rattle.atp.specs.Bitmaps as spec;
ghost use Rattle.at_base.specs.Limits.{max_data};

use crate::ask::AnswerPart;
use crate::packet::{MAX_DATA, MAX_PARTS, write};
use at_base::{Bytes, Error};
use std::alloc::Global;
use std::marker::Model;

/// The control byte of a part of a response, other than the last.
const RESPONSE: u8 = 0x80;

/// The control byte of the last part of a response.
const LAST_RESPONSE: u8 = 0x90;

/// The parts of an answer. Contracts see them as a list.
#[derive(Debug, Drop)]
pub(crate) struct Answer {
    parts: Vec<AnswerPart>,
}

impl Model for Answer {
    ghost use Rattle.std.specs.Prelude.{List, IsTrue};
    ghost use Rattle.atp.specs.declared.ask.AnswerPart.{AnswerPart as PartValue};
    ghost use Rattle.atp.specs.Answers.{is_answer};

    ghost Value = { List PartValue };

    ghost view = { λ a. a.parts.items };

    ghost invariant = { λ a. IsTrue (is_answer a.parts.items) };
}

/// Whether each part has at most 578 bytes of data.
fn all_fit(parts: &[AnswerPart]) -> bool
    ensures { result ≡ list_all (λ part. nat_le (length part.payload) 578) parts.now }
{
    parts.iter().all(|part| part.payload.len() <= MAX_DATA)
}

/// Whether the answer has at most 8 parts, of at most 578 bytes each.
pub(crate) fn is_short(parts: &[AnswerPart]) -> bool
    ensures { result ≡ is_answer parts.now }
{
    parts.len() <= MAX_PARTS && all_fit(parts)
}

/// A copy of the parts. Error: `Memory`.
fn copy_parts(alloc: Global, parts: &[AnswerPart]) -> Result<Vec<AnswerPart>, Error>
    ensures ok { IfOk result (λ copies. copies.items ≡ parts.now) }
    ensures err { IsOkUnless result Error.Memory }
{
    let mut copies = Vec::with_capacity(alloc, parts.len())?;
    for part in parts {
        copies.push(part.copy(alloc)?)?;
    }
    Ok(copies)
}

impl Answer {
    /// A copy of the parts. Error: `Memory`.
    pub(crate) fn copy(alloc: Global, parts: &[AnswerPart]) -> Result<Answer, Error>
        requires { IsTrue (is_answer parts.now) }
        ensures ok { IfOk result (λ answer. answer ≡ parts.now) }
        ensures err { IsOkUnless result Error.Memory }
    {
        match copy_parts(alloc, parts) {
            Ok(parts) => Ok(Answer { parts }),
            Err(error) => Err(error),
        }
    }

    /// The parts.
    pub(crate) fn as_slice(&self) -> &[AnswerPart]
        ensures value { result.now ≡ self.now }
        ensures short { IsTrue (is_answer self.now) }
    {
        self.parts.as_slice()
    }
}

/// Whether a bitmap asks for the part with this index.
fn asks_for(bitmap: u8, index: usize) -> bool
    requires { index < 8 }
    ensures { result ≡ spec.asks_for bitmap index }
{
    (bitmap >> index) % 2 == 1
}

/// The packet of a part of an answer. Error: `Memory`.
fn packet_of(
    alloc: Global,
    id: u16,
    count: usize,
    index: usize,
    part: &AnswerPart,
) -> Result<Bytes, Error>
    requires near { index < 8 }
    requires short { length part.now.payload ≤ 578 }
    ensures ok { IfOk result (λ bytes. bytes
        ≡ bytes_of packet (response_of id count index part.now)) }
    ensures short { IfOk result (λ bytes. length bytes ≤ max_data) }
    ensures err { IsOkUnless result Error.Memory }
{
    let control = if index + 1 == count {
        LAST_RESPONSE
    } else {
        RESPONSE
    };
    write(
        alloc,
        control,
        index as u8,
        id,
        part.user,
        part.payload.as_slice(),
    )
}

/// The packets of the parts of an answer that a bitmap asks for. Error: `Memory`.
pub(crate) fn packets_of(
    alloc: Global,
    id: u16,
    bitmap: u8,
    parts: &[AnswerPart],
) -> Result<Vec<Bytes>, Error>
    requires { IsTrue (is_answer parts.now) }
    ensures ok { IfOk result (λ packets. packets.items
        ≡ bytes_of_all (answer_packets id bitmap parts.now)) }
    ensures few { IfOk result (λ packets. length packets.items ≤ 8) }
    ensures short { IfOk result (λ packets. AreShort packets.items) }
    ensures err { IsOkUnless result Error.Memory }
{
    let mut packets = Vec::with_capacity(alloc, parts.len())?;
    for (index, part) in parts.iter().enumerate() {
        if asks_for(bitmap, index) {
            packets.push(packet_of(alloc, id, parts.len(), index, part)?)?;
        }
    }
    Ok(packets)
}
