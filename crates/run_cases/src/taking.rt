//! Frames that are taken by a station with two ports that does the same with each datagram.

ghost use Rattle.cable_model.specs.Outcomes.{AreSeatsOf};
ghost use Rattle.cable_model.specs.Outgoing.{is_later};
ghost use Rattle.cable_model.specs.Rooms.{AreRooms, known_rooms};
ghost use Rattle.std.specs.Prelude.{◌≡◌, false, IfOk};

use crate::cables::{Known, put_first, resolver, rooms};
use crate::entries::put_entries;
use crate::relay::{Act, Relay};
use crate::seats::{EIGHT, THREE};
use at_base::{Addr, Bytes, Error, Hw};
use cable_model::{Cables, Kind, Rooms};
use case_words::{Answer, Stop, Words};
use std::alloc::Global;

/// The address to which the station forwards datagrams, and (`TARGET_HW`) its hardware address.
pub(crate) const TARGET: Addr = Addr {
    net: 0x121E,
    node: 5,
};

pub(crate) const TARGET_HW: Hw = Hw([2, 0, 0, 0, 0, 6]);

/// The station's hardware address on the first cable.
const ROUTER_HW: Hw = Hw([2, 0, 0, 0, 0, 1]);

fn act(words: &mut Words<'_>) -> Result<Act, Stop> {
    Ok(match words.word() {
        "passes" => Act::Pass,
        "keeps" => Act::Keep,
        "drops" => Act::Drop,
        "makes" => Act::Make,
        "answers" => Act::Answer,
        _ => return Err(Stop::Unclear),
    })
}

/// Cables with the eight seats, for at most `limit` entries.
fn seated(alloc: Global, limit: u32, rooms: Rooms) -> Result<Cables, Error>
    requires { AreRooms rooms }
    ensures seats { IfOk result (λ cables. AreSeatsOf cables.seats 0 2) }
    ensures rooms { IfOk result (λ cables. cables.rooms ≡ rooms) }
{
    let cables = Cables::new(alloc, &EIGHT, limit, rooms)?;
    Ok(cables)
}

/// A station puts a frame on a cable.
fn put(cables: &mut Cables, cable: u8, station: u16, to: Hw, bytes: Bytes) -> Result<u32, Error>
    ensures seats { cables.new.seats ≡ cables.old.seats }
    ensures rooms { cables.new.rooms ≡ cables.old.rooms }
{
    cables.put(cable, station, to, Kind::Ddp, bytes)
}

/// Cables on which station 2 put a frame for station 0.
fn pending(alloc: Global, limit: u32, rooms: Rooms, bytes: Bytes) -> Result<Cables, Error>
    requires { AreRooms rooms }
    ensures seats { IfOk result (λ cables. AreSeatsOf cables.seats 0 2) }
    ensures rooms { IfOk result (λ cables. cables.rooms ≡ rooms) }
{
    let mut cables = seated(alloc, limit, rooms)?;
    put(&mut cables, 0, 2, ROUTER_HW, bytes)?;
    Ok(cables)
}

/// Lets station 0 take a frame, and appends the outcome.
fn take(
    cables: &mut Cables,
    stamp: u32,
    relay: &mut Relay,
    known: &Known,
    text: &mut String,
) -> Answer
    requires seats { AreSeatsOf cables.old.seats 0 2 }
    requires known { cables.old.rooms ≡ known_rooms → is_later known.now.found ≡ false }
    ensures seats { cables.new.seats ≡ cables.old.seats }
    ensures rooms { cables.new.rooms ≡ cables.old.rooms }
{
    let mut resolver = *known;
    match cables.take(stamp, 0, relay, &mut resolver) {
        Err(Error::Memory) => return Err(Stop::Refused(Error::Memory)),
        Err(error) => writeln!(text, "{error}")?,
        Ok(()) => writeln!(text, "taken")?,
    }
    Ok(())
}

/// Appends the entries and the pending pairs.
fn put_all(cables: &Cables, text: &mut String) -> Answer {
    put_entries(text, cables.transcript())?;
    put_first(cables, text)
}

/// Lets station 0 take the frame that station 2 put, with the action passes, keeps, drops, makes or
/// answers: `takes limit 1286 held passes knows cable 1 4638.5 later listed 4638 BYTES`. Then lets it
/// take the same frame again, and a frame that doesn't exist.
pub(crate) fn answer(alloc: Global, mut words: Words<'_>, text: &mut String) -> Answer {
    let limit = words.named("limit")?;
    let may_hold = words.passes("held");
    let rooms = rooms(may_hold);
    let act = act(&mut words)?;
    words.expect("knows")?;
    let known = resolver(&mut words, may_hold)?;
    let bytes = Bytes::from_vec(words.bytes(alloc)?);
    let mut cables = pending(alloc, limit, rooms, bytes)?;
    let mut relay = Relay { alloc, act };
    take(&mut cables, 0, &mut relay, &known, text)?;
    take(&mut cables, 0, &mut relay, &known, text)?;
    take(&mut cables, 9, &mut relay, &known, text)?;
    put_all(&cables, text)
}

/// Cables with the seats of the three-cable internet, for at most `limit` entries.
fn three_seated(alloc: Global, limit: u32) -> Result<Cables, Error>
    ensures { IfOk result (λ cables. AreSeatsOf cables.seats 0 2) }
{
    let cables = Cables::new(alloc, &THREE, limit, Rooms::KNOWN)?;
    Ok(cables)
}

/// Loses a frame for all stations.
fn lose(cables: &mut Cables, stamp: u32) -> Result<(), Error>
    ensures { cables.new.seats ≡ cables.old.seats }
{
    cables.lose(stamp)
}

/// Loses the frame that station 2 of the three-cable internet put for station 0, and then lets
/// station 0 take it: `takes-lost limit 1000 passes knows cable 1 20.2 nobody listed 30 BYTES`.
pub(crate) fn answer_lost(alloc: Global, mut words: Words<'_>, text: &mut String) -> Answer {
    let limit = words.named("limit")?;
    let act = act(&mut words)?;
    words.expect("knows")?;
    let known = resolver(&mut words, false)?;
    let bytes = Bytes::from_vec(words.bytes(alloc)?);
    let mut cables = three_seated(alloc, limit)?;
    put(&mut cables, 0, 2, ROUTER_HW, bytes)?;
    lose(&mut cables, 0)?;
    let mut relay = Relay { alloc, act };
    take(&mut cables, 0, &mut relay, &known, text)?;
    put_all(&cables, text)
}

/// Cables on which station 2 put the bytes for station 0, and station 1 put the same bytes for all
/// stations of the second cable.
fn two_pending(alloc: Global, limit: u32, rooms: Rooms, bytes: &[u8]) -> Result<Cables, Error>
    requires { AreRooms rooms }
    ensures seats { IfOk result (λ cables. AreSeatsOf cables.seats 0 2) }
    ensures rooms { IfOk result (λ cables. cables.rooms ≡ rooms) }
{
    let first = Bytes::copy(alloc, bytes)?;
    let second = Bytes::copy(alloc, bytes)?;
    let mut cables = pending(alloc, limit, rooms, first)?;
    put(&mut cables, 1, 1, Hw::ALL, second)?;
    Ok(cables)
}

/// Lets station 0 take both of these frames, each with its own resolver: `takes-both limit 1291 held
/// passes knows cable 1 4638.5 later listed 4638 then cable 1 4638.5 nobody listed 4638 BYTES`.
pub(crate) fn answer_both(alloc: Global, mut words: Words<'_>, text: &mut String) -> Answer {
    let limit = words.named("limit")?;
    let may_hold = words.passes("held");
    let act = act(&mut words)?;
    words.expect("knows")?;
    let first = resolver(&mut words, may_hold)?;
    words.expect("then")?;
    let second = resolver(&mut words, may_hold)?;
    let bytes = words.bytes(alloc)?;
    let mut cables = two_pending(alloc, limit, rooms(may_hold), bytes.as_slice())?;
    let mut relay = Relay { alloc, act };
    take(&mut cables, 0, &mut relay, &first, text)?;
    take(&mut cables, 1, &mut relay, &second, text)?;
    put_all(&cables, text)
}
