//! Cables, and frames on them.

ghost use Rattle.cable_model.specs.Outgoing.{is_later};
ghost use Rattle.cable_model.specs.Rooms.{AreRooms, known_rooms};
ghost use Rattle.std.specs.Prelude.{◌≡◌, ⊤, false, IfOk};
ghost use Rattle.station.specs.Lawful.{IsNext};

use crate::entries::{kind, kind_word, put_entries};
use crate::seats::{EIGHT, THREE, TWINS};
use at_base::{Addr, Bytes, Error, Hw};
use cable_model::{Cables, Found, HeldBy, PACKET_LEN, Resolve, Rooms};
use case_words::{Answer, Stop, Words, put_line, yes_or_no};
use station::Next;
use std::alloc::Global;

/// A resolver that knows one address on one cable, and one network that a cable has. For each
/// datagram that is held it asks with a packet of zeros.
#[derive(Clone, Copy)]
pub(crate) struct Known {
    cable: u8,
    addr: Addr,
    found: Found,
    listed: u16,
}

impl Resolve for Known {
    ghost use Rattle.std.specs.Prelude.{◌==◌, ◌&&◌, if◌then◌else◌};
    ghost use Rattle.at_base.specs.Address.{same_address};
    ghost use Rattle.cable_model.specs.declared.resolve.Found.TheVariants.{Nobody};

    ghost finds = { λ known cable addr.
        if cable == known.cable && same_address addr known.addr then known.found else Nobody };

    ghost lists = { λ known net. net == known.listed };

    ghost holds = { λ _ _ _ _ _ _. ⊤ };

    fn find(&self, cable: u8, addr: Addr) -> Found {
        if cable == self.cable && addr == self.addr {
            self.found
        } else {
            Found::Nobody
        }
    }

    fn listed(&self, net: u16) -> bool {
        net == self.listed
    }

    fn hold(&mut self, _cable: u8, _next: Addr, _stamp: u32) -> HeldBy {
        HeldBy {
            shed: None,
            ask: Some([0; PACKET_LEN]),
        }
    }
}

/// The result of a lookup: `later` only where datagrams may be held.
fn found(words: &mut Words<'_>, may_hold: bool) -> Result<Found, Stop>
    ensures { IfOk result (λ found. may_hold ≡ false → is_later found ≡ false) }
{
    match words.word() {
        "at" => Ok(Found::At(words.hw()?)),
        "nobody" => Ok(Found::Nobody),
        "later" if may_hold => Ok(Found::Later),
        _ => Err(Stop::Unclear),
    }
}

/// A resolver, as `cable 2 30.5 at 020000000006 listed 30`. It answers every lookup unless datagrams
/// may be held.
pub(crate) fn resolver(words: &mut Words<'_>, may_hold: bool) -> Result<Known, Stop>
    ensures { IfOk result (λ known. may_hold ≡ false → is_later known.found ≡ false) }
{
    let cable = words.named("cable")?;
    let addr = words.addr()?;
    let found = found(words, may_hold)?;
    Ok(Known {
        cable,
        addr,
        found,
        listed: words.named("listed")?,
    })
}

/// The next station or stations of a datagram, as `station 30.5`, `all` or `group 56`.
pub(crate) fn next(words: &mut Words<'_>) -> Result<Next, Stop>
    ensures { IfOk result IsNext }
{
    match words.word() {
        "station" => Ok(Next::Station(words.addr()?)),
        "all" => Ok(Next::All),
        "group" => {
            let group: u8 = words.number()?;
            if group < 253 {
                Ok(Next::Group(group))
            } else {
                Err(Stop::Unclear)
            }
        }
        _ => Err(Stop::Unclear),
    }
}

/// The room that calls need: more of it where datagrams may be held.
pub(crate) fn rooms(may_hold: bool) -> Rooms
    ensures rooms { AreRooms result }
    ensures known { result ≡ known_rooms → may_hold ≡ false }
{
    if may_hold { Rooms::HELD } else { Rooms::KNOWN }
}

/// Cables with the seats that a word names, for at most `limit` entries.
pub(crate) fn begun(alloc: Global, mut words: Words<'_>) -> Result<Cables, Stop> {
    let seats = words.word();
    let limit = words.named("limit")?;
    let rooms = rooms(words.passes("held"));
    Ok(match seats {
        "eight" => Cables::new(alloc, &EIGHT, limit, rooms)?,
        "twins" => Cables::new(alloc, &TWINS, limit, rooms)?,
        "three" => Cables::new(alloc, &THREE, limit, rooms)?,
        _ => return Err(Stop::Unclear),
    })
}

/// Puts a frame on a cable, and appends its stamp.
fn put(alloc: Global, cables: &mut Cables, mut words: Words<'_>, text: &mut String) -> Answer {
    let cable = words.named("cable")?;
    let station = words.named("station")?;
    words.expect("to")?;
    let to = words.hw()?;
    let kind = kind(&mut words)?;
    let bytes = Bytes::from_vec(words.bytes(alloc)?);
    let stamp = cables.put(cable, station, to, kind, bytes)?;
    writeln!(text, "stamp {stamp}")?;
    Ok(())
}

/// A station sends a datagram on a cable. The resolver answers every lookup.
fn send(alloc: Global, cables: &mut Cables, mut words: Words<'_>) -> Answer {
    let cable = words.named("cable")?;
    let station = words.named("station")?;
    words.expect("next")?;
    let next = next(&mut words)?;
    words.expect("knows")?;
    let mut known = resolver(&mut words, false)?;
    let bytes = Bytes::from_vec(words.bytes(alloc)?);
    cables.send(station, cable, next, bytes, &mut known)?;
    Ok(())
}

/// Lets a station of the eight seats send a datagram, and appends the outcome: `sends limit 5 held
/// cable 2 station 1 next station 30.5 knows cable 2 30.5 later listed 30 BYTES`.
pub(crate) fn answer(alloc: Global, mut words: Words<'_>, text: &mut String) -> Answer {
    let limit = words.named("limit")?;
    let may_hold = words.passes("held");
    let cable = words.named("cable")?;
    let station = words.named("station")?;
    words.expect("next")?;
    let next = next(&mut words)?;
    words.expect("knows")?;
    let mut known = resolver(&mut words, may_hold)?;
    let bytes = Bytes::from_vec(words.bytes(alloc)?);
    let mut cables = Cables::new(alloc, &EIGHT, limit, rooms(may_hold))?;
    cables.send(station, cable, next, bytes, &mut known)?;
    put_entries(text, cables.transcript())?;
    put_first(&cables, text)
}

/// Appends a frame as a station that is to take it receives it.
fn put_heard(cables: &Cables, mut words: Words<'_>, text: &mut String) -> Answer {
    let stamp = words.number()?;
    match cables.heard(stamp, words.named("station")?) {
        Some(heard) => {
            let (port, link, kind) = (heard.port, heard.link, kind_word(heard.kind));
            write!(text, "port {port} {link:?} {kind} ")?;
            put_line(text, heard.bytes)?;
        }
        None => writeln!(text, "nothing")?,
    }
    Ok(())
}

/// Appends the cable, the kind and the bytes of a frame that is pending.
fn put_frame(cables: &Cables, stamp: u32, text: &mut String) -> Answer {
    match cables.frame(stamp) {
        Some(frame) => {
            let (cable, kind) = (frame.cable, kind_word(frame.kind));
            write!(text, "cable {cable} {kind} ")?;
            put_line(text, frame.bytes)?;
        }
        None => writeln!(text, "nothing")?,
    }
    Ok(())
}

/// Appends the number of pending pairs, and the first of them.
pub(crate) fn put_first(cables: &Cables, text: &mut String) -> Answer {
    let count = cables.pending_count();
    match cables.first() {
        Some((stamp, station)) => writeln!(text, "{count} pending, first {stamp} by {station}")?,
        None => writeln!(text, "{count} pending")?,
    }
    Ok(())
}

fn put_pending(cables: &Cables, mut words: Words<'_>, text: &mut String) -> Answer {
    let stamp = words.number()?;
    let pending = yes_or_no(cables.pending(stamp, words.named("station")?));
    writeln!(text, "{pending}")?;
    Ok(())
}

/// Carries out a command.
pub(crate) fn act(
    alloc: Global,
    cables: &mut Cables,
    mut words: Words<'_>,
    text: &mut String,
) -> Answer {
    match words.word() {
        "put" => put(alloc, cables, words, text)?,
        "send" => send(alloc, cables, words)?,
        "lose" => cables.lose(words.number()?)?,
        "first" => put_first(cables, text)?,
        "pending" => put_pending(cables, words, text)?,
        "heard" => put_heard(cables, words, text)?,
        "frame" => put_frame(cables, words.number()?, text)?,
        "bytes" => put_line(text, cables.bytes(words.number()?))?,
        "entries" => put_entries(text, cables.transcript())?,
        _ => return Err(Stop::Unclear),
    }
    Ok(())
}
