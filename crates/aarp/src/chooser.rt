//! The choice of a port's address.

ghost use Rattle.std.specs.Prelude.{◌≡◌, IsTrue, IfOk, IfSome, IsOkUnless};
ghost use Rattle.std.specs.List.{list_all};
ghost use Rattle.aarp.specs.Choosing as spec;
ghost use Rattle.aarp.specs.Choosing.{begun, begun_minding, is_on, minding, probe_for, ticked, told_range};

use crate::packet::{Function, Packet};
use at_base::{Addr, Error, Hw, Range};
use std::alloc::Global;
use std::marker::Model;

/// The number of probes that a station sends for an address before it uses it.
const MAX_PROBES: u8 = 10;

/// The greatest node number that a station may have.
const LAST_NODE: u8 = 253;

/// The target hardware address in a probe: zeros.
const NOBODY: Hw = Hw([0; 6]);

/// The number of ticks for which a careful choice listens before its first probe, unless routing
/// data ends that.
const MOST_LISTENED: u8 = 60;

/// What a choice minds of the other stations of a real cable. In a play it minds nothing of this.
#[derive(Clone, Copy, Debug, PartialEq, Eq)]
pub struct Care {
    /// Whether it listens before its first probe, for 60 ticks, or until routing data tells it the
    /// cable's range.
    pub listens: bool,
    /// Whether of two stations that probe for one address at once only the one with the greater
    /// hardware address goes on to its next.
    pub one_goes_on: bool,
}

/// The choice of a port's address, by sending probes.
///
/// Inside AppleTalk, the chapter on AARP; the order of the addresses is this project's own.
#[derive(Debug, Drop)]
pub struct Chooser {
    range: Range,
    hw: Hw,
    tentative: Addr,
    // The addresses to try after the first one, and the number of them that were tried.
    tries: Vec<Addr>,
    tried: usize,
    probes: u8,
    is_settled: bool,
    // The ticks for which it listens yet, whether it heard meanwhile that the cable has another
    // range, and whether of two that probe at once only one goes on.
    listens: u8,
    is_elsewhere: bool,
    one_goes_on: bool,
}

impl Model for Chooser {
    ghost use Rattle.std.specs.Prelude.{◌≤◌, IsTrue, drop, length};
    ghost use Rattle.std.specs.List.{list_all};
    ghost use Rattle.aarp.specs.Choosing.{Choice, Minding, is_on};

    ghost Value = { Choice };

    ghost view = { λ c. record {
      range = c.range;
      hw = c.hw;
      tentative = c.tentative;
      left = drop c.tried c.tries.items;
      probes = c.probes;
      is_settled = c.is_settled;
      minds = record { listens = c.listens; is_elsewhere = c.is_elsewhere; one_goes_on = c.one_goes_on };
    } };

    ghost invariant = { λ c. IsTrue (is_on c.range c.tentative)
        × IsTrue (list_all (is_on c.range) c.tries.items)
        × (c.tried ≤ length c.tries.items)
        × (c.probes ≤ 10) };
}

/// Whether a station on a cable of this range may have each of the addresses: its network is in the
/// range, and its node is 1 to 253. Allocates nothing.
pub fn are_on(range: Range, addrs: &[Addr]) -> bool
    ensures { result ≡ list_all (is_on range) addrs.now }
{
    addrs.iter().all(|addr| range.holds(addr.net) && 1 <= addr.node && addr.node <= LAST_NODE)
}

/// The address to try after this one, in the range.
fn upwards(range: Range, addr: Addr) -> Addr
    ensures next { result ≡ spec.upwards range addr }
    ensures inside { IsTrue (is_on range addr) → IsTrue (is_on range result) }
{
    if addr.node < LAST_NODE {
        return Addr {
            net: addr.net,
            node: addr.node + 1,
        };
    }
    let net = if addr.net < range.end() {
        addr.net + 1
    } else {
        range.start()
    };
    Addr { net, node: 1 }
}

/// Whether the bytes come before the others: at the first place where they differ, the byte is
/// less.
fn come_before(bytes: &[u8], others: &[u8]) -> bool
    ensures { result ≡ spec.come_before bytes.now others.now }
{
    let [byte, bytes @ ..] = bytes else {
        return false;
    };
    match others {
        [other, others @ ..] => byte < other || (byte == other && come_before(bytes, others)),
        [] => false,
    }
}

/// Whether a station with the hardware address `mine` goes on to its next address where one with
/// the hardware address `theirs` probes for the same: if they differ, or, where only one goes on,
/// if `mine` is the greater.
fn gives_way(one_goes_on: bool, theirs: Hw, mine: Hw) -> bool
    ensures { result ≡ spec.gives_way one_goes_on theirs mine }
{
    if one_goes_on {
        come_before(theirs.as_slice(), mine.as_slice())
    } else {
        theirs != mine
    }
}

/// Whether the packet shows that another station has the address, or probes for it too and isn't
/// the one that goes on.
fn is_conflict(one_goes_on: bool, tentative: Addr, hw: Hw, packet: &Packet) -> bool
    ensures { result ≡ spec.is_conflict one_goes_on tentative hw packet.now }
{
    match packet.function {
        Function::Request => false,
        Function::Response => packet.source == tentative,
        Function::Probe => {
            packet.target == tentative && gives_way(one_goes_on, packet.source_hw, hw)
        }
    }
}

/// Whether a packet of this function asks for a response from the station that has its target
/// address.
fn wants(function: Function) -> bool
    ensures { result ≡ spec.wants function }
{
    match function {
        Function::Request | Function::Probe => true,
        Function::Response => false,
    }
}

impl Chooser {
    /// A choice that begins with the first of these addresses, or, if there is none, with node 1 of
    /// the range's start. The caller ensures that a station of the range may have each of them
    /// (`are_on`). Error: `Memory`.
    pub fn new(alloc: Global, range: Range, tries: &[Addr], hw: Hw) -> Result<Chooser, Error>
        requires tries { IsTrue (list_all (is_on range) tries.now) }
        ensures ok { IfOk result (λ c. c ≡ begun range tries.now hw) }
        ensures refused { IsOkUnless result Error.Memory }
    {
        let nothing = Care {
            listens: false,
            one_goes_on: false,
        };
        Chooser::careful(alloc, range, tries, hw, nothing)
    }

    /// A choice that begins as `new`'s, and minds the other stations with this care. The caller
    /// ensures that a station of the range may have each of the addresses (`are_on`). Error:
    /// `Memory`.
    ///
    /// This project's own.
    pub fn careful(
        alloc: Global,
        range: Range,
        tries: &[Addr],
        hw: Hw,
        care: Care,
    ) -> Result<Chooser, Error>
        requires tries { IsTrue (list_all (is_on range) tries.now) }
        ensures ok { IfOk result (λ c. c ≡ begun_minding (minding care) range tries.now hw) }
        ensures refused { IsOkUnless result Error.Memory }
    {
        let (tentative, left) = match tries {
            [first, left @ ..] => (*first, left),
            [] => (
                Addr {
                    net: range.start(),
                    node: 1,
                },
                tries,
            ),
        };
        Ok(Chooser {
            range,
            hw,
            tentative,
            tries: Vec::from_slice(alloc, left)?,
            tried: 0,
            probes: 0,
            is_settled: false,
            listens: if care.listens { MOST_LISTENED } else { 0 },
            is_elsewhere: false,
            one_goes_on: care.one_goes_on,
        })
    }

    /// A choice that is settled: the port has this address, as if eleven ticks had passed without a
    /// conflict. The caller ensures that a station of the range may have it (`are_on`). Allocates
    /// nothing.
    pub fn decided(alloc: Global, range: Range, addr: Addr, hw: Hw) -> Chooser
        requires { IsTrue (is_on range addr) }
        ensures { result ≡ spec.decided range addr hw }
    {
        Chooser {
            range,
            hw,
            tentative: addr,
            tries: Vec::new(alloc),
            tried: 0,
            probes: MAX_PROBES,
            is_settled: true,
            listens: 0,
            is_elsewhere: false,
            one_goes_on: false,
        }
    }

    /// The range of the port's cable.
    pub fn range(&self) -> Range
        ensures { result ≡ self.now.range }
    {
        self.range
    }

    /// The port's hardware address.
    pub fn hw(&self) -> Hw
        ensures { result ≡ self.now.hw }
    {
        self.hw
    }

    /// A copy of the choice. Error: `Memory`.
    pub fn copy(&self) -> Result<Chooser, Error>
        ensures ok { IfOk result (λ c. c ≡ self.now) }
        ensures refused { IsOkUnless result Error.Memory }
    {
        let tries = Vec::from_slice(*self.tries.allocator(), self.tries.as_slice())?;
        Ok(Chooser {
            range: self.range,
            hw: self.hw,
            tentative: self.tentative,
            tries,
            tried: self.tried,
            probes: self.probes,
            is_settled: self.is_settled,
            listens: self.listens,
            is_elsewhere: self.is_elsewhere,
            one_goes_on: self.one_goes_on,
        })
    }

    /// The probe for the tentative address.
    fn probe(&self) -> Packet
        ensures { result ≡ probe_for self.now }
    {
        Packet {
            function: Function::Probe,
            source_hw: self.hw,
            source: self.tentative,
            target_hw: NOBODY,
            target: self.tentative,
        }
    }

    /// Advances the choice by one tick: returns a probe to broadcast in each of ten ticks; in the
    /// eleventh the port is settled. While the choice listens, and where the cable has another
    /// range, there is none. Allocates nothing.
    pub fn tick(&mut self) -> Option<Packet>
        ensures { (self.new, result) ≡ ticked self.old }
    {
        if self.is_settled {
            return None;
        }
        if self.listens > 0 {
            self.listens -= 1;
            return None;
        }
        if self.is_elsewhere {
            return None;
        }
        if self.probes == MAX_PROBES {
            self.is_settled = true;
            return None;
        }
        self.probes += 1;
        Some(self.probe())
    }

    /// Handles a packet heard on the port: if another station has the tentative address, or probes
    /// for it too and isn't the one that goes on, the next address is tried. A settled port keeps its
    /// address. Allocates nothing.
    pub fn heard(&mut self, packet: &Packet)
        ensures { self.new ≡ spec.heard packet.now self.old }
    {
        if self.is_settled || !is_conflict(self.one_goes_on, self.tentative, self.hw, packet) {
            return;
        }
        match self.tries.get(self.tried) {
            Some(next) => {
                self.tentative = *next;
                self.tried += 1;
            }
            None => self.tentative = upwards(self.range, self.tentative),
        }
        self.probes = 0;
    }

    /// From now on the choice minds the other stations with this care, as one that begins does.
    /// Allocates nothing.
    ///
    /// This project's own.
    pub fn mind(&mut self, care: Care)
        ensures { self.new ≡ spec.minded care self.old }
    {
        self.listens = if care.listens { MOST_LISTENED } else { 0 };
        self.is_elsewhere = false;
        self.one_goes_on = care.one_goes_on;
    }

    /// Handles the range that routing data of the port's cable tells. What is heard first, while
    /// the choice listens, decides for good: with the port's own range it probes from the next tick
    /// on, and with another one it never probes. Later on nothing changes. Allocates nothing.
    ///
    /// This project's own.
    pub fn hear_range(&mut self, range: Range)
        ensures { self.new ≡ told_range range self.old }
    {
        if self.listens == 0 {
            return;
        }
        self.listens = 0;
        self.is_elsewhere = range != self.range;
    }

    /// Whether the choice heard, while it listened, that the port's cable has another range: then
    /// it never probes. Allocates nothing.
    pub fn is_elsewhere(&self) -> bool
        ensures { result ≡ self.now.minds.is_elsewhere }
    {
        self.is_elsewhere
    }

    /// The port's address, if it is settled. Allocates nothing.
    pub fn settled(&self) -> Option<Addr>
        ensures value { result ≡ spec.settled self.now }
        ensures valid { IfSome result (λ a. IsTrue (is_on self.now.range a)) }
    {
        if self.is_settled {
            Some(self.tentative)
        } else {
            None
        }
    }

    /// The response of a settled port to a request or a probe for its address; `None` for any other
    /// packet. Allocates nothing.
    pub fn answer(&self, packet: &Packet) -> Option<Packet>
        ensures { result ≡ spec.answer self.now packet.now }
    {
        if !self.is_settled || !wants(packet.function) || packet.target != self.tentative {
            return None;
        }
        Some(Packet {
            function: Function::Response,
            source_hw: self.hw,
            source: self.tentative,
            target_hw: packet.source_hw,
            target: packet.source,
        })
    }
}
