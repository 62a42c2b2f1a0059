//! A station over a capture, block by block.

ghost use Rattle.std.specs.Prelude.{◌≡◌, ◌≤◌, length, option_map, OnOk};
ghost use Rattle.at_base.specs.Limits.{max_ports};
ghost use Rattle.capture_feed.specs.Clocks.{after, ticks_by};
ghost use Rattle.ethertalk.specs.Frames.{framed};
ghost use Rattle.pcapng.specs.Reads.{packed, told};
ghost use Rattle.pcapng.specs.Sections.{beats, packs};
ghost use Rattle.routing.specs.Events as events_spec;
ghost use Rattle.routing.specs.Events.{frame_at, packet_on, ticks};
ghost use Rattle.routing.specs.Run as spec;
ghost use Rattle.routing.specs.Run.{Happened, Wrote};
ghost use Rattle.text.specs.Writing.{Prints};

use crate::called::{Called, port_of};
use crate::counting::Counting;
use crate::interfaces::InterfacePorts;
use crate::watch::Watch;
use at_base::Error;
use cabled::Cabled;
use capture_feed::{Block, Clock};
use ethertalk::Frame;
use pcapng::{Seen, print_heartbeat};
use std::alloc::Global;
use std::io::Write;
use std::marker::Model;
use text::Output;

/// A station over a capture.
#[derive(Drop)]
pub struct Routing<C> {
    calls: Vec<Called>,
    ports: InterfacePorts,
    clock: Clock,
    counting: Counting<C>,
}

impl<C> Model for Routing<C> {
    ghost use Rattle.std.specs.Prelude.{◌≤◌, length};
    ghost use Rattle.at_base.specs.Limits.{max_ports};
    ghost use Rattle.routing.specs.Run.{Routed};

    ghost Value = { Routed C };

    ghost view = { λ r. record {
      calls = r.calls.items;
      ports = r.ports;
      clock = r.clock;
      station = r.counting.station;
      dropped = r.counting.dropped;
    } };

    ghost invariant = { λ r. length r.calls.items ≤ max_ports };
}

/// The frame at the front of the bytes, if there is one.
fn frame_of(bytes: &[u8]) -> Option<Frame<'_>>
    ensures { option_map framed result ≡ frame_at bytes.now }
{
    match Frame::read(bytes) {
        Ok(frame) => Some(frame),
        Err(_) => None,
    }
}

/// The frame in a packet that is there as a whole and wasn't lost, if there is one.
fn frame_in<'a>(seen: &Seen<'a>) -> Option<Frame<'a>>
    ensures { option_map framed result ≡ events_spec.frame_in (packed seen.now) }
{
    if seen.whole && !seen.lost {
        frame_of(seen.bytes)
    } else {
        None
    }
}

/// Hears the frame in a packet on the cable of a port, if there is one.
fn hear_on<W: Write, C: Cabled, S: Watch<C>>(
    counting: &mut Counting<C>,
    output: &mut Output<W>,
    watch: &mut S,
    port: u8,
    seen: &Seen<'_>,
) -> Result<(), Error>
    ensures came { OnOk result (Happened C.acts seen.now.time counting.old
        (events_spec.heard_on port (events_spec.frame_in (packed seen.now))) counting.new
        (W.contents output.old.writer) output.old.text.items
        (W.contents output.new.writer) output.new.text.items) }
    ensures prints { Prints output.old.faults output.new.faults result }
{
    match frame_in(seen) {
        Some(frame) => counting.hear(output, watch, seen.time, port, &frame, seen.bytes),
        None => Ok(()),
    }
}

/// Hears a packet on the cable of a port, if it is on one.
fn hear_packet<W: Write, C: Cabled, S: Watch<C>>(
    counting: &mut Counting<C>,
    output: &mut Output<W>,
    watch: &mut S,
    port: Option<u8>,
    seen: &Seen<'_>,
) -> Result<(), Error>
    ensures came { OnOk result (Happened C.acts seen.now.time counting.old
        (packet_on port (packed seen.now)) counting.new
        (W.contents output.old.writer) output.old.text.items
        (W.contents output.new.writer) output.new.text.items) }
    ensures prints { Prints output.old.faults output.new.faults result }
{
    match port {
        Some(port) => hear_on(counting, output, watch, port, seen),
        None => Ok(()),
    }
}

impl<C: Cabled> Routing<C> {
    /// A station over a capture of which nothing was read. The cables of its ports are called so, in
    /// order; the caller ensures that there are at most 16.
    pub fn new(alloc: Global, station: C, calls: Vec<Called>) -> Routing<C>
        requires { length calls.items ≤ max_ports }
        ensures { result ≡ spec.at_first calls.items station }
    {
        Routing {
            calls,
            ports: InterfacePorts::new(),
            clock: Clock::new(),
            counting: Counting::new(alloc, station),
        }
    }

    /// The station, as it is.
    pub fn station(&self) -> &C
        ensures { result.now ≡ self.now.station }
    {
        self.counting.station()
    }

    /// How many events were dropped, since there was no memory for them.
    pub fn dropped(&self) -> u64
        ensures { result ≡ self.now.dropped }
    {
        self.counting.dropped()
    }

    /// The ticks pass that a time brings.
    fn pass<W: Write, S: Watch<C>>(
        &mut self,
        output: &mut Output<W>,
        watch: &mut S,
        time: u64,
    ) -> Result<(), Error>
        ensures came { OnOk result (Happened C.acts time (spec.counted_in self.old)
            (ticks (ticks_by self.old.clock time)) (spec.counted_in self.new)
            (W.contents output.old.writer) output.old.text.items
            (W.contents output.new.writer) output.new.text.items) }
        ensures clock { OnOk result (self.new.clock ≡ after self.old.clock time) }
        ensures calls { self.new.calls ≡ self.old.calls }
        ensures ports { self.new.ports ≡ self.old.ports }
        ensures prints { Prints output.old.faults output.new.faults result }
    {
        let count = self.clock.pass(time);
        self.counting.pass(output, watch, time, count)
    }

    /// Hears a packet.
    fn hear_seen<W: Write, S: Watch<C>>(
        &mut self,
        output: &mut Output<W>,
        watch: &mut S,
        seen: &Seen<'_>,
    ) -> Result<(), Error>
        ensures heard { OnOk result (Wrote C.acts self.old (packs (packed seen.now)) self.new
            (W.contents output.old.writer) output.old.text.items
            (W.contents output.new.writer) output.new.text.items) }
        ensures prints { Prints output.old.faults output.new.faults result }
    {
        self.pass(output, watch, seen.time)?;
        let port = self.ports.port(seen.interface);
        hear_packet(&mut self.counting, output, watch, port, seen)
    }

    /// Hears a heartbeat, and answers it.
    fn hear_beat<W: Write, S: Watch<C>>(
        &mut self,
        output: &mut Output<W>,
        watch: &mut S,
        index: u32,
        time: u64,
    ) -> Result<(), Error>
        ensures heard { OnOk result (Wrote C.acts self.old (beats index time) self.new
            (W.contents output.old.writer) output.old.text.items
            (W.contents output.new.writer) output.new.text.items) }
        ensures prints { Prints output.old.faults output.new.faults result }
    {
        self.pass(output, watch, time)?;
        print_heartbeat(output, time)
    }

    /// Hears what a block says, and writes what is due. The watch is told of each tick, and of each
    /// frame on the cable of a port.
    ///
    /// Errors: `WriteFault`, only if the writer failed; `Memory`, where the buffer of the output can't
    /// grow. After an error, a part of a block may have been written.
    pub fn hear<W: Write, S: Watch<C>>(
        &mut self,
        output: &mut Output<W>,
        watch: &mut S,
        block: &Block<'_>,
    ) -> Result<(), Error>
        ensures heard { OnOk result (Wrote C.acts self.old (told block.now) self.new
            (W.contents output.old.writer) output.old.text.items
            (W.contents output.new.writer) output.new.text.items) }
        ensures prints { Prints output.old.faults output.new.faults result }
    {
        match block {
            Block::Packet(seen) => return self.hear_seen(output, watch, seen),
            Block::Heartbeat(index, time) => return self.hear_beat(output, watch, *index, *time),
            Block::Section => self.ports.clear(),
            Block::Classic(_) => self.ports.clear(),
            Block::Interface(described) => {
                let port = port_of(self.calls.as_slice(), described);
                self.ports.add(port);
            }
            Block::TooLong => {}
            Block::Other => {}
        }
        Ok(())
    }
}
