//! A station that counts what it drops.

ghost use Rattle.std.specs.Prelude.{◌≡◌, ◌∷◌, [], OnOk};
ghost use Rattle.cabled.specs.Acting.{Heard, Tick};
ghost use Rattle.routing.specs.Events.{ticks};
ghost use Rattle.routing.specs.Run.{Happened};
ghost use Rattle.routing.specs.Streams.{puts_bytes};
ghost use Rattle.text.specs.Going.{Goes};
ghost use Rattle.ethertalk.specs.Frames.{framed};
ghost use Rattle.text.specs.Writing.{Prints};

use crate::printing::print_puts;
use crate::watch::Watch;
use at_base::Error;
use cabled::{Cabled, Puts};
use ethertalk::Frame;
use std::alloc::Global;
use std::io::Write;
use std::marker::Model;
use text::Output;

/// A station, and how many events it dropped, since there was no memory for them.
#[derive(Drop)]
pub(crate) struct Counting<C> {
    station: C,
    puts: Puts,
    dropped: u64,
    ticks: u64,
}

impl<C> Model for Counting<C> {
    ghost use Rattle.std.specs.Prelude.{◌≡◌, []};
    ghost use Rattle.routing.specs.Run.{Counted};

    ghost Value = { Counted C };

    ghost view = { λ c. record { station = c.station; dropped = c.dropped } };

    ghost invariant = { λ c. c.puts.items ≡ [] };
}

/// Prints what was put at a time, and forgets it.
#[inline(always)]
fn print_all<W: Write, C: Cabled>(
    output: &mut Output<W>,
    station: &C,
    puts: &mut Puts,
    time: u64,
) -> Result<(), Error>
    ensures gone { OnOk result (Goes (W.contents output.old.writer) output.old.text.items
        (puts_bytes (C.acts.ports station.now) time puts.old.items)
        (W.contents output.new.writer) output.new.text.items) }
    ensures prints { Prints output.old.faults output.new.faults result }
    ensures none { puts.new.items ≡ [] }
{
    let printed = print_puts(output, station.own_ports(), time, puts.as_slice());
    puts.clear();
    printed
}

impl<C: Cabled> Counting<C> {
    /// A station that has dropped nothing.
    pub(crate) fn new(alloc: Global, station: C) -> Counting<C>
        ensures { result ≡ record { station = station; dropped = 0 } }
    {
        Counting {
            station,
            puts: Puts::new(alloc),
            dropped: 0,
            ticks: 0,
        }
    }

    /// The station.
    pub(crate) fn station(&self) -> &C
        ensures { result.now ≡ self.now.station }
    {
        &self.station
    }

    /// How many events were dropped.
    pub(crate) fn dropped(&self) -> u64
        ensures { result ≡ self.now.dropped }
    {
        self.dropped
    }

    /// A tick, at a time.
    fn tick<W: Write>(&mut self, output: &mut Output<W>, time: u64) -> Result<(), Error>
        ensures came { OnOk result (Happened C.acts time self.old (Tick ∷ []) self.new
            (W.contents output.old.writer) output.old.text.items
            (W.contents output.new.writer) output.new.text.items) }
        ensures prints { Prints output.old.faults output.new.faults result }
    {
        match self.station.advance(&mut self.puts) {
            Ok(()) => print_all(output, &self.station, &mut self.puts, time),
            Err(_) => {
                self.dropped = self.dropped.saturating_add(1);
                Ok(())
            }
        }
    }

    /// So many ticks, one after the other.
    fn pass_all<W: Write, S: Watch<C>>(
        &mut self,
        output: &mut Output<W>,
        watch: &mut S,
        time: u64,
        count: u16,
    ) -> Result<(), Error>
        ensures came { OnOk result (Happened C.acts time self.old (ticks count) self.new
            (W.contents output.old.writer) output.old.text.items
            (W.contents output.new.writer) output.new.text.items) }
        ensures prints { Prints output.old.faults output.new.faults result }
    {
        if count == 0 {
            return Ok(());
        }
        self.tick(output, time)?;
        self.ticks = self.ticks.saturating_add(1);
        watch.ticked(&self.station, time, self.ticks, self.dropped);
        self.pass_all(output, watch, time, count - 1)
    }

    /// So many ticks, at a time.
    #[inline(always)]
    pub(crate) fn pass<W: Write, S: Watch<C>>(
        &mut self,
        output: &mut Output<W>,
        watch: &mut S,
        time: u64,
        count: u16,
    ) -> Result<(), Error>
        ensures came { OnOk result (Happened C.acts time self.old (ticks count) self.new
            (W.contents output.old.writer) output.old.text.items
            (W.contents output.new.writer) output.new.text.items) }
        ensures prints { Prints output.old.faults output.new.faults result }
    {
        // In most blocks no tick passes.
        if count == 0 {
            return Ok(());
        }
        self.pass_all(output, watch, time, count)
    }

    /// A frame on the cable of a port, at a time, with these bytes.
    pub(crate) fn hear<W: Write, S: Watch<C>>(
        &mut self,
        output: &mut Output<W>,
        watch: &mut S,
        time: u64,
        port: u8,
        frame: &Frame<'_>,
        bytes: &[u8],
    ) -> Result<(), Error>
        ensures came { OnOk result (Happened C.acts time self.old (Heard port (framed frame.now) ∷ [])
            self.new (W.contents output.old.writer) output.old.text.items
            (W.contents output.new.writer) output.new.text.items) }
        ensures prints { Prints output.old.faults output.new.faults result }
    {
        match self.station.receive(port, frame, &mut self.puts) {
            Ok(()) => {
                watch.heard(&self.station, time, bytes);
                print_all(output, &self.station, &mut self.puts, time)
            }
            Err(_) => {
                self.dropped = self.dropped.saturating_add(1);
                Ok(())
            }
        }
    }
}
