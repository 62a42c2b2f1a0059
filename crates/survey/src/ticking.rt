//! What a station that asks does in a tick.

ghost use Rattle.std.specs.Prelude.{◌≡◌, ◌≤◌, ◌<◌, ◌+◌, ◌++◌, ◌∷◌, [], length, None, IfOk, IfSome, IsOkUnless, OnErr, OnOk};
ghost use Rattle.aarp.specs.Choosing.{settled, ticked};
ghost use Rattle.at_base.specs.Limits.{max_held};
ghost use Rattle.cabled.specs.Putting.{asked_again, with_tick};
ghost use Rattle.cabled.specs.Acting.{Heard, Tick};
ghost use Rattle.ethertalk.specs.Frames.{framed};
ghost use Rattle.survey.specs.Asking as spec;

use crate::agenda::Turn;
use crate::asker::Asker;
use crate::seat::Seat;
use crate::slots::Open;
use aarp::{Chooser, Packet};
use at_base::{Addr, Bytes, Error, Hw, Range};
use cabled::{Cabled, Carried, Put, Puts, ask_each, send};
use ethertalk::Frame;
use port::Port;
use station::Next;
use station::ways::straight;
use std::alloc::Global;

/// The greatest number of packets that are put in a tick: a probe, a question, and 16 requests.
const MAX_PUT: usize = 18;

/// Puts a probe, if there is one.
fn put_probe(puts: &mut Puts, probe: &Option<Packet>)
    requires { 0 < puts.old.spare }
    ensures put { puts.new.items ≡ puts.old.items ++ spec.probe_put probe.now }
    ensures spare { puts.old.spare ≤ puts.new.spare + 1 }
{
    if let Some(probe) = probe {
        puts.add(Put {
            port: 0,
            to: Hw::ALL,
            carried: Carried::Packet(*probe),
        });
    }
}

/// The next station of a question.
fn hop(range: Range, router: Addr, target: Addr) -> Next
    ensures { result ≡ spec.hop range router target }
{
    if range.holds(target.net) && target.node != 0 {
        straight(target)
    } else {
        Next::Station(router)
    }
}

/// The datagram of a question from an address. Error: `Memory`.
fn datagram_asked(alloc: Global, own: Addr, item: &Open) -> Result<Bytes, Error>
    ensures ok { IfOk result (λ bytes. bytes ≡ spec.datagram_asked own item.now) }
    ensures refused { IsOkUnless result Error.Memory }
{
    let question = &item.question;
    let data = question.wanted.data(alloc, item.id, own)?;
    match ddp::write(alloc, &question.header(own), data.as_slice()) {
        Ok(bytes) => Ok(bytes),
        Err(_) => Err(Error::Memory),
    }
}

/// The datagram of the question that is asked, if there are an address and a question. Error:
/// `Memory`.
fn asked(alloc: Global, own: Option<Addr>, turn: &Option<Turn>) -> Result<Option<Bytes>, Error>
    ensures ok { IfOk result (λ bytes. bytes ≡ spec.asked_bytes own turn.now) }
    ensures refused { IsOkUnless result Error.Memory }
{
    match (own, turn) {
        (Some(own), Some(turn)) => {
            let bytes = datagram_asked(alloc, own, &turn.item)?;
            Ok(Some(bytes))
        }
        _ => Ok(None),
    }
}

/// A question leaves by the port, if there is one.
fn send_asked(
    puts: &mut Puts,
    port: &mut Port,
    range: Range,
    router: Addr,
    turn: &Option<Turn>,
    bytes: Option<Bytes>,
)
    requires { 0 < puts.old.spare }
    ensures put { puts.new.items
        ≡ puts.old.items ++ (spec.sent_asked range router turn.now bytes port.old).0 }
    ensures after { port.new ≡ (spec.sent_asked range router turn.now bytes port.old).1 }
    ensures spare { puts.old.spare ≤ puts.new.spare + 1 }
{
    if let (Some(turn), Some(bytes)) = (turn, bytes) {
        let next = hop(range, router, turn.item.question.to);
        send(puts, port, 0, next, bytes);
    }
}

/// The port asks once more for the stations that datagrams wait for. The caller ensures that there is
/// room for 16 packets.
fn ask_again(puts: &mut Puts, port: &mut Port)
    requires { max_held ≤ puts.old.spare }
    ensures put { puts.new.items ≡ puts.old.items ++ asked_again 0 port.old }
    ensures after { port.new ≡ with_tick port.old }
    ensures spare { puts.old.spare ≤ puts.new.spare + max_held }
{
    let asks = port.tick();
    ask_each(puts, port, 0, asks.ask.as_slice());
}

impl Asker {
    /// The question that is asked, if there is an address.
    fn turn(&self, router: Addr, own: Option<Addr>) -> Option<Turn>
        ensures { result ≡ spec.turn_if self.now.agenda router own }
    {
        match own {
            Some(_) => self.agenda.turn(router),
            None => None,
        }
    }

    /// What its port puts in a tick. The caller ensures that there is room for 18 packets.
    fn put_in_tick(
        &mut self,
        puts: &mut Puts,
        probe: &Option<Packet>,
        seat: &Seat,
        turn: &Option<Turn>,
        bytes: Option<Bytes>,
    )
        requires { 18 ≤ puts.old.spare }
        ensures put { puts.new.items ≡ puts.old.items
            ++ (spec.put_in probe.now seat.now turn.now bytes self.old.port).0 }
        ensures after { self.new ≡ record self.old {
          port = (spec.put_in probe.now seat.now turn.now bytes self.old.port).1;
        } }
    {
        put_probe(puts, probe);
        self.port.settle(seat.choice.settled());
        ask_again(puts, &mut self.port);
        send_asked(
            puts,
            &mut self.port,
            seat.choice.range(),
            seat.router,
            turn,
            bytes,
        );
    }

    /// A tick with a choice of an address. Error: `Memory`; nothing changes then.
    fn tick_with(&mut self, choice: Chooser, router: Addr, puts: &mut Puts) -> Result<(), Error>
        ensures put { OnOk result (puts.new.items
            ≡ puts.old.items ++ (spec.ticked_with self.old router (ticked choice)).0) }
        ensures after { OnOk result
            (self.new ≡ (spec.ticked_with self.old router (ticked choice)).1) }
        ensures refused { IsOkUnless result Error.Memory }
        ensures puts_stay { OnErr result (puts.new.items ≡ puts.old.items) }
        ensures stays { OnErr result (self.new ≡ self.old) }
    {
        // Room is made first, and the question is written: then nothing is refused.
        puts.room(MAX_PUT)?;
        let mut choice = choice;
        let probe = choice.tick();
        let own = choice.settled();
        let turn = self.turn(router, own);
        let bytes = asked(self.agenda.allocator(), own, &turn)?;
        let seat = Seat { choice, router };
        self.put_in_tick(puts, &probe, &seat, &turn, bytes);
        self.seat = Some(seat);
        self.agenda.pass(&turn);
        self.count();
        Ok(())
    }

    /// A tick. Error: `Memory`; nothing changes then.
    pub(crate) fn tick_all(&mut self, puts: &mut Puts) -> Result<(), Error>
        ensures put { OnOk result
            (puts.new.items ≡ puts.old.items ++ (spec.asking_ticked self.old).0) }
        ensures after { OnOk result (self.new ≡ (spec.asking_ticked self.old).1) }
        ensures refused { IsOkUnless result Error.Memory }
        ensures puts_stay { OnErr result (puts.new.items ≡ puts.old.items) }
        ensures stays { OnErr result (self.new ≡ self.old) }
    {
        match &self.seat {
            Some(seat) => {
                let choice = seat.choice.copy()?;
                let router = seat.router;
                self.tick_with(choice, router, puts)
            }
            None => {
                self.forget();
                self.count();
                Ok(())
            }
        }
    }
}

impl Cabled for Asker {
    ghost use Rattle.survey.specs.Asking.{asking_acts};

    ghost acts = { asking_acts };

    fn own_ports(&self) -> &[Port] {
        std::slice::from_ref(&self.port)
    }

    fn is_done(&self) -> bool {
        self.is_through()
    }

    fn receive(&mut self, port: u8, frame: &Frame<'_>, puts: &mut Puts) -> Result<(), Error> {
        self.hear_frame(port, frame, puts)
    }

    fn advance(&mut self, puts: &mut Puts) -> Result<(), Error> {
        self.tick_all(puts)
    }
}
