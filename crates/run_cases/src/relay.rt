//! A station with two ports that does the same with each datagram that it receives.

ghost use Rattle.std.specs.Prelude.{◌≡◌, IfOk, IsOkUnless};
ghost use Rattle.station.specs.Lawful.{AreLawful, IsWhole};

use crate::taking::{TARGET, TARGET_HW};
use aarp::{Function, Packet};
use at_base::{Addr, Bytes, Error, Hw};
use cable_model::DropCause;
use ddp::View;
use station::frames::{read_datagram, wire};
use station::{Heard, Kind, Next, Output, Outputs, Station, slices_have_bytes};
use std::alloc::Global;

/// The action of a relay for each datagram.
#[derive(Clone, Copy)]
pub(crate) enum Act {
    /// It forwards the datagram to `TARGET` on port 1.
    Pass,
    /// It keeps the datagram, as one for port 1.
    Keep,
    /// It drops the datagram, since it has no route.
    Drop,
    /// It makes two datagrams with the same bytes: one to all stations on port 0, and one to
    /// `TARGET` on port 1.
    Make,
    /// It sends an AARP response to `TARGET` on port 1.
    Answer,
}

/// The station, with its action.
#[derive(Drop)]
pub(crate) struct Relay {
    pub(crate) alloc: Global,
    pub(crate) act: Act,
}

/// The datagram without padding.
fn copied(alloc: Global, view: &View<'_>) -> Result<Bytes, Error>
    ensures whole { IfOk result (λ bytes. IsWhole bytes) }
    ensures refused { IsOkUnless result Error.Memory }
{
    slices_have_bytes(view.as_bytes());
    Bytes::copy(alloc, view.as_bytes())
}

/// The output of a datagram that is forwarded, kept or dropped.
fn one(alloc: Global, act: Act, view: &View<'_>) -> Result<Vec<Output>, Error>
    ensures lawful { IfOk result (λ made. AreLawful 2 made.items) }
    ensures refused { IsOkUnless result Error.Memory }
{
    let bytes = copied(alloc, view)?;
    let output = match act {
        Act::Keep => Output::Kept { port: 1, bytes },
        Act::Drop => Output::Dropped {
            cause: DropCause::NoRoute,
            bytes,
        },
        _ => Output::Passed {
            port: 1,
            next: Next::Station(TARGET),
            bytes,
        },
    };
    let mut made = Vec::new(alloc);
    made.push(output)?;
    Ok(made)
}

/// The two datagrams that are made.
fn two(alloc: Global, view: &View<'_>) -> Result<Vec<Output>, Error>
    ensures lawful { IfOk result (λ made. AreLawful 2 made.items) }
    ensures refused { IsOkUnless result Error.Memory }
{
    let mut made = Vec::new(alloc);
    made.push(Output::Made {
        port: 0,
        next: Next::All,
        bytes: copied(alloc, view)?,
    })?;
    made.push(Output::Made {
        port: 1,
        next: Next::Station(TARGET),
        bytes: copied(alloc, view)?,
    })?;
    Ok(made)
}

/// An AARP response from 20.1 to `TARGET`.
const RESPONSE: Packet = Packet {
    function: Function::Response,
    source_hw: Hw([2, 0, 0, 0, 0, 2]),
    source: Addr { net: 20, node: 1 },
    target_hw: TARGET_HW,
    target: TARGET,
};

/// The output of the AARP response.
fn answered(alloc: Global) -> Result<Vec<Output>, Error>
    ensures lawful { IfOk result (λ made. AreLawful 2 made.items) }
    ensures refused { IsOkUnless result Error.Memory }
{
    let output = wire(alloc, 1, &RESPONSE)?;
    let mut made = Vec::new(alloc);
    made.push(output)?;
    Ok(made)
}

impl Relay {
    fn made(&self, view: &View<'_>) -> Result<Vec<Output>, Error>
        ensures lawful { IfOk result (λ made. AreLawful 2 made.items) }
        ensures refused { IsOkUnless result Error.Memory }
    {
        match self.act {
            Act::Make => two(self.alloc, view),
            Act::Answer => answered(self.alloc),
            act => one(self.alloc, act, view),
        }
    }
}

impl Station for Relay {
    ghost ports_of = { λ relay. 2 };

    ghost hears = { λ old heard added new. new ≡ old };

    ghost ticks = { λ old added new. new ≡ old };

    fn ports(&self) -> u8 {
        2
    }

    fn receive(&mut self, heard: &Heard<'_>, outputs: &mut Outputs) -> Result<(), Error> {
        match heard.kind {
            Kind::Ddp => match read_datagram(heard.bytes) {
                Some(view) => {
                    let made = self.made(&view)?;
                    outputs.room(made.len())?;
                    outputs.append(made);
                    Ok(())
                }
                None => Ok(()),
            },
            // An AARP frame has no datagram.
            Kind::Aarp => Ok(()),
        }
    }

    fn tick(&mut self, _outputs: &mut Outputs) -> Result<(), Error> {
        Ok(())
    }
}
