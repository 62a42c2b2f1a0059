//! Stations of two kinds as one type.

use crate::heard::Heard;
use crate::outputs::Outputs;
use crate::station::Station;
use at_base::Error;

/// A station of an internet: a router or a node.
#[derive(Drop)]
pub enum Member<R, N> {
    /// A router.
    Router(R),
    /// A node.
    Node(N),
}

impl<R: Station, N: Station> Station for Member<R, N> {
    ghost use Rattle.station.specs.Members.{EitherHears, EitherTicks, either};

    ghost ports_of = { either R.ports_of N.ports_of };

    ghost hears = { EitherHears R.hears N.hears };

    ghost ticks = { EitherTicks R.ticks N.ticks };

    fn ports(&self) -> u8 {
        match self {
            Member::Router(router) => router.ports(),
            Member::Node(node) => node.ports(),
        }
    }

    fn receive(&mut self, heard: &Heard<'_>, outputs: &mut Outputs) -> Result<(), Error> {
        match self {
            Member::Router(router) => router.receive(heard, outputs),
            Member::Node(node) => node.receive(heard, outputs),
        }
    }

    fn tick(&mut self, outputs: &mut Outputs) -> Result<(), Error> {
        match self {
            Member::Router(router) => router.tick(outputs),
            Member::Node(node) => node.tick(outputs),
        }
    }
}
