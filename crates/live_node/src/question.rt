//! A node's GetNetInfo requests about its cable.

ghost use Rattle.std.specs.Prelude.{◌≡◌, ◌≤◌, ◌+◌, ◌++◌, length, IfOk, IsOkUnless, OnOk, Some};
ghost use Rattle.at_base.specs.Spelling.{bytes_of};
ghost use Rattle.live_node.specs.Ticking as spec;
ghost use Rattle.live_node.specs.Ticking.{asked_after, asked_from, question_way, questions};
ghost use Rattle.live_node.specs.Ticking.{wait_after};
ghost use Rattle.station.specs.Made.{AreMade};
ghost use Rattle.zip_zones.specs.Formats as formats_spec;
ghost use Rattle.zip_zones.specs.Written.{question};
ghost use Rattle.at_base.specs.Limits.{max_data};

use crate::live::LiveNode;
use at_base::{Addr, Bytes, Error, Name, Text32};
use ddp::{Header, kind, socket};
use station::making::put;
use station::ways::EVERY_NODE;
use station::{Next, Output, Way};
use std::alloc::Global;
use zip_zones::write_get_net_info;

/// The greatest number of requests that a node sends about its cable.
const MAX_QUESTIONS: u8 = 3;

/// The number of ticks between two requests, in which none is sent: requests are 5 ticks, a second,
/// apart.
const PAUSE: u8 = 4;

/// The way of a GetNetInfo request from this address: to all stations of the cable.
fn way_from(me: Addr) -> Way
    ensures { result ≡ question_way me }
{
    Way {
        port: 0,
        next: Next::All,
        header: Header {
            summed: false,
            target: Addr {
                net: 0,
                node: EVERY_NODE,
            },
            source: me,
            target_socket: socket::ZIP,
            source_socket: socket::ZIP,
            kind: kind::ZIP,
        },
    }
}

/// The name of a zone as a text.
fn text_of(zone: &Name) -> Text32
    ensures value { result ≡ zone.now }
    ensures short { length zone.now ≤ 32 }
{
    Text32::new(zone.as_slice()).unwrap()
}

/// The data of the GetNetInfo request of a node in this zone. Error: `Memory`.
fn data_for(alloc: Global, zone: &Name) -> Result<Bytes, Error>
    ensures ok { IfOk result (λ bytes. bytes ≡ bytes_of formats_spec.packet (question zone.now)) }
    ensures short { IfOk result (λ bytes. length bytes ≤ max_data) }
    ensures refused { IsOkUnless result Error.Memory }
{
    write_get_net_info(alloc, &text_of(zone))
}

impl LiveNode {
    /// Whether the node, with this address or none, still asks about its cable.
    fn is_asking(&self, own: Option<Addr>) -> bool
        ensures { result ≡ spec.is_asking own self.now }
    {
        own.is_some() && !self.answered && self.asked < MAX_QUESTIONS
    }

    /// Whether the node, with this address or none, sends a request in this tick.
    pub(crate) fn asks(&self, own: Option<Addr>) -> bool
        ensures { result ≡ spec.asks own self.now }
    {
        self.is_asking(own) && self.wait == 0
    }

    /// Adds a GetNetInfo request from this address. Error: `Memory`.
    fn ask_from(&self, me: Addr, made: &mut Vec<Output>) -> Result<(), Error>
        ensures put { OnOk result
            (made.new.items ≡ made.old.items ++ asked_from (Some me) self.now.node.zone) }
        ensures few { OnOk result (length made.new.items ≤ length made.old.items + 1) }
        ensures good { OnOk result (AreMade 1 made.old.items → AreMade 1 made.new.items) }
        ensures refused { IsOkUnless result Error.Memory }
    {
        let data = data_for(self.node.allocator(), self.node.zone())?;
        put(made, &Some(way_from(me)), data.as_slice())
    }

    /// Adds the GetNetInfo request of this tick, if there is one. Error: `Memory`.
    pub(crate) fn put_question(
        &self,
        own: Option<Addr>,
        made: &mut Vec<Output>,
    ) -> Result<(), Error>
        ensures put { OnOk result (made.new.items ≡ made.old.items ++ questions own self.now) }
        ensures few { OnOk result (length made.new.items ≤ length made.old.items + 1) }
        ensures good { OnOk result (AreMade 1 made.old.items → AreMade 1 made.new.items) }
        ensures refused { IsOkUnless result Error.Memory }
    {
        match own {
            Some(me) if self.asks(own) => self.ask_from(me, made),
            _ => Ok(()),
        }
    }

    /// Counts the request of this tick, if there is one, and the ticks up to the next.
    pub(crate) fn count_question(&mut self, own: Option<Addr>)
        ensures { self.new ≡ record self.old {
          asked = asked_after own self.old;
          wait = wait_after own self.old;
        } }
    {
        if !self.is_asking(own) {
            return;
        }
        if self.wait == 0 {
            self.asked += 1;
            self.wait = PAUSE;
        } else {
            self.wait -= 1;
        }
    }
}
