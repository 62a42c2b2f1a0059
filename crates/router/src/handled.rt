//! The replies and requests that a router makes for the datagrams that end at it.

ghost use Rattle.std.specs.Prelude.{◌≡◌, ◌<◌, ◌≤◌, length};
ghost use Rattle.std.specs.Prelude.{[], false, IfOk, IfSome, IsOk, IsOkUnless, None, Some};
ghost use Rattle.std.specs.Prelude.{option_map, option_to_list};
ghost use Rattle.std.specs.Option.{unwrap_or};
ghost use Rattle.echo.specs.Echo.{echo_reply};
ghost use Rattle.router.specs.Answers as answers_spec;
ghost use Rattle.router.specs.Answers.{made_for, may_ask, requests_after, served};
ghost use Rattle.router.specs.Ending.{ended_by};
ghost use Rattle.router.specs.Zones.{transacted};
ghost use Rattle.atp.specs.InPlace.{transaction_in};
ghost use Rattle.atp.specs.Answers.{bytes_of_all};
ghost use Rattle.station.specs.Made.{Adds, AreMade, AreShort, Makes};
ghost use Rattle.router.specs.Ways as ways_spec;
ghost use Rattle.station.specs.Ways.{replying};

use crate::course::Ending;
use crate::lists::Transacted;
use crate::router::Router;
use at_base::{Bytes, Error};
use atp::Responder;
use ddp::{View, kind, socket};
use rtmp::RouteTable;
use station::Output;
use station::making::{nothing, put_all, put_one};
use station::ways::{checks, is_to};

/// The outputs that a router makes for a datagram, its requests after it, and where the datagram
/// ended.
#[derive(Drop)]
pub(crate) struct Handled {
    pub(crate) made: Vec<Output>,
    /// The exactly-once requests for zone lists that the router holds after the datagram, if they
    /// may have changed.
    pub(crate) responder: Option<Responder>,
    /// The port on whose cable the datagram ended, if it did and its checksum is right.
    pub(crate) ended: Option<u8>,
}

impl<T: RouteTable> Router<T> {
    /// Adds the reply to a datagram that is an echo request. Error: `Memory`.
    fn hear_echo(&self, made: &mut Vec<Output>, port: u8, view: &View<'_>) -> Result<(), Error>
        ensures { Makes (length self.now.ports) 1
            (replying (ways_spec.way_back self.now port view.now)
            (option_to_list (echo_reply view.now)))
            made.old.items made.new.items result }
    {
        let way = self.way_back(port, view);
        if way.is_none() {
            return Ok(());
        }
        let payload = echo::reply(*made.allocator(), view)?;
        put_one(made, &way, &payload)
    }

    /// Adds the response packets of a transaction. Error: `Memory`.
    fn answer_list(
        &self,
        made: &mut Vec<Output>,
        port: u8,
        view: &View<'_>,
        packets: &[Bytes],
    ) -> Result<(), Error>
        requires few { length packets.now ≤ 8 }
        requires short { AreShort packets.now }
        ensures { Makes (length self.now.ports) 8
            (replying (ways_spec.way_back self.now port view.now) packets.now)
            made.old.items made.new.items result }
    {
        let way = self.way_back(port, view);
        put_all(made, &way, packets)
    }

    /// Adds the replies or requests for a datagram that isn't an ATP packet for the zone socket.
    /// Error: `Memory`.
    fn serve(&self, made: &mut Vec<Output>, ending: Ending, view: &View<'_>) -> Result<(), Error>
        requires { ending.port < length self.now.ports }
        ensures made { Adds (length self.now.ports) 256 (served self.now ending view.now)
            made.old.items made.new.items result }
        // Without a reply, no memory is needed, except for a request for names.
        ensures silent { may_ask view.now ≡ false → served self.now ending view.now ≡ []
            → IsOk result }
    {
        if is_to(view, kind::AEP, socket::ECHO) {
            return self.hear_echo(made, ending.port, view);
        }
        if is_to(view, kind::NBP, socket::NAMES) {
            if ending.is_own {
                return self.hear_names(made, view);
            }
            return Ok(());
        }
        if is_to(view, kind::ZIP, socket::ZIP) {
            return self.hear_zones(made, ending.port, view);
        }
        Ok(())
    }

    /// Handles a datagram that ended here and isn't an ATP packet for the zone socket. Error:
    /// `Memory`.
    fn handle_other(&self, ending: Ending, view: &View<'_>) -> Result<Handled, Error>
        requires { ending.port < length self.now.ports }
        ensures made { IfOk result (λ x. x.made.items ≡ served self.now ending view.now) }
        ensures responder { IfOk result (λ x. x.responder ≡ None) }
        ensures ended { IfOk result (λ x. x.ended ≡ Some ending.port) }
        ensures few { IfOk result (λ x. length x.made.items ≤ 256) }
        ensures good { IfOk result (λ x. AreMade (length self.now.ports) x.made.items) }
        ensures silent { may_ask view.now ≡ false → served self.now ending view.now ≡ []
            → IsOk result }
        ensures refused { IsOkUnless result Error.Memory }
    {
        let mut made = nothing(*self.ports.allocator());
        self.serve(&mut made, ending, view)?;
        Ok(Handled {
            made,
            responder: None,
            ended: Some(ending.port),
        })
    }

    /// Handles a datagram that ended here and is an ATP packet for the zone socket. Error:
    /// `Memory`.
    fn handle_transaction(&self, ending: Ending, view: &View<'_>) -> Result<Handled, Error>
        ensures made { IfOk result (λ x. x.made.items ≡ replying
            (ways_spec.way_back self.now ending.port view.now)
            (bytes_of_all (transacted self.now view.now (transaction_in view.now.payload)).0)) }
        ensures requests { IfOk result (λ x. unwrap_or x.responder self.now.requests
            ≡ (transacted self.now view.now (transaction_in view.now.payload)).1) }
        ensures ended { IfOk result (λ x. x.ended ≡ Some ending.port) }
        ensures few { IfOk result (λ x. length x.made.items ≤ 256) }
        ensures good { IfOk result (λ x. AreMade (length self.now.ports) x.made.items) }
        ensures refused { IsOkUnless result Error.Memory }
    {
        let Transacted { packets, responder } = self.transact(view)?;
        let mut made = nothing(*self.ports.allocator());
        self.answer_list(&mut made, ending.port, view, packets.as_slice())?;
        Ok(Handled {
            made,
            responder,
            ended: Some(ending.port),
        })
    }

    /// Handles a datagram that ended here and whose checksum is right. Error: `Memory`.
    fn handle_ended(&self, ending: Ending, view: &View<'_>) -> Result<Handled, Error>
        requires { ending.port < length self.now.ports }
        ensures made { IfOk result (λ x. x.made.items ≡ made_for self.now ending view.now) }
        ensures requests { IfOk result
            (λ x. unwrap_or x.responder self.now.requests ≡ requests_after self.now view.now) }
        ensures ended { IfOk result (λ x. x.ended ≡ Some ending.port) }
        ensures few { IfOk result (λ x. length x.made.items ≤ 256) }
        ensures good { IfOk result (λ x. AreMade (length self.now.ports) x.made.items) }
        ensures silent { may_ask view.now ≡ false → made_for self.now ending view.now ≡ []
            → IsOk result }
        ensures refused { IsOkUnless result Error.Memory }
    {
        if is_to(view, kind::ATP, socket::ZIP) {
            return self.handle_transaction(ending, view);
        }
        self.handle_other(ending, view)
    }

    /// Handles a datagram: nothing is made unless it ended here and its checksum is right. Error:
    /// `Memory`.
    pub(crate) fn handle(&self, ending: Option<Ending>, view: &View<'_>) -> Result<Handled, Error>
        requires { IfSome ending (λ e. e.port < length self.now.ports) }
        ensures made { IfOk result
            (λ x. x.made.items ≡ (answers_spec.handled self.now ending view.now).0) }
        ensures requests { IfOk result (λ x. unwrap_or x.responder self.now.requests
            ≡ (answers_spec.handled self.now ending view.now).1) }
        ensures ended { IfOk result
            (λ x. option_map (λ p. (p, view.now)) x.ended ≡ ended_by ending view.now) }
        ensures inside { IfOk result (λ x. IfSome x.ended (λ p. p < length self.now.ports)) }
        ensures few { IfOk result (λ x. length x.made.items ≤ 256) }
        ensures good { IfOk result (λ x. AreMade (length self.now.ports) x.made.items) }
        ensures silent { may_ask view.now ≡ false
            → (answers_spec.handled self.now ending view.now).0 ≡ [] → IsOk result }
        ensures refused { IsOkUnless result Error.Memory }
    {
        if let Some(ending) = ending {
            if checks(view) {
                return self.handle_ended(ending, view);
            }
        }
        Ok(Handled {
            made: nothing(*self.ports.allocator()),
            responder: None,
            ended: None,
        })
    }
}
