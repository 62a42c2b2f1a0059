//! The data of the datagrams that ask.

ghost use Rattle.std.specs.Prelude.{◌≡◌, ◌≤◌, length, IfOk, IsOkUnless};
ghost use Rattle.at_base.specs.Limits.{max_data};
ghost use Rattle.survey.specs.Questions as spec;

use crate::question::{ASKING, Sought, Wanted};
use at_base::{Addr, Bytes, Error};
use nbp::Tuple;
use rtmp::{Horizon, Request};
use std::alloc::Global;
use zip_zones::{ZoneFunction, write_query};

/// The function of an echo request.
const ECHO_REQUEST: u8 = 1;

/// The control byte of an ATP request that needn't be handled exactly once.
const ATP_REQUEST: u8 = 0x40;

/// The data of an echo request.
fn echo_data(alloc: Global, id: u16) -> Result<Bytes, Error>
    ensures ok { IfOk result (λ bytes. bytes ≡ spec.echo_asked id) }
    ensures short { IfOk result (λ bytes. length bytes ≤ max_data) }
    ensures refused { IsOkUnless result Error.Memory }
{
    let [high, low] = id.to_be_bytes();
    Ok(Bytes::copy(alloc, &[ECHO_REQUEST, high, low])?)
}

/// The data of a request for routing data.
fn routes_data(alloc: Global, horizon: Horizon) -> Result<Bytes, Error>
    ensures ok { IfOk result (λ bytes. bytes ≡ spec.routes_asked horizon) }
    ensures short { IfOk result (λ bytes. length bytes ≤ max_data) }
    ensures refused { IsOkUnless result Error.Memory }
{
    Ok(Bytes::copy(alloc, &Request::Routes(horizon).write())?)
}

/// The data of a query for the zones of a network.
fn zones_data(alloc: Global, net: u16) -> Result<Bytes, Error>
    ensures ok { IfOk result (λ bytes. bytes ≡ spec.zones_asked net) }
    ensures short { IfOk result (λ bytes. length bytes ≤ max_data) }
    ensures refused { IsOkUnless result Error.Memory }
{
    match write_query(alloc, &[net]) {
        Ok(bytes) => Ok(bytes),
        Err(_) => Err(Error::Memory),
    }
}

/// The data of a request for a list of zones.
fn list_data(alloc: Global, function: ZoneFunction, start: u16, id: u16) -> Result<Bytes, Error>
    ensures ok { IfOk result (λ bytes. bytes ≡ spec.list_asked function start id) }
    ensures short { IfOk result (λ bytes. length bytes ≤ max_data) }
    ensures refused { IsOkUnless result Error.Memory }
{
    let [high, low] = start.to_be_bytes();
    let user = [function.number(), 0, high, low];
    match atp::write(alloc, ATP_REQUEST, 1, id, user, &[]) {
        Ok(bytes) => Ok(bytes),
        Err(_) => Err(Error::Memory),
    }
}

/// The data of a request for names, whose answers come to this address.
fn names_data(alloc: Global, sought: &Sought, own: Addr, id: u16) -> Result<Bytes, Error>
    ensures ok { IfOk result (λ bytes. bytes ≡ spec.names_asked sought.now own id) }
    ensures short { IfOk result (λ bytes. length bytes ≤ max_data) }
    ensures refused { IsOkUnless result Error.Memory }
{
    let tuple = Tuple {
        at: own,
        socket: ASKING,
        enumerator: 0,
        object: sought.object,
        kind: sought.kind,
        zone: sought.zone,
    };
    Ok(nbp::write(
        alloc,
        nbp::Function::BroadcastRequest,
        (id % 256) as u8,
        &tuple,
    )?)
}

impl Wanted {
    /// The data of the datagram that asks for it from an address, with an ID by which the answer is
    /// known. Error: `Memory`.
    pub(crate) fn data(&self, alloc: Global, id: u16, own: Addr) -> Result<Bytes, Error>
        ensures ok { IfOk result (λ bytes. bytes ≡ spec.data_of self.now id own) }
        ensures short { IfOk result (λ bytes. length bytes ≤ max_data) }
        ensures refused { IsOkUnless result Error.Memory }
    {
        match self {
            Wanted::Echo => echo_data(alloc, id),
            Wanted::Routes(horizon) => routes_data(alloc, *horizon),
            Wanted::Zones(net) => zones_data(alloc, *net),
            Wanted::List(function, start) => list_data(alloc, *function, *start, id),
            Wanted::Names(sought) => names_data(alloc, sought, own, id),
        }
    }
}
