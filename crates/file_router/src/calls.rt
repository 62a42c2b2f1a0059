//! What the cables of a router are called.

ghost use Rattle.std.specs.Prelude.{◌≡◌, ◌==◌, ◌+◌, ◌++◌, map, length, IfOk, IsOkUnless, IsTrue, OnOk};
ghost use Rattle.std.specs.List.{list_all};
ghost use Rattle.planned_stations.specs.Planning.{is_low_port};
ghost use Rattle.file_router.specs.Beginning as spec;

use crate::given::Given;
use at_base::{Bytes, Error};
use internet_file::{Port, Router};
use routing::Called;
use std::alloc::Global;

/// Whether a port is on the cable with a number.
fn is_on(port: &Port, cable: u8) -> bool
    ensures { result ≡ (port.now.cable == cable) }
{
    port.cable == u16::from(cable)
}

/// Whether a name is given to the cable of a port of the router.
fn is_there(router: &Router, given: &Given) -> bool
    ensures { result ≡ spec.is_there router.now given.now }
{
    router
        .port
        .as_slice()
        .iter()
        .any(|port| is_on(port, given.cable))
}

/// Whether a name is given to a cable on which the router has no port.
pub(crate) fn has_stray(router: &Router, names: &[Given]) -> bool
    ensures { result ≡ spec.has_stray router.now names.now }
{
    names.iter().any(|given| !is_there(router, given))
}

/// What the cable of a port is called: by the first name that was given to it.
fn call_of(alloc: Global, names: &[Given], port: &Port) -> Result<Called, Error>
    requires { IsTrue (is_low_port port.now) }
    ensures ok { IfOk result (λ called. called ≡ spec.called_as names.now port.now) }
    ensures refused { IsOkUnless result Error.Memory }
{
    match names {
        [] => Called::cable(alloc, port.cable as u8),
        [given, rest @ ..] => {
            if is_on(port, given.cable) {
                Ok(Called::only(Bytes::copy(alloc, given.name.as_slice())?))
            } else {
                call_of(alloc, rest, port)
            }
        }
    }
}

/// Appends what the cables of ports are called.
fn put_calls(calls: &mut Vec<Called>, names: &[Given], ports: &[Port]) -> Result<(), Error>
    requires { IsTrue (list_all is_low_port ports.now) }
    ensures number { OnOk result
        (length calls.new.items ≡ length calls.old.items + length ports.now) }
    ensures put { OnOk result (calls.new.items
        ≡ calls.old.items ++ map (spec.called_as names.now) ports.now) }
    ensures refused { IsOkUnless result Error.Memory }
{
    match ports {
        [] => Ok(()),
        [port, rest @ ..] => {
            let called = call_of(*calls.allocator(), names, port)?;
            calls.push(called)?;
            put_calls(calls, names, rest)
        }
    }
}

/// What the cables of ports are called. Error: `Memory`.
pub(crate) fn calls_of(alloc: Global, names: &[Given], ports: &[Port]) -> Result<Vec<Called>, Error>
    requires { IsTrue (list_all is_low_port ports.now) }
    ensures number { IfOk result (λ calls. length calls.items ≡ length ports.now) }
    ensures ok { IfOk result (λ calls. calls.items ≡ map (spec.called_as names.now) ports.now) }
    ensures refused { IsOkUnless result Error.Memory }
{
    let mut calls = Vec::new(alloc);
    put_calls(&mut calls, names, ports)?;
    Ok(calls)
}
