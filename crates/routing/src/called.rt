//! What the cables of a router's ports are called.

ghost use Rattle.std.specs.Prelude.{◌≡◌, ◌≤◌, ◌+◌, ◌++◌, codes, length, IfOk, IsOkUnless, OnOk};
ghost use Rattle.std.specs.Fmt.{decimal};
ghost use Rattle.at_base.specs.Limits.{max_ports};
ghost use Rattle.at_base.specs.Text.{same_bytes};
ghost use Rattle.pcapng.specs.Reads.{described};
ghost use Rattle.routing.specs.Called as spec;

use at_base::{Bytes, Error};
use pcapng::Described;
use std::alloc::{AllocError, Global};
use text::put_decimal;

/// What the interface is called that is the cable of a port.
#[derive(Debug, Drop)]
pub struct Called {
    /// The whole name.
    alone: Bytes,
    /// What a longer name begins with, if it may be longer.
    front: Option<Bytes>,
}

/// Appends `cable` and its number.
fn put_cable(text: &mut Vec<u8>, number: u8) -> Result<(), AllocError>
    ensures { OnOk result
        (text.new.items ≡ text.old.items ++ (codes "cable " ++ decimal number)) }
{
    text.extend_from_slice(b"cable ")?;
    put_decimal(text, u32::from(number))
}

/// The name of the cable with a number, alone.
fn alone(alloc: Global, number: u8) -> Result<Bytes, Error>
    ensures ok { IfOk result (λ name. name ≡ codes "cable " ++ decimal number) }
    ensures refused { IsOkUnless result Error.Memory }
{
    let mut name = Vec::new(alloc);
    put_cable(&mut name, number)?;
    Ok(Bytes::from_vec(name))
}

/// The name of the cable with a number, and the comma after it.
fn front(alloc: Global, number: u8) -> Result<Bytes, Error>
    ensures ok { IfOk result (λ name. name ≡ codes "cable " ++ decimal number ++ codes ", ") }
    ensures refused { IsOkUnless result Error.Memory }
{
    let mut name = Vec::new(alloc);
    put_cable(&mut name, number)?;
    name.extend_from_slice(b", ")?;
    Ok(Bytes::from_vec(name))
}

/// Whether a name goes on after these bytes, if it may.
fn goes_on(front: &Option<Bytes>, name: &[u8]) -> bool
    ensures { result ≡ spec.goes_on front.now name.now }
{
    match front {
        Some(front) => name.starts_with(front.as_slice()),
        None => false,
    }
}

/// Whether the bytes are the same.
fn is_same(name: &[u8], other: &[u8]) -> bool
    ensures { result ≡ same_bytes name.now other.now }
{
    name == other
}

impl Called {
    /// The cable with a number, from 1, as the captures of plays and traces name it: `cable 3`, alone
    /// or before a comma and a space. Error: `Memory`.
    pub fn cable(alloc: Global, number: u8) -> Result<Called, Error>
        ensures ok { IfOk result (λ called. called ≡ spec.cable_called number) }
        ensures refused { IsOkUnless result Error.Memory }
    {
        Ok(Called {
            alone: alone(alloc, number)?,
            front: Some(front(alloc, number)?),
        })
    }

    /// A cable whose interface has this name, and no other. Allocates nothing.
    pub fn only(name: Bytes) -> Called
        ensures { result ≡ spec.called_only name }
    {
        Called {
            alone: name,
            front: None,
        }
    }

    /// Whether an interface with this name is the cable. Allocates nothing.
    pub fn is(&self, name: &[u8]) -> bool
        ensures { result ≡ spec.is_called self.now name.now }
    {
        is_same(name, self.alone.as_slice()) || goes_on(&self.front, name)
    }
}

/// The number of the first cable that has this name; the cables are numbered from `from`.
fn first_called(calls: &[Called], from: u8, name: &[u8]) -> Option<u8>
    requires { from + length calls.now ≤ max_ports }
    ensures { result ≡ spec.first_called from calls.now name.now }
{
    match calls {
        [] => None,
        [called, rest @ ..] => {
            if called.is(name) {
                Some(from)
            } else {
                first_called(rest, from + 1, name)
            }
        }
    }
}

/// The port of the first cable that is called like an interface, if that has a name.
fn port_called(calls: &[Called], it: &Described) -> Option<u8>
    requires { length calls.now ≤ max_ports }
    ensures { result ≡ spec.port_called calls.now (described it.now).name }
{
    match it.name {
        Some(name) => first_called(calls, 0, name),
        None => None,
    }
}

/// The port whose cable an interface is, if it is an Ethernet and the cable of one.
pub(crate) fn port_of(calls: &[Called], it: &Described) -> Option<u8>
    requires { length calls.now ≤ max_ports }
    ensures { result ≡ spec.port_of calls.now (described it.now) }
{
    if it.interface.ethernet {
        port_called(calls, it)
    } else {
        None
    }
}
