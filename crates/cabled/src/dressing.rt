//! What is put for the outputs of a router.

ghost use Rattle.std.specs.Prelude.{◌≡◌, ◌<◌, ◌≤◌, ◌+◌, [], ◌∷◌, ◌++◌, length, slice_get};
ghost use Rattle.cabled.specs.Putting as spec;
ghost use Rattle.cabled.specs.Putting.{asked_by};
ghost use Rattle.port.specs.Ports.{found};

use crate::put::{Carried, Put};
use crate::puts::Puts;
use at_base::{Addr, Bytes, Hw};
use port::Port;
use station::{Next, Output, Outputs};

/// Puts a datagram to a hardware address.
fn put_datagram(puts: &mut Puts, port: u8, to: Hw, bytes: Bytes)
    requires { 0 < puts.old.spare }
    ensures put { puts.new.items ≡ puts.old.items ++ spec.datagram_by port to bytes ∷ [] }
    ensures spare { puts.new.spare + 1 ≡ puts.old.spare }
{
    puts.add(Put {
        port,
        to,
        carried: Carried::Datagram(bytes),
    });
}

/// Puts the request of a port for the hardware address of an address.
pub(crate) fn put_request(puts: &mut Puts, port: &Port, number: u8, addr: Addr)
    requires { 0 < puts.old.spare }
    ensures put { puts.new.items ≡ puts.old.items ++ asked_by number addr port.now ∷ [] }
    ensures spare { puts.new.spare + 1 ≡ puts.old.spare }
{
    puts.add(Put {
        port: number,
        to: Hw::ALL,
        carried: Carried::Packet(port.request(addr)),
    });
}

/// Lets a datagram wait for the hardware address of a station, and asks for it if it is the first
/// one that does.
fn wait(puts: &mut Puts, port: &mut Port, number: u8, next: Addr, bytes: Bytes)
    requires { 0 < puts.old.spare }
    ensures put { puts.new.items ≡ puts.old.items ++ spec.first_asked number next port.old }
    ensures waits { port.new ≡ spec.with_waiting next bytes port.old }
    ensures spare { puts.old.spare ≤ puts.new.spare + 1 }
{
    let request = port.request(next);
    let waits = port.hold(next, bytes);
    if waits.first {
        puts.add(Put {
            port: number,
            to: Hw::ALL,
            carried: Carried::Packet(request),
        });
    }
}

/// Sends a datagram to a station: it is put, or waits for the hardware address.
fn send_to(puts: &mut Puts, port: &mut Port, number: u8, next: Addr, bytes: Bytes)
    requires { 0 < puts.old.spare }
    ensures put { puts.new.items ≡ puts.old.items
        ++ (spec.sent_to number next bytes port.old (found port.old next)).0 }
    ensures after { port.new ≡ (spec.sent_to number next bytes port.old (found port.old next)).1 }
    ensures spare { puts.old.spare ≤ puts.new.spare + 1 }
{
    match port.find(next) {
        Some(to) => put_datagram(puts, number, to, bytes),
        None => wait(puts, port, number, next, bytes),
    }
}

/// Sends a datagram by a port with this number. The caller ensures that there is room for a packet.
pub fn send(puts: &mut Puts, port: &mut Port, number: u8, next: Next, bytes: Bytes)
    requires { 0 < puts.old.spare }
    ensures put { puts.new.items ≡ puts.old.items ++ (spec.sent number next bytes port.old).0 }
    ensures after { port.new ≡ (spec.sent number next bytes port.old).1 }
    ensures spare { puts.old.spare ≤ puts.new.spare + 1 }
{
    match next {
        Next::All => put_datagram(puts, number, Hw::ALL, bytes),
        Next::Group(group) => put_datagram(puts, number, Hw::zone(group), bytes),
        Next::Station(addr) => send_to(puts, port, number, addr, bytes),
    }
}

/// Sends a datagram by the port with a number, if there is one.
fn send_by(puts: &mut Puts, ports: &mut [Port], number: u8, next: Next, bytes: Bytes)
    requires { 0 < puts.old.spare }
    ensures put { puts.new.items ≡ puts.old.items
        ++ (spec.sent_at number next bytes ports.old (slice_get ports.old number)).0 }
    ensures after { ports.new
        ≡ (spec.sent_at number next bytes ports.old (slice_get ports.old number)).1 }
    ensures spare { puts.old.spare ≤ puts.new.spare + 1 }
{
    if (number as usize) < ports.len() {
        send(puts, &mut ports[number as usize], number, next, bytes);
    }
}

/// Puts what an output of the router asks for.
fn dress(puts: &mut Puts, ports: &mut [Port], output: Output)
    requires { 0 < puts.old.spare }
    ensures put { puts.new.items ≡ puts.old.items ++ (spec.dressed output ports.old).0 }
    ensures after { ports.new ≡ (spec.dressed output ports.old).1 }
    ensures spare { puts.old.spare ≤ puts.new.spare + 1 }
{
    match output {
        Output::Made { port, next, bytes } | Output::Passed { port, next, bytes } => {
            send_by(puts, ports, port, next, bytes);
        }
        Output::Kept { .. } | Output::Dropped { .. } => {}
        Output::Wire { port, to, bytes } => puts.add(Put {
            port,
            to,
            carried: Carried::Written(bytes),
        }),
    }
}

/// Puts what the outputs of the router ask for, one after the other. The caller ensures that there
/// is room for one packet for each.
pub(crate) fn dress_all(puts: &mut Puts, ports: &mut [Port], outputs: &mut Outputs)
    requires { length outputs.old.items ≤ puts.old.spare }
    ensures put { puts.new.items
        ≡ puts.old.items ++ (spec.all_dressed outputs.old.items ports.old).0 }
    ensures after { ports.new ≡ (spec.all_dressed outputs.old.items ports.old).1 }
    ensures none { outputs.new.items ≡ [] }
    ensures spare { puts.old.spare ≤ puts.new.spare + length outputs.old.items }
{
    if let Some(output) = outputs.pop() {
        dress(puts, ports, output);
        dress_all(puts, ports, outputs);
    }
}
