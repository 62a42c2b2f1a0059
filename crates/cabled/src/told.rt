//! What a port makes of an AARP packet.

ghost use Rattle.std.specs.Prelude.{◌≡◌, ◌≤◌, ◌++◌, [], false, filter, length, not, slice_get, true, Some};
ghost use Rattle.std.specs.Prelude.{IsOkUnless, OnErr, OnOk};
ghost use Rattle.aarp.specs.Choosing.{wants};
ghost use Rattle.aarp.specs.Mapping.{is_for};
ghost use Rattle.at_base.specs.Limits.{max_held};
ghost use Rattle.cabled.specs.declared.peers.Peers.{Peers as PeersValue};
ghost use Rattle.cabled.specs.Putting as putting_spec;
ghost use Rattle.cabled.specs.Steps as spec;

use crate::peers::Peers;
use crate::put::{Carried, Put};
use crate::puts::Puts;
use aarp::{Function, Packet};
use at_base::{Addr, Error, Hw};
use port::Port;

/// Puts the datagrams that wait at a port for an address to a hardware address, oldest first. The
/// caller ensures that there is room for all that wait.
fn release_all(puts: &mut Puts, port: &mut Port, number: u8, addr: Addr, to: Hw)
    requires { length port.old.maps.held ≤ puts.old.spare }
    ensures put { puts.new.items
        ≡ puts.old.items ++ putting_spec.released_by number addr to port.old.maps.held }
    ensures left { port.new ≡ record port.old {
      maps = record port.old.maps { held = filter (λ h. not (is_for addr h)) port.old.maps.held };
    } }
{
    if let Some(held) = port.release(addr) {
        puts.add(Put {
            port: number,
            to,
            carried: Carried::Datagram(held.bytes),
        });
        release_all(puts, port, number, addr, to);
    }
}

/// Whether another hardware address than this one is known.
fn is_another(hw: Hw, known: Option<Hw>) -> bool
    ensures { result ≡ spec.is_another hw known }
{
    match known {
        Some(known) => !known.same(&hw),
        None => false,
    }
}

/// Learns the mapping in a response, and puts what waits at the port for its source. The caller
/// ensures that there is room for 16 packets. Error: `Memory`; nothing changes then.
pub fn hear_response(
    puts: &mut Puts,
    port: &mut Port,
    number: u8,
    packet: &Packet,
) -> Result<(), Error>
    requires { max_held ≤ puts.old.spare }
    ensures put { OnOk result (puts.new.items ≡ puts.old.items ++ putting_spec.released_by number
        packet.now.source packet.now.source_hw port.old.maps.held) }
    ensures after { OnOk result (port.new
        ≡ putting_spec.with_answer packet.now.source packet.now.source_hw port.old) }
    ensures refused { IsOkUnless result Error.Memory }
    ensures port_stays { OnErr result (port.new ≡ port.old) }
    ensures puts_stay { OnErr result (puts.new.items ≡ puts.old.items) }
{
    // Only the prover needs this read: it shows that at most 16 datagrams wait.
    let _known = port.look(packet.source);
    port.learn(packet.source, packet.source_hw)?;
    release_all(puts, port, number, packet.source, packet.source_hw);
    Ok(())
}

/// Forgets the mapping of an address that a probe from a hardware address shows to be another
/// station's; a router of a play doesn't.
fn doubt(port: &mut Port, peers: Peers, addr: Addr, hw: Hw)
    ensures { port.new ≡ spec.doubted peers addr hw port.old }
{
    match peers {
        Peers::Played => {}
        Peers::Real => {
            if is_another(hw, port.look(addr)) {
                port.forget(addr);
            }
        }
    }
}

/// A port hears an AARP packet that asks for a response: a probe may end a mapping.
pub fn hear_question(port: &mut Port, number: u8, peers: Peers, packet: &Packet)
    requires { wants packet.now.function ≡ true }
    ensures none { (spec.told peers number packet.now port.old).0 ≡ [] }
    ensures after { port.new ≡ (spec.told peers number packet.now port.old).1 }
{
    match packet.function {
        Function::Probe => doubt(port, peers, packet.target, packet.source_hw),
        Function::Request | Function::Response => {}
    }
}

/// The port with a number, if there is one, hears an AARP packet that asks for a response.
pub(crate) fn question_at(ports: &mut [Port], number: u8, peers: Peers, packet: &Packet)
    requires { wants packet.now.function ≡ true }
    ensures none { (spec.told_at peers number ports.old (Some packet.now)
        (slice_get ports.old number)).0 ≡ [] }
    ensures after { ports.new ≡ (spec.told_at peers number ports.old (Some packet.now)
        (slice_get ports.old number)).1 }
{
    if (number as usize) < ports.len() {
        hear_question(&mut ports[number as usize], number, peers, packet);
    }
}

/// The port with a number, if there is one, hears an AARP response. The caller ensures that there is
/// room for 16 packets. Error: `Memory`; nothing changes then.
pub(crate) fn answer_at(
    ports: &mut [Port],
    number: u8,
    packet: &Packet,
    puts: &mut Puts,
) -> Result<(), Error>
    requires answers { wants packet.now.function ≡ false }
    requires room { max_held ≤ puts.old.spare }
    ensures put { (peers : PeersValue) → OnOk result (puts.new.items ≡ puts.old.items
        ++ (spec.told_at peers number ports.old (Some packet.now) (slice_get ports.old number)).0) }
    ensures after { (peers : PeersValue) → OnOk result (ports.new
        ≡ (spec.told_at peers number ports.old (Some packet.now) (slice_get ports.old number)).1) }
    ensures refused { IsOkUnless result Error.Memory }
    ensures ports_stay { OnErr result (ports.new ≡ ports.old) }
    ensures puts_stay { OnErr result (puts.new.items ≡ puts.old.items) }
{
    if (number as usize) < ports.len() {
        return hear_response(puts, &mut ports[number as usize], number, packet);
    }
    Ok(())
}
