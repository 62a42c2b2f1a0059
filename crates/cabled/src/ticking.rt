//! What a router with its ports does in a tick.

ghost use Rattle.std.specs.Prelude.{◌≡◌, ◌≤◌, ◌+◌, ◌*◌, ◌++◌, length, map, IfOk, IsOkUnless, OnErr, OnOk};
ghost use Rattle.aarp.specs.Mapping.{given_up, to_ask};
ghost use Rattle.at_base.specs.Limits.{max_held, max_ports};
ghost use Rattle.cabled.specs.Putting.{all_asked, asked_again, asked_by, with_tick};
ghost use Rattle.cabled.specs.Steps as spec;
ghost use Rattle.live_router.specs.Ticking.{ticked_live};

use crate::dressing::{dress_all, put_request};
use crate::hearing::MAX_PUT;
use crate::puts::Puts;
use aarp::Chooser;
use at_base::{Addr, Error};
use live_router::LiveRouter;
use port::Port;
use router::own_at;
use rtmp::RouteTable;
use station::{Outputs, Station};

/// Calls each port by the address of its choice, if it is settled.
fn call_all(ports: &mut [Port], choosers: &[Chooser])
    requires { length ports.old ≤ max_ports }
    ensures { ports.new ≡ spec.called choosers.now ports.old }
{
    let mut number = 0;
    for port in ports.iter_mut() {
        port.settle(own_at(choosers, number));
        number += 1;
    }
}

/// Puts the requests of a port for these addresses. The caller ensures that there is room for them.
pub fn ask_each(puts: &mut Puts, port: &Port, number: u8, addrs: &[Addr])
    requires { length addrs.now ≤ puts.old.spare }
    ensures put { puts.new.items
        ≡ puts.old.items ++ map (λ a. asked_by number a port.now) addrs.now }
    ensures spare { puts.old.spare ≤ puts.new.spare + length addrs.now }
{
    if let [addr, rest @ ..] = addrs {
        put_request(puts, port, number, *addr);
        ask_each(puts, port, number, rest);
    }
}

/// The routers with these addresses are lost.
fn lose_each<T: RouteTable>(router: &mut LiveRouter<T>, addrs: &[Addr])
    ensures { router.new ≡ record router.old {
      router = record router.old.router {
        routes = spec.all_poisoned addrs.now router.old.router.routes;
      };
    } }
{
    if let [addr, rest @ ..] = addrs {
        router.give_up(*addr);
        lose_each(router, rest);
    }
}

/// A port asks once more for the stations that datagrams wait for, and gives up those that it asked
/// for ten times. The caller ensures that there is room for 16 packets.
fn ask_again<T: RouteTable>(
    router: &mut LiveRouter<T>,
    puts: &mut Puts,
    port: &mut Port,
    number: u8,
)
    requires { max_held ≤ puts.old.spare }
    ensures put { puts.new.items ≡ puts.old.items ++ asked_again number port.old }
    ensures after { port.new ≡ with_tick port.old }
    ensures lost { router.new ≡ record router.old {
      router = record router.old.router {
        routes = spec.all_poisoned (given_up port.old.maps.held) router.old.router.routes;
      };
    } }
    ensures spare { puts.old.spare ≤ puts.new.spare + max_held }
{
    let asks = port.tick();
    ask_each(puts, port, number, asks.ask.as_slice());
    lose_each(router, asks.given_up.as_slice());
}

/// The ports ask once more, in order. The caller ensures that there is room for 16 packets for each.
fn ask_all<T: RouteTable>(router: &mut LiveRouter<T>, puts: &mut Puts, ports: &mut [Port])
    requires few { length ports.old ≤ max_ports }
    requires room { max_held * length ports.old ≤ puts.old.spare }
    ensures put { puts.new.items ≡ puts.old.items ++ all_asked 0 ports.old }
    ensures after { ports.new ≡ map with_tick ports.old }
    ensures lost { router.new ≡ spec.after_asking ports.old router.old }
{
    let mut number = 0;
    for port in ports.iter_mut() {
        ask_again(router, puts, port, number);
        number += 1;
    }
}

/// The outputs of the live router in a tick. Error: `Memory`; the router doesn't change then.
fn outputs_in_tick<T: RouteTable>(router: &mut LiveRouter<T>) -> Result<Outputs, Error>
    ensures outputs { IfOk result (λ outputs. outputs.items ≡ (ticked_live router.old).0) }
    ensures after { OnOk result (router.new ≡ (ticked_live router.old).1) }
    ensures few { IfOk result (λ outputs. length outputs.items ≤ 257) }
    ensures refused { IsOkUnless result Error.Memory }
    ensures router_stays { OnErr result (router.new ≡ router.old) }
{
    let mut outputs = Outputs::new(router.router().allocator())?;
    router.tick(&mut outputs)?;
    Ok(outputs)
}

/// A tick of a router and its ports. Error: `Memory`; nothing changes then.
pub(crate) fn tick_all<T: RouteTable>(
    router: &mut LiveRouter<T>,
    ports: &mut [Port],
    puts: &mut Puts,
) -> Result<(), Error>
    requires { length ports.old ≤ max_ports }
    ensures put { OnOk result (puts.new.items ≡ puts.old.items
        ++ (spec.put_in ports.old (ticked_live router.old)).0
        ++ all_asked 0 (spec.put_in ports.old (ticked_live router.old)).1) }
    ensures ports { OnOk result (ports.new
        ≡ map with_tick (spec.put_in ports.old (ticked_live router.old)).1) }
    ensures router { OnOk result (router.new
        ≡ spec.after_asking (spec.put_in ports.old (ticked_live router.old)).1
        (ticked_live router.old).1) }
    ensures refused { IsOkUnless result Error.Memory }
    ensures puts_stay { OnErr result (puts.new.items ≡ puts.old.items) }
    ensures ports_stay { OnErr result (ports.new ≡ ports.old) }
    ensures router_stays { OnErr result (router.new ≡ router.old) }
{
    // Room is made first: once the router has ticked, nothing is refused.
    puts.room(MAX_PUT)?;
    let mut outputs = outputs_in_tick(router)?;
    call_all(ports, router.router().ports_now());
    dress_all(puts, ports, &mut outputs);
    ask_all(router, puts, ports);
    Ok(())
}
