//! The choice of the ports' addresses, tick by tick.

ghost use Rattle.std.specs.Prelude.{◌≡◌, ◌<◌, ◌≤◌, ◌+◌, ◌++◌, ◌∷◌, [], ℕ, length, option_map};
ghost use Rattle.std.specs.Prelude.{unwrap_or, IfOk, IsOkUnless, OnOk, Some};
ghost use Rattle.std.specs.List.{list_all};
ghost use Rattle.aarp.specs.Choosing.{ticked};
ghost use Rattle.live_router.specs.Ticking.{ports_ticked, probes};
ghost use Rattle.station.specs.Made.{AreMade};
ghost use Rattle.station.specs.Resolution.{probed};
ghost use Rattle.at_base.specs.Limits.{max_ports};

use aarp::Chooser;
use at_base::Error;
use router::Router;
use rtmp::RouteTable;
use station::Output;
use station::frames::put_probe;

/// Whether the port's address is settled.
fn is_settled(chooser: &Chooser) -> bool
    ensures { result ≡ chooser.now.is_settled }
{
    chooser.settled().is_some()
}

/// Whether the address of each port is settled.
pub(crate) fn are_settled(ports: &[Chooser]) -> bool
    ensures { result ≡ list_all (λ c. c.is_settled) ports.now }
{
    ports.iter().all(is_settled)
}

/// Advances the choice of a port's address by a tick: appends the choice after the tick, and adds
/// the probe that the port sends, if any. Error: `Memory`.
fn tick_port(
    made: &mut Vec<Output>,
    next: &mut Vec<Chooser>,
    port: u8,
    chooser: &Chooser,
) -> Result<(), Error>
    ensures next { OnOk result (next.new.items ≡ next.old.items ++ (ticked chooser.now).0 ∷ []) }
    ensures put { OnOk result
        (made.new.items ≡ made.old.items ++ probed port (ticked chooser.now).1) }
    ensures good { (n : ℕ) → port < n → AreMade n made.old.items
        → AreMade n made.new.items }
    ensures refused { IsOkUnless result Error.Memory }
{
    let mut chooser = chooser.copy()?;
    let probe = chooser.tick();
    next.push(chooser)?;
    put_probe(made, port, &probe)
}

/// Advances the choices of the ports, which are numbered from `port`, by a tick. Error: `Memory`.
fn tick_ports(
    made: &mut Vec<Output>,
    next: &mut Vec<Chooser>,
    port: u8,
    ports: &[Chooser],
) -> Result<(), Error>
    requires { port + length ports.now ≤ max_ports }
    ensures next { OnOk result (next.new.items ≡ next.old.items ++ ports_ticked ports.now) }
    ensures put { OnOk result (made.new.items ≡ made.old.items ++ probes port ports.now) }
    ensures good { (n : ℕ) → port + length ports.now ≤ n → AreMade n made.old.items
        → AreMade n made.new.items }
    ensures refused { IsOkUnless result Error.Memory }
{
    match ports {
        [] => Ok(()),
        [chooser, rest @ ..] => {
            tick_port(made, next, port, chooser)?;
            tick_ports(made, next, port + 1, rest)
        }
    }
}

/// The choices of the ports' addresses after a tick, or `None` if all are settled and so don't
/// change. Adds the probes of the tick. Error: `Memory`.
pub(crate) fn ports_after<T: RouteTable>(
    router: &Router<T>,
    made: &mut Vec<Output>,
) -> Result<Option<Vec<Chooser>>, Error>
    ensures next { IfOk result (λ next. unwrap_or (option_map (λ v. v.items) next)
        router.now.ports ≡ ports_ticked router.now.ports) }
    ensures put { IfOk result
        (λ next. made.new.items ≡ made.old.items ++ probes 0 router.now.ports) }
    ensures good { AreMade (length router.now.ports) made.old.items
        → AreMade (length router.now.ports) made.new.items }
    ensures refused { IsOkUnless result Error.Memory }
{
    let ports = router.ports_now();
    if are_settled(ports) {
        return Ok(None);
    }
    let mut next = Vec::with_capacity(router.allocator(), ports.len())?;
    tick_ports(made, &mut next, 0, ports)?;
    Ok(Some(next))
}
