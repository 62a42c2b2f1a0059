//! Laws of routers, for the crates that use this one. Each is the contract of a function that does
//! nothing.

ghost use Rattle.std.specs.Prelude.{◌≡◌, ◌+◌, ◌<◌, ℕ, List};
ghost use Rattle.at_base.specs.Spelling.{Begins, Spells};
ghost use Rattle.ddp.specs.Bodies.{body, hops};
ghost use Rattle.ddp.specs.Datagram.{Datagram, datagram};
ghost use Rattle.station.specs.Hearing.{Hearing};
ghost use Rattle.station.specs.declared.output.Output.{Output};
ghost use Rattle.router.specs.Answers.{Hears};
ghost use Rattle.router.specs.Forwarding.{onward};
ghost use Rattle.router.specs.Holding.{Holding};
ghost use Rattle.router.specs.Stays.{TablesStay};

/// Receiving a frame changes neither a router's routing table, nor its zone table, nor the address
/// of any of its ports.
pub fn tables_stay()
    ensures { (old new : Holding) (x : Hearing) (added : List Output)
        → Hears old x added new → TablesStay old new }
{}

/// Forwarding keeps the body: if bytes begin with a datagram whose hop count is below 15, the bytes
/// that a router forwards for it are exactly one datagram, with the same body and one hop more.
pub fn forwarding_keeps_the_body()
    ensures { (bytes : List ℕ) (d : Datagram) → Begins datagram bytes d → d.hops < 15
        → Spells datagram (onward d) (record d { hops = d.hops + 1 })
        × (body (onward d) ≡ body bytes)
        × (hops (onward d) ≡ hops bytes + 1) }
{}
