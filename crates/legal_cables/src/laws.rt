//! Laws of live cables that keep what their transcript says, for use by other crates. The functions
//! do nothing: each law is the function's ensures clause.

ghost use Rattle.std.specs.Prelude.{◌≡◌, ◌+◌, ℕ, [], length};
ghost use Rattle.audit.specs.Rules.{Passes};
ghost use Rattle.end_node.specs.Answers as answers_spec;
ghost use Rattle.end_node.specs.Holding.{NodeHolding};
ghost use Rattle.image_cables.specs.Settled.{cable_ranges, seat_addresses, seat_maps};
ghost use Rattle.image_stations.specs.Holders.{HoldsNode, HoldsRouter};
ghost use Rattle.legal_cables.specs.Keeping.{AreKept, Resolves, ResolvesTake};
ghost use Rattle.legal_runs.specs.Answers.{IsMade, IsOwn};
ghost use Rattle.legal_runs.specs.Legs.{Leg};
ghost use Rattle.legal_runs.specs.Stations.{cable_seats};
ghost use Rattle.live_cables.specs.Living.{IsSentOver, TakesStill, Wires, happened};
ghost use Rattle.resolved_runs.specs.Fitting.{SeatsFit};
ghost use Rattle.resolved_runs.specs.ResolvedRuns.{IsLegalResolved};
ghost use Rattle.router.specs.Answers.{Hears};
ghost use Rattle.router.specs.Holding.{Holding};
ghost use Rattle.table_image.specs.Bounds.{IsBounded};
ghost use Rattle.table_image.specs.Internet.{Internet};

/// Cables with the seats of an image, where each seat has its address and has learnt the mappings
/// that the image has for it, keep what the empty transcript says.
pub fn fresh_cables_keep()
    ensures { (i : Internet) (w : Wires) → Passes i → IsBounded i
        → w.cabling.seats ≡ cable_seats i → w.cabling.lines ≡ []
        → w.own ≡ seat_addresses i → w.maps ≡ seat_maps i → w.ranges ≡ cable_ranges i
        → AreKept i w }
{}

/// If a router with the image's tables takes a frame over cables that keep what their legal
/// transcript says, and no frame is lost, the entries that follow are a block of a legal transcript
/// with resolution, which begins with the taking, the cables keep what their transcript says then, and the router still holds the
/// image's tables.
pub fn routers_takes_resolve()
    ensures { (i : Internet) (old new : Wires) (stamp station ports : ℕ) (h g : Holding)
        → Passes i → IsBounded i → SeatsFit i → IsLegalResolved i (happened old) → AreKept i old
        → HoldsRouter i station h
        → TakesStill stamp station ports (λ x added. Hears h x added g) old new
        → ResolvesTake i old new stamp station × HoldsRouter i station g }
{}

/// The same of a node with the image's contents.
pub fn nodes_takes_resolve()
    ensures { (i : Internet) (old new : Wires) (stamp station ports k : ℕ) (h g : NodeHolding)
        → Passes i → IsBounded i → SeatsFit i → IsLegalResolved i (happened old) → AreKept i old
        → station ≡ length i.routers + k → HoldsNode i k h
        → TakesStill stamp station ports (λ x added. answers_spec.Hears h x added g) old new
        → ResolvesTake i old new stamp station × HoldsNode i k g }
{}

/// If a node sends a datagram on its own initiative over such cables, and no frame is lost, the
/// entries that follow are a block of a legal transcript with resolution, and the cables keep what
/// their transcript says then.
pub fn sendings_resolve()
    ensures { (i : Internet) (old new : Wires) (l : Leg)
        → Passes i → SeatsFit i → IsLegalResolved i (happened old) → AreKept i old
        → IsMade i l → IsOwn i l → IsSentOver l.station l.cable l.next l.body old new
        → Resolves i old new }
{}
